// Counts a refused claim in the mark of its try.
ghost use Rattle.std.specs.Prelude.{◌≡◌, List, vec_len, vec_capacity};
ghost use Rattle.board_rule.specs.Tries.{Try, at_last, refused_at};
ghost use Rattle.vertex_claims.specs.Marks.{marks_of};

use crate::mark::Mark;

// Counts a refused claim in the last mark. It takes no memory.
pub(crate) fn count(marks: &mut Vec<Mark>, place: u16, owner: u16)
    ensures marks { (tries : List Try) → marks.old.items ≡ marks_of tries → marks.new.items ≡ marks_of (at_last (refused_at place owner) tries) }
    ensures room { (vec_capacity marks.new ≡ vec_capacity marks.old) × (vec_len marks.new ≡ vec_len marks.old) }
{
    let Some(mut mark) = marks.pop() else {
        return;
    };
    if place == 0 {
        mark.journal = mark.journal.saturating_add(1);
    } else {
        mark.vertices = mark.vertices.saturating_add(1);
    }
    mark.last = place;
    mark.owner = owner;
    marks.push_reserved(mark);
}
