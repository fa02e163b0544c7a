//! Stars that a worker takes from their slots for a try.

ghost use Rattle.std.specs.Prelude.{◌≡◌, ◌+◌, ◌<◌, ◌≤◌, true, false, ℕ, nat_lt, get_or, vec_capacity, length};
ghost use Rattle.std.specs.List.Sorted.{IsPartitionPoint};
ghost use mathlib.Core.Option.{some};
ghost use Rattle.complex_core.specs.Labels.{IsRising, has};
ghost use Rattle.stars.specs.StarViews.{VertexStar, KeptStar, vertices, shown};
ghost use Rattle.board_rule.specs.Views.{home};
ghost use Rattle.board_rule.specs.Homes.{VersionedStar};
ghost use Rattle.vertex_claims.specs.Passes.{IsOf, IsSame, know, slot, spare, Puts};
ghost use Rattle.held_stars.specs.Holding.{Lends};

use board_rule::{Slot, VersionedStar};
use stars::Star;
use vertex_claims::{Board, Pass};

// Exchanges the star at a place that is held for another one.
fn swap_star(board: &Board, pass: &mut Pass, place: u16, star: Star) -> Star
    requires board { IsOf pass.old board.now }
    requires star { (x : VersionedStar) × (slot pass.old place ≡ some (Slot.Home x)) }
    ensures same { IsSame pass.old pass.new }
    ensures known { (know pass.new ≡ know pass.old) × (spare pass.new ≡ spare pass.old) }
    ensures star { (x : VersionedStar) → slot pass.old place ≡ some (Slot.Home x) → result.star ≡ x.star }
    ensures fits { length result.star.rows ≤ result.room }
    ensures slots { (x : VersionedStar) → slot pass.old place ≡ some (Slot.Home x) → Puts pass.old pass.new place (some (Slot.Home (home star.star x.version))) }
{
    let (old, version) = pass.take_star(board, place).into_parts();
    pass.put_star(board, place, VersionedStar::new(star, version));
    old
}

/// The place among rising stars where that of a vertex stands, or would stand.
pub fn place_among(near: &[Star], vertex: u16) -> usize
    requires { IsRising (vertices (shown near.now)) }
    ensures within { result ≤ length near.now }
    ensures parts { IsPartitionPoint (λ s. nat_lt s.star.vertex vertex ≡ true) (λ s. nat_lt s.star.vertex vertex ≡ false) near.now result }
    ensures there { has (vertices (shown near.now)) vertex ≡ true → (result < length near.now) × ((other : KeptStar) → (get_or near.now result other).star.vertex ≡ vertex) }
{
    near.partition_point(|star| star.vertex() < vertex)
}

/// Takes the star of a place that is held out of its slot, where it leaves an empty one, and lends it
/// beside others. It takes no memory.
pub(crate) fn lend(board: &Board, pass: &mut Pass, lent: &mut Vec<Star>, place: u16)
    requires board { IsOf pass.old board.now }
    requires place { 0 < place }
    requires star { (x : VersionedStar) × (slot pass.old place ≡ some (Slot.Home x)) × (x.star.vertex ≡ place) }
    requires rising { IsRising (vertices (shown lent.old.items)) }
    requires fresh { has (vertices (shown lent.old.items)) place ≡ false }
    requires room { length lent.old.items < vec_capacity lent.old }
    ensures same { IsSame pass.old pass.new }
    ensures known { know pass.new ≡ know pass.old }
    ensures lent { (x : VersionedStar) → slot pass.old place ≡ some (Slot.Home x) → Lends lent.old.items lent.new.items x.star }
    ensures slots { (x : VersionedStar) → slot pass.old place ≡ some (Slot.Home x) → (s : VertexStar) × Puts pass.old pass.new place (some (Slot.Home (home s x.version))) }
    ensures count { length lent.new.items ≡ length lent.old.items + 1 }
    ensures capacity { vec_capacity lent.new ≡ vec_capacity lent.old }
{
    let empty = Star::empty(*lent.allocator(), place, board.dim());
    let star = swap_star(board, pass, place, empty);
    let at = place_among(lent, place);
    lent.insert(at, star).unwrap();
}
