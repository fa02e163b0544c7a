// Few facets that have all those over a set: those of its smallest star.
ghost use Rattle.std.specs.Prelude.{◌≡◌, ◌<◌, ◌≤◌, nat_eq, length, ℕ, MatchOption};
ghost use Rattle.std.specs.List.Sorted.{IsStrictlySortedBy};
ghost use Rattle.complex_core.specs.Labels.{face_cmp};
ghost use Rattle.complex_core.specs.Complexes.{ComplexView, over};
ghost use Rattle.star_laws.specs.Stars.{star};
ghost use Rattle.stars.specs.StarViews.{IsStarListOf};
ghost use Rattle.flip_options.specs.Candidates.{IsJoin, TooMany};

use complex_core::Face;
use stars::StarMap;

// The facets that contain a label: none where the label is no place.
fn rows_of(stars: &StarMap, label: u16) -> &[Face]
    ensures rows { (k : ComplexView) → IsStarListOf k stars.now → result.now ≡ star k.facets label }
    ensures rising { IsStrictlySortedBy face_cmp result.now }
{
    if label == 0 || label > stars.places() {
        return &[];
    }
    stars.star(label).rows()
}

/// A list of facets that has all those that contain a set which isn't empty. It is the star of that
/// label of the set whose star is the least.
pub(crate) fn near<'a>(stars: &'a StarMap, set: &Face) -> &'a [Face]
    ensures over { (k : ComplexView) → IsStarListOf k stars.now → 0 < length set.now →
        over result.now set.now ≡ over k.facets set.now }
    ensures rising { IsStrictlySortedBy face_cmp result.now }
{
    let labels = set.labels();
    let Some((first, others)) = labels.split_first() else {
        return &[];
    };
    let mut least = rows_of(stars, *first);
    for label in others {
        let rows = rows_of(stars, *label);
        if rows.len() < least.len() {
            least = rows;
        }
    }
    least
}

/// Whether exactly so many rows contain a set.
pub(crate) fn are_over(rows: &[Face], set: &Face, count: usize) -> bool
    ensures { result ≡ nat_eq (length (over rows.now set.now)) count }
{
    let mut found = 0;
    for row in rows {
        if row.holds(set) {
            if found == count {
                return false;
            }
            found += 1;
        }
    }
    found == count
}

/// The labels of a set and of the rows that contain it. `None` exactly where these are more than so
/// many.
pub(crate) fn labels_over(rows: &[Face], set: &Face, most: usize) -> Option<Face>
    requires { most ≤ 8 }
    ensures labels { MatchOption result (TooMany rows.now set.now most) (IsJoin rows.now set.now) }
{
    let mut all = *set;
    let _count = set.len();
    for row in rows {
        if row.holds(set) {
            match all.union(row) {
                Some(more) => all = more,
                None => return None,
            }
            if all.len() > most {
                return None;
            }
        }
    }
    Some(all)
}
