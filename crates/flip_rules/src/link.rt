// The link condition of a flip, judged over lists of facets.
ghost use Rattle.std.specs.Prelude.{◌≡◌, ◌≤◌, ◌+◌, ◌||◌, not, length};
ghost use Rattle.std.specs.List.{list_all};
ghost use Rattle.std.specs.List.Sorted.{IsStrictlySortedBy};
ghost use Rattle.complex_core.specs.Labels.{holds, face_cmp};
ghost use Rattle.complex_core.specs.Complexes.{is_held, is_facet};
ghost use Rattle.flip_rules.specs.Flips.{link_is};

use crate::few_faces::FewFaces;
use complex_core::Face;

// Whether some of the facets contains the set.
pub(crate) fn is_held(facets: &[Face], set: &Face) -> bool
    ensures { result ≡ is_held facets.now set.now }
{
    facets.iter().any(|facet| facet.holds(set))
}

// Whether the set is one of the facets.
fn is_among(facets: &[Face], set: &Face) -> bool
    requires { IsStrictlySortedBy face_cmp facets.now }
    ensures { result ≡ is_facet facets.now set.now }
{
    facets.binary_search(set).is_ok()
}

// Whether each facet that contains the set is one of these sides.
pub(crate) fn are_sides(facets: &[Face], set: &Face, sides: &[Face]) -> bool
    ensures { result ≡ list_all (λ f. not (holds f set.now) || is_facet sides.now f) facets.now }
{
    facets
        .iter()
        .all(|facet| !facet.holds(set) || sides.contains(facet))
}

// Whether each of these sides is a facet.
pub(crate) fn have_sides(facets: &[Face], sides: &[Face]) -> bool
    requires { IsStrictlySortedBy face_cmp facets.now }
    ensures { result ≡ list_all (λ s. is_facet facets.now s) sides.now }
{
    sides.iter().all(|side| is_among(facets, side))
}

// Whether the facets that contain the first set are exactly its sides with the second.
pub(crate) fn is_link(facets: &[Face], first: &Face, second: &Face) -> bool
    requires few { length first.now + length second.now ≤ 8 }
    requires rising { IsStrictlySortedBy face_cmp facets.now }
    ensures { result ≡ link_is facets.now first.now second.now }
{
    let sides = FewFaces::join_boundary(first, second);
    have_sides(facets, sides.as_slice()) && are_sides(facets, first, sides.as_slice())
}
