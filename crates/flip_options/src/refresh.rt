// Looks again at the faces of which a flip may have changed the candidates.
ghost use Rattle.std.specs.Prelude.{◌≡◌, ℕ, ◌+◌, ◌<◌, ◌≤◌, List, length, OnOk};
ghost use Rattle.complex_core.specs.Complexes.{ComplexView};
ghost use Rattle.complex_core.specs.Subsets.{IsSubset};
ghost use Rattle.stars.specs.StarViews.{IsStarListOf};
ghost use Rattle.flip_options.specs.Candidates.{Refreshed, IsPart, IsLinked, MeetsSide};

use crate::candidates::{Candidates, refresh};
use crate::smallest_star::near;
use complex_core::Face;
use stars::StarMap;
use std::alloc::{AllocError, Global};

/// How many labels A has at most, in a flip of an index above d/2.
pub(crate) fn most_labels(stars: &StarMap) -> usize
    requires { (k : ComplexView) × IsStarListOf k stars.now }
    ensures { (k : ComplexView) → IsStarListOf k stars.now → (result + result ≤ k.dim + 1) × (k.dim ≤ result + result) × (result ≤ 3) }
{
    (stars.dim() as usize + 1) / 2
}

// Looks again at the parts of a set that have so many labels.
fn refresh_sized(
    alloc: Global,
    candidates: &mut Candidates,
    stars: &StarMap,
    set: &Face,
    size: usize,
) -> Result<(), AllocError>
    requires { (k : ComplexView) × IsStarListOf k stars.now }
    ensures { OnOk result (Refreshed stars.now candidates.old candidates.new (λ k a. IsSubset set.now size a)) }
{
    for part in &set.subsets(alloc, size)? {
        refresh(candidates, stars, part)?;
    }
    Ok(())
}

/// Looks again at all parts of a set that may be the A of a candidate.
pub(crate) fn refresh_parts(
    alloc: Global,
    candidates: &mut Candidates,
    stars: &StarMap,
    set: &Face,
) -> Result<(), AllocError>
    requires { (k : ComplexView) × IsStarListOf k stars.now }
    ensures { OnOk result (Refreshed stars.now candidates.old candidates.new (λ k a. IsPart k set.now a)) }
{
    for size in 1..most_labels(stars) + 1 {
        refresh_sized(alloc, candidates, stars, set, size)?;
    }
    Ok(())
}

// Looks again at each A that is linked with this B: there are facets A with B less one label.
fn refresh_partners(
    candidates: &mut Candidates,
    stars: &StarMap,
    other: &Face,
) -> Result<(), AllocError>
    requires stars { (k : ComplexView) × IsStarListOf k stars.now }
    requires some { 2 ≤ length other.now }
    ensures { OnOk result (Refreshed stars.now candidates.old candidates.new (λ k a. IsLinked k a other.now)) }
{
    let rest = other.without(other.label(0));
    for facet in near(stars, &rest) {
        if facet.holds(&rest) {
            refresh(candidates, stars, &facet.less(other))?;
        }
    }
    Ok(())
}

/// Looks again at each A that is linked with a side of a flip as its B. A flip of an index above d/2
/// has more than half of the labels in B, so that a side with fewer is no such B.
pub(crate) fn refresh_side(
    candidates: &mut Candidates,
    stars: &StarMap,
    side: &Face,
) -> Result<(), AllocError>
    requires { (k : ComplexView) × IsStarListOf k stars.now }
    ensures { OnOk result (Refreshed stars.now candidates.old candidates.new (λ k a. MeetsSide k side.now a)) }
{
    if 2 * side.len() <= stars.dim() as usize + 2 {
        return Ok(());
    }
    refresh_partners(candidates, stars, side)
}
