// Whether any two facets are joined by a chain over ridges.
ghost use Rattle.std.specs.Prelude.{◌≡◌, ◌||◌, ℕ, List, [], ◌∷◌, IfOk, OnOk, map, MatchOption, nat_eq};
ghost use Rattle.std.specs.List.{AllByRecursion};
ghost use Rattle.std.specs.List.Sorted.{IsStrictlySortedBy};
ghost use Rattle.std.specs.Cmp.Lexicographic.{pointwise};
ghost use Rattle.std.specs.BTreeSet.{contains};
ghost use Rattle.complex_core.specs.Labels.{IsFace, face_cmp};
ghost use Rattle.pseudo_test.specs.Chains.{StronglyConnected, IsApart};
ghost use Rattle.pseudo_test.specs.Incidences.{incidence_cmp, facet_of, run_of};
ghost use Rattle.pseudo_test.specs.Spreads.{Moved, over_new};

use crate::incidences::{all_incidences, over};
use complex_core::{Complex, Face};
use std::alloc::{AllocError, Global};
use std::collections::BTreeSet;

/// Two facets that no chain joins: the least facet, and the least one that isn't joined to it.
#[derive(Clone, Copy, PartialEq, Eq)]
pub struct Apart {
    pub first: Face,
    pub other: Face,
}

/// The least facet and the least one that no chain joins to it. `None` exactly where the
/// complex is strongly connected.
///
/// Each ridge is looked at once.
pub fn strong(alloc: Global, complex: &Complex) -> Result<Option<Apart>, AllocError>
    ensures { IfOk result (λ r. MatchOption r (StronglyConnected complex.now.facets) (λ a. IsApart complex.now.facets a.first a.other)) }
{
    let incidences = all_incidences(alloc, complex)?;
    let facets = complex.facets();
    let first = facets[0];
    let mut reached = Vec::from_slice(alloc, &facets[..1])?;
    let mut rest = all_of(alloc, &facets[1..])?;
    let mut seen = BTreeSet::new(alloc);
    let mut next = 0;
    while next < reached.len() {
        let facet = reached[next];
        for label in facet.labels().as_slice() {
            let ridge = facet.without(*label);
            spread(&incidences, ridge, &mut seen, &mut rest, &mut reached)?;
        }
        next += 1;
    }
    match rest.first() {
        Some(other) => Ok(Some(Apart {
            first,
            other: *other,
        })),
        None => Ok(None),
    }
}

// The set of these facets.
fn all_of(alloc: Global, facets: &[Face]) -> Result<BTreeSet<Face>, AllocError>
    requires { IsStrictlySortedBy face_cmp facets.now }
    ensures { IfOk result (λ s. s.keys ≡ facets.now) }
{
    let mut all = BTreeSet::new(alloc);
    for facet in facets {
        all.insert(*facet)?;
    }
    Ok(all)
}

// Reaches the facets over a ridge, unless the ridge was seen before.
fn spread(
    incidences: &[(Face, u16)],
    ridge: Face,
    seen: &mut BTreeSet<Face>,
    rest: &mut BTreeSet<Face>,
    reached: &mut Vec<Face>,
) -> Result<(), AllocError>
    requires rising { IsStrictlySortedBy incidence_cmp incidences.now }
    requires faces { AllByRecursion IsFace (map facet_of (run_of incidences.now ridge)) }
    ensures moved { OnOk result (Moved (over_new (contains face_cmp seen.old ridge) (map facet_of (run_of incidences.now ridge))) reached.old.items rest.old.keys reached.new.items rest.new.keys) }
    ensures seen { OnOk result ((r : List ℕ) → contains face_cmp seen.new r ≡ (contains face_cmp seen.old r || pointwise nat_eq ridge r)) }
{
    if !seen.insert(ridge)? {
        return Ok(());
    }
    reach(over(incidences, &ridge), rest, reached)?;
    Ok(())
}

// Takes those facets of a run that are left to those that were reached.
fn reach(
    run: &[(Face, u16)],
    rest: &mut BTreeSet<Face>,
    reached: &mut Vec<Face>,
) -> Result<(), AllocError>
    requires { AllByRecursion IsFace (map facet_of run.now) }
    ensures { OnOk result (Moved (map facet_of run.now) reached.old.items rest.old.keys reached.new.items rest.new.keys) }
{
    for incidence in run {
        reach_one(incidence, rest, reached)?;
    }
    Ok(())
}

// Takes a facet to those that were reached, if it is left.
fn reach_one(
    incidence: &(Face, u16),
    rest: &mut BTreeSet<Face>,
    reached: &mut Vec<Face>,
) -> Result<(), AllocError>
    requires { IsFace (facet_of incidence.now) }
    ensures { OnOk result (Moved (facet_of incidence.now ∷ []) reached.old.items rest.old.keys reached.new.items rest.new.keys) }
{
    let Some(facet) = incidence.0.with(incidence.1) else {
        unreachable!();
    };
    if !rest.remove(&facet) {
        return Ok(());
    }
    reached.push(facet)?;
    Ok(())
}
