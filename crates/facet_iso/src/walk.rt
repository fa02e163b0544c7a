// A walk over ridges from the least facet of a complex to all others: the order in which a map of its labels spreads.
ghost use Rattle.std.specs.Prelude.{◌≡◌, ◌<◌, ◌||◌, ◌∷◌, true, false, ℕ, List, [], IfOk, OnOk, length, map, nat_eq};
ghost use Rattle.std.proofs.Common.{get_or};
ghost use Rattle.std.specs.List.{AllByRecursion};
ghost use Rattle.std.specs.List.Sorted.{IsStrictlySortedBy};
ghost use Rattle.std.specs.Cmp.Lexicographic.{pointwise};
ghost use Rattle.std.specs.BTreeSet.{contains};
ghost use Rattle.complex_core.specs.Labels.{IsFace, face_cmp, has, without};
ghost use Rattle.complex_core.specs.Complexes.{is_facet};
ghost use Rattle.pseudo_test.specs.Chains.{StronglyConnected};
ghost use Rattle.pseudo_test.specs.Incidences.{facet_of, incidence_cmp, run_of};
ghost use Rattle.pseudo_test.specs.Spreads.{Moved, over_new};
ghost use Rattle.facet_iso.specs.Walks.{Apart, IsWalk, Leads};

use complex_core::{Complex, Face};
use pseudo_test::{all_incidences, over};
use std::alloc::{AllocError, Global};
use std::collections::BTreeSet;

/// A step of a walk: from a facet that was reached over a ridge to the next facet.
#[derive(Clone, Copy)]
pub(crate) struct Step {
    /// The position, from 0, of the facet in the order in which they are reached.
    pub from: usize,
    /// The label of that facet that the ridge lacks.
    pub left: u16,
    /// The label that makes the next facet of the ridge.
    pub taken: u16,
}

// What was reached by the steps so far.
#[derive(Drop)]
struct Walk {
    seen: BTreeSet<Face>,
    rest: BTreeSet<Face>,
    reached: Vec<Face>,
    steps: Vec<Step>,
}

/// A walk from the least facet that reaches each other facet by one step.
///
/// Each ridge is looked at once, breadth first.
pub(crate) fn walk_over(alloc: Global, complex: &Complex) -> Result<Vec<Step>, AllocError>
    requires { StronglyConnected complex.now.facets }
    ensures { IfOk result (λ steps. IsWalk complex.now steps.items) }
{
    let incidences = all_incidences(alloc, complex)?;
    let facets = complex.facets();
    let mut walk = Walk {
        seen: BTreeSet::new(alloc),
        rest: all_of(alloc, &facets[1..])?,
        reached: Vec::from_slice(alloc, &facets[..1])?,
        steps: Vec::new(alloc),
    };
    let mut next = 0;
    while next < walk.reached.len() {
        let facet = walk.reached[next];
        for label in facet.labels().as_slice() {
            cross(&incidences, next, facet, *label, &mut walk)?;
        }
        next += 1;
    }
    Ok(walk.steps)
}

// The set of these facets.
fn all_of(alloc: Global, facets: &[Face]) -> Result<BTreeSet<Face>, AllocError>
    requires { IsStrictlySortedBy face_cmp facets.now }
    ensures { IfOk result (λ s. s.keys ≡ facets.now) }
{
    let mut all = BTreeSet::new(alloc);
    for facet in facets {
        all.insert(*facet)?;
    }
    Ok(all)
}

// Steps over the ridge of a facet without a label to the facets that are left, unless the ridge was seen before.
fn cross(
    incidences: &[(Face, u16)],
    from: usize,
    facet: Face,
    label: u16,
    walk: &mut Walk,
) -> Result<(), AllocError>
    requires rising { IsStrictlySortedBy incidence_cmp incidences.now }
    requires faces { AllByRecursion IsFace (map facet_of (run_of incidences.now (without facet label))) }
    requires apart { Apart walk.old.reached.items walk.old.rest.keys }
    requires from { from < length walk.old.reached.items }
    requires facet { facet ≡ get_or walk.old.reached.items from [] }
    requires label { has facet label ≡ true }
    requires leads { Leads walk.old.reached.items walk.old.steps.items }
    ensures moved { OnOk result (Moved (over_new (contains face_cmp walk.old.seen (without facet label)) (map facet_of (run_of incidences.now (without facet label)))) walk.old.reached.items walk.old.rest.keys walk.new.reached.items walk.new.rest.keys) }
    ensures seen { OnOk result ((r : List ℕ) → contains face_cmp walk.new.seen r ≡ (contains face_cmp walk.old.seen r || pointwise nat_eq (without facet label) r)) }
    ensures leads { OnOk result (Leads walk.new.reached.items walk.new.steps.items) }
{
    let ridge = facet.without(label);
    if !walk.seen.insert(ridge)? {
        return Ok(());
    }
    for incidence in over(incidences, &ridge) {
        reach(incidence, from, label, walk)?;
    }
    Ok(())
}

// Steps to a facet, if it is left.
fn reach(incidence: &(Face, u16), from: usize, left: u16, walk: &mut Walk) -> Result<(), AllocError>
    requires face { IsFace (facet_of incidence.now) }
    requires apart { Apart walk.old.reached.items walk.old.rest.keys }
    requires from { from < length walk.old.reached.items }
    requires left { has (get_or walk.old.reached.items from []) left ≡ true }
    requires ridge { incidence.now.0 ≡ without (get_or walk.old.reached.items from []) left }
    requires leads { Leads walk.old.reached.items walk.old.steps.items }
    ensures moved { OnOk result (Moved (facet_of incidence.now ∷ []) walk.old.reached.items walk.old.rest.keys walk.new.reached.items walk.new.rest.keys) }
    ensures seen { OnOk result (walk.new.seen ≡ walk.old.seen) }
    ensures leads { OnOk result (Leads walk.new.reached.items walk.new.steps.items) }
{
    let Some(facet) = incidence.0.with(incidence.1) else {
        unreachable!();
    };
    if !walk.rest.remove(&facet) {
        return Ok(());
    }
    walk.reached.push(facet)?;
    walk.steps.push(Step {
        from,
        left,
        taken: incidence.1,
    })?;
    Ok(())
}
