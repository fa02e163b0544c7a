// Signs that spread from a facet over the ridges.
ghost use Rattle.std.specs.Prelude.{◌≡◌, ◌<◌, ◌==◌, [], ◌∷◌, false, IfOk, OnOk, length, MatchOption, IsTrue, true, if◌then◌else◌, slice_index_or};
ghost use Rattle.std.specs.BTreeMap.{get};
ghost use Rattle.complex_core.specs.Labels.{has, face_cmp};
ghost use Rattle.complex_core.specs.Complexes.{is_facet};
ghost use Rattle.pseudo_test.specs.Incidences.{incidences as incidences_in};
ghost use Rattle.orient_test.specs.Signs.{position};
ghost use Rattle.orient_test.specs.Spreads.{at, IsNeighbour, NoNeighbour, IsTree, IsPlaced, IsCrossed, Contradicts, IsSpread};

use crate::chain::closed_chain;
use complex_core::{Complex, Face};
use pseudo_test::over;
use std::alloc::{AllocError, Global};
use std::collections::BTreeMap;

/// A facet that was reached: whether its sign is another one than that of the first facet, and
/// the position of the facet from which it was reached.
#[derive(Clone, Copy)]
pub struct Reached {
    pub facet: Face,
    pub turned: bool,
    pub from: usize,
}

// The other facet over a ridge of two facets, and whether the sign turns there.
#[derive(Clone, Copy)]
struct Behind {
    facet: Face,
    turns: bool,
}

/// What spreads from a facet over ridges of two facets: signs, or a closed chain along which
/// they contradict each other.
pub enum Spread {
    Signed(Vec<Reached>),
    Clash(Vec<Face>),
}

// The signs that a facet's sign forces on those that walks reach from it.
pub(crate) fn signs_from(
    alloc: Global,
    complex: &Complex,
    incidences: &[(Face, u16)],
    start: Face,
) -> Result<Spread, AllocError>
    requires incidences { incidences.now ≡ incidences_in complex.now.facets }
    requires start { is_facet complex.now.facets start ≡ true }
    ensures { IfOk result (IsSpread complex.now.facets start) }
{
    let mut reached = Vec::new(alloc);
    let mut places = BTreeMap::new(alloc);
    begin(start, &mut places, &mut reached)?;
    let mut next = 0;
    while next < reached.len() {
        let facet = reached[next].facet;
        for label in facet.labels().as_slice() {
            match cross(complex, incidences, *label, next, &mut places, &mut reached)? {
                Some(position) => {
                    return Ok(Spread::Clash(closed_chain(alloc, &reached, next, position)?));
                }
                None => {}
            }
        }
        next += 1;
    }
    Ok(Spread::Signed(reached))
}

// The first facet is reached.
fn begin(
    start: Face,
    places: &mut BTreeMap<Face, usize>,
    reached: &mut Vec<Reached>,
) -> Result<(), AllocError>
    requires places { places.old.entries ≡ [] }
    requires reached { reached.old.items ≡ [] }
    ensures reached { OnOk result (reached.new.items ≡ (record { facet = start; turned = false; from = 0 }) ∷ []) }
    ensures placed { OnOk result (IsPlaced reached.new.items (get face_cmp places.new)) }
{
    places.insert(start, 0)?;
    reached.push(Reached {
        facet: start,
        turned: false,
        from: 0,
    })?;
    Ok(())
}

// Steps over the ridge without a label, and gives the facet behind it the forced sign. If that
// one has the other sign already, says its position.
fn cross(
    complex: &Complex,
    incidences: &[(Face, u16)],
    label: u16,
    next: usize,
    places: &mut BTreeMap<Face, usize>,
    reached: &mut Vec<Reached>,
) -> Result<Option<usize>, AllocError>
    requires incidences { incidences.now ≡ incidences_in complex.now.facets }
    requires next { next < length reached.old.items }
    requires label { has (at reached.old.items next).facet label ≡ true }
    requires tree { IsTree complex.now.facets reached.old.items }
    requires placed { IsPlaced reached.old.items (get face_cmp places.old) }
    ensures placed { OnOk result (IsPlaced reached.new.items (get face_cmp places.new)) }
    ensures crossed { IfOk result (λ r. MatchOption r (IsCrossed complex.now.facets reached.old.items reached.new.items next label)
        (λ position. (position < length reached.old.items) × (reached.new.items ≡ reached.old.items) × Contradicts complex.now.facets reached.old.items next position)) }
{
    let Reached { facet, turned, .. } = reached[next];
    let Some(other) = neighbour(complex, incidences, &facet, label) else {
        return Ok(None);
    };
    let forced = turned != other.turns;
    match places.get(&other.facet).copied() {
        Some(position) => {
            if reached[position].turned == forced {
                return Ok(None);
            }
            Ok(Some(position))
        }
        None => {
            places.insert(other.facet, reached.len())?;
            reached.push(Reached {
                facet: other.facet,
                turned: forced,
                from: next,
            })?;
            Ok(None)
        }
    }
}

// The other facet over the ridge without a label, where that lies in two facets, and whether
// the sign turns there.
fn neighbour(
    complex: &Complex,
    incidences: &[(Face, u16)],
    facet: &Face,
    label: u16,
) -> Option<Behind>
    requires incidences { incidences.now ≡ incidences_in complex.now.facets }
    requires facet { is_facet complex.now.facets facet.now ≡ true }
    requires label { has facet.now label ≡ true }
    ensures { MatchOption result (NoNeighbour complex.now.facets facet.now label) (λ n. IsNeighbour complex.now.facets facet.now label n.facet n.turns) }
{
    // Facets are rising lists of labels: `facets` says so.
    let _ = complex.facets();
    let ridge = facet.without(label);
    let run = over(incidences, &ridge);
    if run.len() != 2 {
        return None;
    }
    let taken = other_label(run, label);
    match ridge.with(taken) {
        Some(other) => {
            let turns = place_of(facet, label) % 2 == place_of(&other, taken) % 2;
            Some(Behind {
                facet: other,
                turns,
            })
        }
        None => None,
    }
}

// The label of the first of two incidences that doesn't have this one.
fn other_label(run: &[(Face, u16)], label: u16) -> u16
    requires { length run.now ≡ 2 }
    ensures { result ≡ (if (slice_index_or run.now 0 ([], 0)).1 == label then (slice_index_or run.now 1 ([], 0)).1 else (slice_index_or run.now 0 ([], 0)).1) }
{
    if run[0].1 == label {
        run[1].1
    } else {
        run[0].1
    }
}

// The position of a label: how many labels are less.
fn place_of(face: &Face, label: u16) -> usize
    ensures { result ≡ position face.now label }
{
    let labels = face.labels();
    labels.iter().filter(|other| **other < label).count()
}
