// Whether a complex is orientable, with signs or a contradiction.
ghost use Rattle.std.specs.Prelude.{◌≡◌, IfOk, OnOk, map, List, ℕ};
ghost use Rattle.std.specs.BTreeMap.{get};
ghost use Rattle.complex_core.specs.Labels.{face_cmp};
ghost use Rattle.orient_test.specs.Signs.{value, chosen};
ghost use Rattle.orient_test.specs.Spreads.{either, given};
ghost use Rattle.orient_test.specs.Answers.{IsShown, Decides};

use crate::search::{Reached, Spread, signs_from};
use complex_core::{Complex, Face};
use pseudo_test::all_incidences;
use std::alloc::{AllocError, Global};
use std::collections::BTreeMap;

/// Whether the facets of a complex have signs that agree.
#[derive(Drop)]
pub enum Orientation {
    /// One sign for each facet, in order, each 1 or -1: at each ridge that lies in two facets
    /// the two induced signs add up to 0.
    Oriented(Vec<i8>),
    /// A closed chain of facets, the first of which is the last one too, along which the signs
    /// that neighbours force on one another contradict each other.
    Clash(Vec<Face>),
}

/// Orients a complex, or shows why it can't be oriented.
///
/// Each facet's neighbours are looked at once, so this takes as long as to sort the ridges.
pub fn orient(alloc: Global, complex: &Complex) -> Result<Orientation, AllocError>
    ensures shown { IfOk result (IsShown complex.now.facets) }
    ensures decides { IfOk result (Decides complex.now.facets) }
{
    let incidences = all_incidences(alloc, complex)?;
    let mut signs = BTreeMap::new(alloc);
    for facet in complex.facets() {
        if signs.contains_key(facet) {
            continue;
        }
        match signs_from(alloc, complex, &incidences, *facet)? {
            Spread::Signed(reached) => sign_all(&mut signs, &reached)?,
            Spread::Clash(chain) => return Ok(Orientation::Clash(chain)),
        }
    }
    Ok(Orientation::Oriented(in_order(alloc, complex.facets(), &signs)?))
}

// Gives each facet that was reached its sign.
fn sign_all(signs: &mut BTreeMap<Face, bool>, reached: &[Reached]) -> Result<(), AllocError>
    ensures { OnOk result ((f : List ℕ) → get face_cmp signs.new f ≡ either (given reached.now f) (get face_cmp signs.old f)) }
{
    for one in reached {
        signs.insert(one.facet, one.turned)?;
    }
    Ok(())
}

// The signs in the order of the facets, as numbers.
fn in_order(
    alloc: Global,
    facets: &[Face],
    signs: &BTreeMap<Face, bool>,
) -> Result<Vec<i8>, AllocError>
    ensures { IfOk result (λ v. v.items ≡ map (λ f. value (chosen (get face_cmp signs.now f))) facets.now) }
{
    facets
        .iter()
        .map(|facet| number(signs, facet))
        .collect(alloc)
}

// The sign of a facet as a number.
fn number(signs: &BTreeMap<Face, bool>, facet: &Face) -> i8
    ensures { result ≡ value (chosen (get face_cmp signs.now facet.now)) }
{
    match signs.get(facet).copied() {
        Some(true) => -1,
        Some(false) => 1,
        None => 1,
    }
}
