// Whether each ridge lies in two facets, or in at most two.
ghost use Rattle.std.specs.Prelude.{◌≡◌, ◌↔◌, IfOk, IsTrue, length, MatchOption};
ghost use Rattle.pseudo_test.specs.Ridges.{Closed, Thin, IsLeastOther};
ghost use Rattle.pseudo_test.specs.Incidences.{IsRun};

use crate::incidences::{all_incidences, over};
use complex_core::{Complex, Face};
use std::alloc::{AllocError, Global};

/// A ridge, which is a facet less one of its labels, and in how many facets it lies.
#[derive(Clone, Copy, PartialEq, Eq)]
pub struct Ridge {
    pub face: Face,
    pub count: u32,
}

/// The least ridge whose count isn't two. `None` exactly where the complex is closed.
pub fn closed(alloc: Global, complex: &Complex) -> Result<Option<Ridge>, AllocError>
    ensures { IfOk result (λ r. MatchOption r (Closed complex.now.facets) (λ r. IsLeastOther complex.now.facets r.face r.count)) }
{
    let incidences = all_incidences(alloc, complex)?;
    for incidence in &incidences {
        let count = count(over(&incidences, &incidence.0));
        if count != 2 {
            return Ok(Some(Ridge {
                face: incidence.0,
                count,
            }));
        }
    }
    Ok(None)
}

/// Whether each ridge lies in at most two facets.
pub fn thin(alloc: Global, complex: &Complex) -> Result<bool, AllocError>
    ensures { IfOk result (λ t. IsTrue t ↔ Thin complex.now.facets) }
{
    let incidences = all_incidences(alloc, complex)?;
    for incidence in &incidences {
        if over(&incidences, &incidence.0).len() > 2 {
            return Ok(false);
        }
    }
    Ok(true)
}

// How many incidences a ridge has. Their labels differ, so there are at most 65,536.
fn count(run: &[(Face, u16)]) -> u32
    requires { IsRun run.now }
    ensures { result ≡ length run.now }
{
    match run.last() {
        // The last label is the greatest, and bounds the number.
        Some((_, label)) => {
            let _greatest = *label;
            run.len() as u32
        }
        None => 0,
    }
}
