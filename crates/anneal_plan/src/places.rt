//! The places of a search: the labels of a dense complex, and the spare ones.

ghost use Rattle.std.specs.Prelude.{◌≡◌, ◌<◌, IfOk};
ghost use Rattle.std.specs.List.{AllByRecursion};
ghost use Rattle.complex_core.specs.Maps.{used};
ghost use Rattle.anneal_plan.specs.Places.{free_of};

use complex_core::Complex;
use std::alloc::{AllocError, Global};

/// The labels that are used when a round starts, rising. A try begins at one of them.
pub fn live(start: &Complex) -> Result<Vec<u16>, AllocError>
    ensures { IfOk result (λ v. v.items ≡ used start.now.facets) }
{
    start.labels()
}

/// The labels from 1 to `places` that aren't used when a round starts, rising. A flip of index 0
/// brings one of them in.
pub fn free(alloc: Global, start: &Complex, places: u16) -> Result<Vec<u16>, AllocError>
    ensures free { IfOk result (λ v. v.items ≡ free_of start.now.facets places) }
    ensures labels { IfOk result (λ v. AllByRecursion (λ x. 0 < x) v.items) }
{
    // Labels are from 1: `dim` says so.
    let _ = start.dim();
    let used = start.labels()?;
    let mut free = Vec::new(alloc);
    // How many used labels are below the place.
    let mut below = 0;
    for before in 0..places {
        let place = before + 1;
        if below < used.len() && used[below] == place {
            below += 1;
        } else {
            free.push(place)?;
        }
    }
    Ok(free)
}
