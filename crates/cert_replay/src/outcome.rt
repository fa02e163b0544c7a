// What a list of flips comes to.
ghost use Rattle.std.specs.Prelude.{IfOk};
ghost use Rattle.cert_replay.specs.Outcomes.{ComesTo};

use crate::facet_set::FacetSet;
use complex_core::Complex;
use flip_rules::{Flip, FlipFault, Illegal};
use std::alloc::{AllocError, Global};

// What a list of flips comes to.
pub(crate) enum Outcome {
    // The flips are legal in order, and end in this complex.
    End(Complex),
    // The first illegal flip, counted from 1, and the first rule that it breaks.
    Bad(u64, Illegal),
}

// Makes the flips one after another.
#[tactic(auto, using(crate::proofs::Runs::first_illegal))]
pub(crate) fn replay_flips(
    alloc: Global,
    complex: &Complex,
    flips: &[Flip],
) -> Result<Outcome, AllocError>
    ensures { IfOk result (ComesTo complex.now flips.now) }
{
    let mut set = FacetSet::of(alloc, complex)?;
    for (position, flip) in flips.iter().enumerate() {
        match set.flipped(alloc, flip) {
            Ok(next) => set = next,
            Err(FlipFault::Illegal(illegal)) => return Ok(Outcome::Bad(
                position as u64 + 1,
                illegal,
            )),
            Err(FlipFault::Memory) => return Err(AllocError),
        }
    }
    Ok(Outcome::End(set.complex(alloc)?))
}
