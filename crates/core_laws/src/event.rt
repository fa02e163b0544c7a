// Events, and what they are answered.
ghost use Rattle.std.specs.Prelude.{◌≡◌};
ghost use Rattle.core_laws.specs.Steps.{worker_of};
ghost use Rattle.core_laws.specs.declared.event.StepFault.TheVariants as fault;

use flip_rules::{Flip, Illegal};
use std::alloc::AllocError;

/// What a worker asks for. Place 0 is the journal's, and each other place is a label's.
#[derive(Clone, Copy, PartialEq, Eq)]
pub enum Event {
    Claim { worker: u16, place: u16 },
    Flip { worker: u16, flip: Flip },
    Rollback { worker: u16 },
    Commit { worker: u16 },
    Release { worker: u16, place: u16 },
}

impl Event {
    /// The worker that asks.
    pub fn worker(&self) -> u16
        ensures { result ≡ worker_of self.now }
    {
        match self {
            Event::Claim { worker, .. }
            | Event::Flip { worker, .. }
            | Event::Rollback { worker }
            | Event::Commit { worker }
            | Event::Release { worker, .. } => *worker,
        }
    }
}

/// The answer to an event that is made.
#[derive(Clone, Copy, Debug, PartialEq, Eq)]
pub enum Told {
    Claimed,
    AlreadyHeld,
    Flipped,
    /// How many pending flips were dropped.
    RolledBack(u32),
    /// The number of the new entry among the worker's, from 0.
    Committed(u32),
    Released,
}

/// Why an event is refused.
#[derive(Clone, Copy, Debug, PartialEq, Eq)]
pub enum Refused {
    NoWorker,
    NoPlace(u16),
    Busy { place: u16, owner: u16 },
    NotHeld(u16),
    Illegal(Illegal),
    NoFlips,
    /// How many flips are pending.
    Pending(u32),
}

/// Why a step isn't made.
#[derive(Clone, Copy, Debug, PartialEq, Eq)]
pub enum StepFault {
    Refused(Refused),
    Memory,
}

impl From<AllocError> for StepFault {
    ghost from_gives = { λ _ e. e ≡ fault.Memory };

    fn from(_: AllocError) -> Self {
        StepFault::Memory
    }
}

impl From<Refused> for StepFault {
    ghost from_gives = { λ reason e. e ≡ fault.Refused reason };

    fn from(reason: Refused) -> Self {
        StepFault::Refused(reason)
    }
}
