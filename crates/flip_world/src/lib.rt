//! A world: the core of claims, flips, rollbacks and commits as a state machine over events.
#![tactic(auto)]

mod draft;
mod judge;
mod world;

pub use core_laws::{Event, Refused, StepFault, Told};
pub use world::World;
