//! The core of claims, flips, rollbacks and commits: its events, what they are answered, and laws. It has no state of its own;
//! `flip_world` runs it, and the steps of a board are events of it.
#![tactic(auto)]

mod event;
mod laws;

pub use event::{Event, Refused, StepFault, Told};
pub use laws::{rollbacks_leave_no_trace, runs_are_one, runs_are_serial, steps_are_one};
