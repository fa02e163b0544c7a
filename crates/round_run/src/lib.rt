//! Rounds, in which workers flip one complex at once, and searches, which make rounds and descents.
//!
//! [`run_round`] opens a board on a complex, lets each worker make its tries in threads of their own,
//! and closes the board: however the steps of the workers interleave, the entries of the round are one
//! legal history from the complex to the one that it ends with. [`search_sphere`] makes descents and
//! rounds in turn, until a descent ends in the boundary of a simplex or all rounds of the plan are made,
//! and reports all of them.
#![tactic(auto)]

mod record;
mod report;
mod results;
mod round;
mod running;
mod search;
mod starting;
mod steps;

pub use record::RoundRecord;
pub use report::Report;
pub use round::run_round;
pub use search::{SphereFound, search_sphere};
