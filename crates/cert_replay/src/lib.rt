//! Judges certificates: replays the flips of a certificate from a complex, and says what they
//! show of it, or which flip isn't legal.
//!
//! The facets stand in one ordered set, with a row for each facet and each of its labels, so that
//! a flip finds the facets over A and over B by order.
#![tactic(auto)]

mod facet_set;
mod judge;
mod laws;
mod outcome;

pub use judge::{Replayed, replay};
pub use laws::answer_law;
