//! The plan of a search by simulated annealing: its numbers with their limits, the phases of a round,
//! the random words and the places of its tries, and the bistellar flips that a try proposes.
//!
//! Flips and the strategy are those of Björner and Lutz, "Simplicial manifolds, bistellar flips and a
//! 16-vertex triangulation of the Poincaré homology 3-sphere" (2000). The words are those of O'Neill,
//! "PCG: a family of simple fast space-efficient statistically good algorithms for random number
//! generation" (2014).
#![tactic(auto)]

mod gather;
mod grow;
mod listed;
mod nearest;
mod page;
mod places;
mod plan;
mod propose;
mod words;

pub use places::{free, live};
pub use plan::{Phase, Plan, PlanFault};
pub use propose::{allowed, find_candidates, only_b_can_break, proposal, turns_follow};
pub use words::{draw, draws_follow};
