//! Descent by bistellar flips of an index above half the dimension: definitions and laws, and no
//! code.
//!
//! A flip of index i changes the number of facets by d - 2i in dimension d, so these flips make it
//! fall. The flips are those of Björner and Lutz (Experimental Mathematics, 2000), after Pachner's
//! moves.
#![tactic(auto)]

mod laws;

pub use laws::{candidates_law, cycle_law, descent_law, reducing_law};
