//! Bistellar flips of pure simplicial complexes: when a flip is legal, what it makes, which flip
//! leads back, and journals of flips.
//!
//! A flip (A, B) is one of Pachner's moves. The rules are those of Björner and Lutz, "Simplicial
//! manifolds, bistellar flips and a 16-vertex triangulation of the Poincaré homology 3-sphere"
//! (2000).
#![tactic(auto)]

mod boundary;
mod few_faces;
mod flip;
mod journal;
mod laws;
mod link;

pub use boundary::is_simplex_boundary;
pub use few_faces::FewFaces;
pub use flip::{Flip, FlipFault, Illegal, apply, check, check_near, index, inverse};
pub use journal::{Entry, Flips, Journal};
pub use laws::{exchange_law, journal_law, replay_law};
