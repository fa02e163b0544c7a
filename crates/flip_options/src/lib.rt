//! Candidates for a descent by bistellar flips, kept up to date flip by flip, and the descent.
//!
//! A candidate is a legal flip of an index above d/2, so that it leaves fewer facets. The best one has
//! the greatest index, and among those of one index the least A. The flips are those of Björner and
//! Lutz, "Simplicial manifolds, bistellar flips and a 16-vertex triangulation of the Poincaré homology
//! 3-sphere" (2000), after Pachner's moves.
#![tactic(auto)]

mod candidates;
mod descended;
mod descent;
mod first_look;
mod laws;
mod options;
mod partner;
mod refresh;
mod smallest_star;

pub use descended::Descended;
pub use descent::descend;
pub use laws::change_law;
pub use options::Options;
