//! Stars: the facets of a complex seen from its vertices, with flips judged and made on the stars of
//! the flip's own labels.
//!
//! The star of a vertex is the list of the facets that contain it. Which rule a bistellar flip
//! (A, B) breaks is seen in the star of one label of A and the star of one label of B, and a flip
//! changes no star but those of A and B. So flips need no pass over the whole complex. They are those
//! of Björner and Lutz, "Simplicial manifolds, bistellar flips and a 16-vertex triangulation of the
//! Poincaré homology 3-sphere" (2000), after Pachner's moves.
#![tactic(auto)]

mod build;
mod candidate_lists;
mod laws;
mod linked;
mod local;
mod map;
mod over;
mod rows;
mod star;

pub use laws::{flips_seen_here, undo_law};
pub use linked::flip_at;
pub use local::{flip_here, has_labels, has_star, local_check, undo_here};
pub use map::StarMap;
pub use over::Over;
pub use star::Star;
