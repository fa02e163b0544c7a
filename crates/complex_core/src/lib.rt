//! Faces, which are small sets of labels, and pure simplicial complexes as rising lists of
//! their facets.
#![tactic(auto)]

mod complex;
mod face;
mod labels;
mod link;
mod map;
mod relabel;
mod subset;

pub use complex::{Complex, ComplexFault, put_all_in, take_all_out};
pub use face::{Face, FaceFault};
pub use labels::Labels;
pub use map::{MapFault, VertexMap};
pub use relabel::image_of;
