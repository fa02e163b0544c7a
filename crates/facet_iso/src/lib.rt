//! Isomorphisms of complexes: the least map of labels that takes one complex to another.
#![tactic(auto)]

mod degrees;
mod laws;
mod least_map;
mod search;
mod trial;
mod walk;

pub use laws::{one_least_map, ordered_image_determines};
pub use least_map::{IsoFault, isomorphism};
