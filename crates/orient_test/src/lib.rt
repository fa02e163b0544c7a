//! Orientations: signs of facets that agree at each ridge of two facets, or a closed chain of
//! facets that shows that there are none.
#![tactic(auto)]

mod chain;
mod orientation;
mod search;

pub use orientation::{Orientation, orient};
