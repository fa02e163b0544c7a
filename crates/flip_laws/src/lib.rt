//! What legal flips keep: the Euler characteristic, in how many facets ridges lie, chains of
//! facets, and orientations. So a complex that lacks a fact of a sphere is never led to one.
#![tactic(auto)]

mod difference;
mod keeping;
mod obstacle;

pub use difference::{Differ, cannot_equal, difference_law};
pub use keeping::{flip_keeping, keeping_law};
pub use obstacle::{Obstacle, cannot_reach, obstacle_law};
