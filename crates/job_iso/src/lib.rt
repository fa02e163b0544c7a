//! The job `iso`: whether two complexes are the same up to the names of their labels. It touches nothing but the bytes that it is lent.
#![tactic(auto)]

mod job;
mod law;

pub use job::{MOST_BYTES, iso};
pub use law::iso_law;
