//! The job `manifold`: is the link of each vertex of a complex a sphere. It touches the gates and the threads that it is lent.
#![tactic(auto)]

mod job;
mod law;
mod text;

pub use job::{MOST_BYTES, manifold};
pub use law::manifold_law;
