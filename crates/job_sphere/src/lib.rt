//! The job `sphere`: can a complex be led to the boundary of a simplex. It touches the gates and the threads that it is lent.
#![tactic(auto)]

mod decision;
mod job;
mod law;
mod text;

pub use decision::{Decision, decide};
pub use job::{MOST_BYTES, sphere};
pub use law::sphere_law;
