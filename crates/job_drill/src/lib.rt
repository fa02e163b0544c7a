//! The job `drill`: a complex of the generator, and what a search by one worker finds of it. It takes no input, and touches the
//! gates and the threads that it is lent.
#![tactic(auto)]

mod job;
mod law;
mod text;

pub use job::drill;
pub use law::drill_law;
