//! The job `trace`: claims, flips, rollbacks and commits of workers, run on the core one after another. It touches nothing but
//! the bytes that it is lent.
#![tactic(auto)]

mod input;
mod job;
mod law;
mod place;
mod run;
mod text;

pub use job::{MOST_BYTES, trace};
pub use law::trace_law;
