//! The job `equiv`: can one complex be led to another, up to the names of the labels. It touches the gates and the threads that it is
//! lent.
#![tactic(auto)]

mod job;
mod law;
mod text;

pub use job::{MOST_BYTES, equiv};
pub use law::equiv_law;
