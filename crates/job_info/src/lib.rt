//! The job `info`: what people ask first of a list of facets. It touches nothing but the bytes that it is lent.
#![tactic(auto)]

mod describe;
mod job;
mod law;

pub use job::{MOST_BYTES, info};
pub use law::info_law;
