//! The job `replay`: what a certificate comes to. It touches nothing but the bytes that it is lent.
#![tactic(auto)]

mod input;
mod job;
mod law;
mod text;

pub use job::{MOST_BYTES, replay_input};
pub use law::replay_law;
