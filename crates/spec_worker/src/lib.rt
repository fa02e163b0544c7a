//! Workers: each makes the tries of a round with one pass of a board.
//!
//! In a try a worker draws a place, claims it, and proposes flips at the star that it holds there, one
//! turn after another. It claims the labels of each flip and makes it on their stars. Then it commits
//! the flips to the journal as one entry, or it rolls them back and leaves nothing behind.
//! [`Worker::attempt`] makes one try and [`Worker::run`] all tries of a plan.
#![tactic(auto)]

mod attempting;
mod turning;
mod worker;

pub use worker::Worker;
