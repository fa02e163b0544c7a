//! What a worker does with the stars that it holds on a board: it takes them out of their slots, makes
//! flips on them, takes flips back or leaves them after a commit, and gives its places back with their
//! stars; and the gate that can end a try.
//!
//! A [`Hold`] remembers, in memory that is taken once, which flips a try made, and has the stars of the
//! places that it holds. [`claim_labels`] claims the labels of a flip, [`make_flip`] makes it on their
//! stars, and [`fetch`] claims the journal for a commit. However a try ends, it leaves nothing behind:
//! without a commit [`roll_back`] takes its flips back, the last first, and [`give_up`] gives all places
//! back.
#![tactic(auto)]

mod claiming;
mod ending;
mod flipping;
mod gate;
mod hold;
mod lending;
mod point;
mod stopped;

pub use claiming::{ask, claim_labels};
pub use ending::{fetch, give_up, roll_back};
pub use flipping::make_flip;
pub use gate::{Gate, OpenGate};
pub use hold::Hold;
pub use lending::place_among;
pub use point::{Point, Step};
pub use stopped::Stopped;
