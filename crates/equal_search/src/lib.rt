//! Searches for flips that lead one complex to another.
//!
//! [`search_equal`] makes the same descents and rounds on two complexes in turn, and compares where they
//! lead, until a map takes the one end to the other or all rounds of the plan are made. Where there is a
//! map, one list of flips leads from the first complex to an image of the second: the flips of the
//! first, and behind them those of the second turned round and carried over the map.
#![tactic(auto)]

mod pair;
mod search;

pub use search::{EqualFound, search_equal};
