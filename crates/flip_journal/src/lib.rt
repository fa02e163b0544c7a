//! Lists of flips: those of a journal, those of one worker, those that lead back, and those of an
//! image told in the labels of the complex itself.
#![tactic(auto)]

mod laws;
mod lists;
mod names;
mod over_map;

pub use laws::{carrying_law, inverse_law};
pub use lists::{flat, inverse_list, of_worker};
pub use over_map::carry;
