//! Searches of the links of all vertices with the workers of rounds.
//!
//! [`search_links`] searches one link after another by `round_run::search_sphere`, all with one plan
//! and the same gates. The flips that it finds are told in the labels of the complex.
#![tactic(auto)]

mod links;

pub use links::search_links;
