//! The complexes that have names, and those that random flips make of them.
#![tactic(auto)]

mod draws;
mod generate;
mod kind;
mod law;
mod named;
mod words;

pub use generate::make;
pub use kind::Kind;
pub use law::least_unused_law;
