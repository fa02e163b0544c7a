//! How many faces a complex has of each size, and its Euler characteristic.
#![tactic(auto)]

mod count;
mod laws;

pub use count::{counts, euler, euler_from};
pub use laws::{euler_law, faces_law};
