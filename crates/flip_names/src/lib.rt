//! Flips under another naming of the labels: a search runs on the places of a dense complex, and
//! what it finds is told in the labels of the input.
//!
//! `Complex::dense` gives the dense complex and the map that names its places. By its clauses the
//! map takes all labels of the dense complex (`taken`), and the renamed dense complex is the one
//! that it was made of (`back`). So what the laws here say of a complex and its image under a map
//! holds of a dense complex and the one of the input.
#![tactic(auto)]

mod laws;
mod names;

pub use laws::{reducing_flips_stay, renaming_law};
pub use names::{named_flip, named_flips, push_named};
