//! What a try and a round of tries may answer, and the laws by which the journal of a closed board
//! judges each try.
//!
//! In a round some workers, numbered from 1, share one board, which starts with the stars of a complex.
//! Each makes its tries one after another. A try claims a place that its words choose, proposes flips on
//! the star that lies there, claims the places of their labels, and answers by a [`Tried`]. A committed
//! try is one entry of the round's journal, with all its flips. Of each try its pass keeps a mark and a
//! note of the stars that it won.
//!
//! The definitions are in three layers:
//!
//! - `Own` and `Accounts`: what a worker says of its own tries. It knows the stars of its notes, and no
//!   journal.
//! - `Outcomes`: what a try may answer, by its mark and by beginnings of the round's journal. The star on
//!   which it proposed flips is the one that its place had at the version of its mark.
//! - `Rounds`: when the record of a round is right. Its entries are one legal history from the first
//!   complex to the last one, and each worker's commits stand in it whole, once and in its order.
//!
//! [`round_law`] leads from the first layer, with what a closed board says, to the other two. So a record
//! can be judged without any word of how the workers' steps interleaved. By [`try_commits`] a try can't
//! be idle: where nothing hindered it, it commits. By [`round_ends`] and [`round_grows`] the end of a right
//! round is a complex on the same places, with a bounded number of facets.
//!
//! Flips and the strategy are those of Björner and Lutz, "Simplicial manifolds, bistellar flips and a
//! 16-vertex triangulation of the Poincaré homology 3-sphere" (2000).
#![tactic(auto)]

mod laws;
mod tried;

pub use laws::{round_ends, round_grows, round_law, try_commits};
pub use tried::Tried;
