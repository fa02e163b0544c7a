//! A board: the state of flips that threads share, by claims of single vertices.
//!
//! Each label has a claim word and a slot with its star. A worker holds a pass. With it it claims the
//! labels that a flip needs, one atomic step each, and no call waits. What it holds it alone reads and
//! changes. Place 0 stands for the journal: a worker who holds it commits the flips that it made on
//! its stars as one entry. However the steps of the threads interleave, the journal is one legal
//! history of flips, as [`Board::close`] says.
#![tactic(auto)]

mod append;
mod board;
mod count;
mod main_seat;
mod mark;
mod pass;
mod reordering;
mod slots;

pub use board::Board;
pub use main_seat::Main;
pub use mark::{Found, Mark, Marks};
pub use pass::{Claimed, Pass};
