//! What a try answers.

use flip_rules::Flip;

/// The answer of a try. Only `Committed` says that the try changed the board: after every other answer
/// its stars went home as they came.
#[derive(Clone, Copy, PartialEq, Eq)]
pub enum Tried {
    /// Its flips were committed, as the worker's entry with this number, counted from 0.
    Committed(u32),
    /// Another worker held a place.
    Busy {
        /// The place: one from 1, or 0 for the journal.
        place: u16,
        /// The number of the worker who held it, from 1.
        owner: u16,
    },
    /// The star of its place has no flip to propose.
    Nothing,
    /// This flip isn't legal, since its B is a face.
    Blocked(Flip),
    /// The flips change the number of facets by this much, which is more than its phase allows.
    Declined(i32),
    /// The gate ended it.
    Quit,
    /// There wasn't enough memory.
    NoMemory,
}
