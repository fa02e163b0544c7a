//! Why claims stop.

/// Why the claims of a try stopped.
#[derive(Clone, Copy, Debug, PartialEq, Eq)]
pub enum Stopped {
    /// A place was held by another worker.
    Busy {
        /// The place.
        place: u16,
        /// The number of the worker who held it, from 1.
        owner: u16,
    },
    /// The gate ended the try.
    Quit,
}
