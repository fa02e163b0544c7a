//! The points of a try, and what a gate answers there.

/// A point of a try at which the gate is asked.
#[derive(Clone, Copy, Debug, PartialEq, Eq)]
pub enum Point {
    /// The try begins.
    Start,
    /// A claim of a vertex was won.
    Claimed,
    /// A flip was made on the held stars.
    Flipped,
    /// Place 0 was won.
    Journal,
}

/// What a gate answers.
#[derive(Clone, Copy, Debug, PartialEq, Eq)]
pub enum Step {
    /// The try goes on.
    Go,
    /// The try ends here.
    Quit,
}
