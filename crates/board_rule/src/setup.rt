// What a board is told once, when it is opened.
use complex_core::Complex;
use std::snapshot::Snapshot;

/// What a board is told once, when it is opened. It has no copy of the complex.
#[derive(Drop)]
pub struct Setup {
    /// The complex that the board begins with.
    pub start: Snapshot<Complex>,
    /// The greatest place. Place 0 is the journal's, and the others are labels.
    pub places: u16,
    /// How many passes may be handed out.
    pub workers: u16,
    /// The round of the board's entries.
    pub round: u32,
}
