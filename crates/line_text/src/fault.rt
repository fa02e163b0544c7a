//! Why a line isn't what it should be.

/// The first fault of a line. An offset counts the bytes before it in the whole input.
#[derive(Clone, Copy, Debug, PartialEq, Eq)]
pub enum LineFault {
    /// A word that isn't allowed there, or a line that ends too early, at the line's end.
    Syntax(usize),
    /// A label that isn't allowed there, by its first digit.
    Label(usize),
}
