//! Why a text is no complex.

ghost use Rattle.std.specs.Prelude.{◌≡◌};
ghost use Rattle.facet_text.specs.declared.fault.TextFault.TheVariants.{Memory};

use std::alloc::{AllocError, AllocFailed};
use thiserror::Error;

/// The first fault of a text from left to right. An offset counts the bytes before it in the whole
/// input.
#[derive(Clone, Copy, Debug, PartialEq, Eq, Error)]
pub enum TextFault {
    /// A token that the grammar doesn't allow there, or an end too early, at the input's length.
    #[error("syntax {0}")]
    Syntax(usize),
    /// A label that isn't from 1 to 60,000, by its first digit.
    #[error("label {0}")]
    Label(usize),
    /// A label that stood in this facet before, by its first digit.
    #[error("twice {0}")]
    Twice(usize),
    /// A facet with one label or with an eighth one, by its `[`.
    #[error("size {0}")]
    Size(usize),
    /// A facet with another number of labels than the first one, by its `[`.
    #[error("not pure {0}")]
    NotPure(usize),
    /// More than 20,000 distinct facets.
    #[error("too many facets")]
    TooManyFacets,
    /// More than 4,096 distinct labels.
    #[error("too many labels")]
    TooManyLabels,
    /// Memory ran out.
    #[error("memory")]
    Memory,
}

impl From<AllocError> for TextFault {
    ghost from_gives = { λ _ e. e ≡ Memory };

    fn from(_e: AllocError) -> TextFault {
        TextFault::Memory
    }
}

impl<T: Drop> From<AllocFailed<T>> for TextFault {
    ghost from_gives = { λ _ e. e ≡ Memory };

    fn from(_e: AllocFailed<T>) -> TextFault {
        TextFault::Memory
    }
}
