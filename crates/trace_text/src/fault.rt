//! Why a text is no trace.

ghost use Rattle.std.specs.Prelude.{◌≡◌};
ghost use Rattle.trace_text.specs.declared.fault.TraceFault.TheVariants.{Complex, Memory};
ghost use Rattle.trace_text.specs.Grammar.{of_line};
ghost use Rattle.trace_text.specs.Outcomes.{of_text};

use facet_text::TextFault;
use line_text::LineFault;
use std::alloc::{AllocError, AllocFailed};
use thiserror::Error;

/// The first fault of a text from left to right. A place counts the bytes before it in the whole
/// input.
#[derive(Clone, Copy, Debug, PartialEq, Eq, Error)]
pub enum TraceFault {
    /// A fault of the complex, of which `Memory` is none.
    #[error("{0}")]
    Complex(TextFault),
    /// A word that isn't allowed there, or a line or an input that ends too early, at its end.
    #[error("syntax {0}")]
    Syntax(usize),
    /// A place or a label that is neither used nor spare, or a label that stood in this side
    /// before, by its first digit.
    #[error("label {0}")]
    Label(usize),
    /// A number out of its range, by its first digit.
    #[error("number {0}")]
    Number(usize),
    /// Memory ran out.
    #[error("memory")]
    Memory,
}

impl From<AllocError> for TraceFault {
    ghost from_gives = { λ _ e. e ≡ Memory };

    fn from(_e: AllocError) -> TraceFault {
        TraceFault::Memory
    }
}

impl<T: Drop> From<AllocFailed<T>> for TraceFault {
    ghost from_gives = { λ _ e. e ≡ Memory };

    fn from(_e: AllocFailed<T>) -> TraceFault {
        TraceFault::Memory
    }
}

impl From<LineFault> for TraceFault {
    ghost from_gives = { λ e f. f ≡ of_line e };

    fn from(e: LineFault) -> TraceFault {
        match e {
            LineFault::Syntax(place) => TraceFault::Syntax(place),
            LineFault::Label(place) => TraceFault::Label(place),
        }
    }
}

impl From<TextFault> for TraceFault {
    ghost from_gives = { λ e f. f ≡ of_text e };

    fn from(e: TextFault) -> TraceFault {
        match e {
            TextFault::Memory => TraceFault::Memory,
            _ => TraceFault::Complex(e),
        }
    }
}
