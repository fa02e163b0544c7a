//! Why a text is no certificate.

ghost use Rattle.std.specs.Prelude.{◌≡◌};
ghost use Rattle.cert_text.specs.Readings.{cert_fault};
ghost use Rattle.cert_text.specs.declared.fault.CertFault.TheVariants.{Memory};

use facet_text::TextFault;
use line_text::LineFault;
use std::alloc::{AllocError, AllocFailed};

/// The first fault of a text from left to right. An offset counts the bytes before it in the whole
/// input.
#[derive(Clone, Copy, Debug, PartialEq, Eq)]
pub enum CertFault {
    /// A word that isn't allowed there, or a line or an input that ends too early, at its end.
    Syntax(usize),
    /// A label that isn't from 1 to 65,000, that stood in this side of a flip before, or that
    /// stood before as a number of the same position in a pair, by its first digit.
    Label(usize),
    /// Another line than was counted, or one more, by its first word, or the input's end.
    Count(usize),
    /// A fault in the target of an equivalence.
    Target(TextFault),
    /// Memory ran out.
    Memory,
}

impl From<LineFault> for CertFault {
    ghost from_gives = { λ e f. f ≡ cert_fault e };

    fn from(e: LineFault) -> CertFault {
        match e {
            LineFault::Syntax(offset) => CertFault::Syntax(offset),
            LineFault::Label(offset) => CertFault::Label(offset),
        }
    }
}

impl From<AllocError> for CertFault {
    ghost from_gives = { λ _ e. e ≡ Memory };

    fn from(_e: AllocError) -> CertFault {
        CertFault::Memory
    }
}

impl<T: Drop> From<AllocFailed<T>> for CertFault {
    ghost from_gives = { λ _ e. e ≡ Memory };

    fn from(_e: AllocFailed<T>) -> CertFault {
        CertFault::Memory
    }
}
