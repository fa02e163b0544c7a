//! Sources and sinks of bytes whose faults are counted, so that a failure is told from an end.
//!
//! [`read_all`] and [`write_all`] work over any [`Source`] and [`Sink`]. [`MemSource`], [`SureSource`]
//! and [`MemSink`] stand in memory and say of each call exactly what it does. [`StdSource`] and
//! [`StdSink`] adapt the readers and writers of std: they are the trusted edge.
#![tactic(auto)]

mod adapters;
mod memory;
mod whole;

ghost use Rattle.std.specs.Prelude.{◌≡◌, ◌≤◌, ◌<◌, List, ℕ, length, IfOk};
ghost use Rattle.std.specs.declared.option.Option.{Option};
ghost use Rattle.std.specs.Io.{ReadsAtMost};
ghost use Rattle.std.specs.Io.KnownBytes.{ReadConsumes, WriteAppends};
ghost use Rattle.flip_io.specs.Causes.{HasCause, Progresses};

pub use adapters::{StdSink, StdSource};
pub use memory::{MemSink, MemSource, SureSource};
pub use whole::{ReadAllFault, read_all, write_all};

/// A read or a write failed: the count of faults rose, and no byte was taken or appended.
#[derive(Clone, Copy, Debug, PartialEq, Eq)]
pub struct Failed;

/// Something that gives bytes.
pub trait Source {
    /// The bytes that are left, where the source tells them.
    ghost left: { Self → Option (List ℕ) };

    /// How often it has failed. The count never falls.
    ghost faults: { Self → ℕ };

    /// Puts the next bytes at the front of `buf`, and answers how many.
    ///
    /// `Ok(0)` is the end of the input, where `buf` isn't empty. At `Failed` nothing was taken.
    fn read(&mut self, buf: &mut [u8]) -> Result<usize, Failed>
        ensures bound { ReadsAtMost result buf.new }
        ensures bytes { ReadConsumes (left self.old) (left self.new) result buf.new }
        ensures cause { HasCause (faults self.old) (faults self.new) result };
}

/// Something that takes bytes.
pub trait Sink {
    /// The bytes that were written, where the sink tells them.
    ghost written: { Self → Option (List ℕ) };

    /// How often it has failed. The count never falls.
    ghost faults: { Self → ℕ };

    /// Takes the first bytes of `piece`, at least one unless it is empty, and answers how many.
    ///
    /// A sink that can take none of them answers `Failed`. At `Failed` nothing was appended.
    fn write(&mut self, piece: &[u8]) -> Result<usize, Failed>
        ensures bound { IfOk result (Progresses piece.now) }
        ensures bytes { WriteAppends (written self.old) (written self.new) result piece.now }
        ensures cause { HasCause (faults self.old) (faults self.new) result };
}
