// What is wrong with a table.

use std::alloc::{AllocError, AllocFailed};
use std::fmt;

/// Why a table gives no cases.
#[derive(Clone, Copy, Debug)]
pub enum Fault {
    /// There was no memory.
    Memory,
    /// It could not be read.
    Read(&'static str),
    /// It has no case.
    NoCases,
    /// This line is wrong.
    Line {
        /// Its number, from 1.
        number: usize,
        /// What is wrong.
        wrong: &'static str,
    },
}

impl fmt::Display for Fault {
    fn fmt<W: fmt::Write>(&self, f: &mut fmt::Formatter<W>) -> fmt::Result {
        match self {
            Fault::Memory => write!(f, "no memory"),
            Fault::Read(reason) => write!(f, "{reason}"),
            Fault::NoCases => write!(f, "no cases"),
            Fault::Line { number, wrong } => write!(f, "line {number}: {wrong}"),
        }
    }
}

impl From<AllocError> for Fault {
    fn from(_: AllocError) -> Self {
        Fault::Memory
    }
}

impl<T: Drop> From<AllocFailed<T>> for Fault {
    fn from(_: AllocFailed<T>) -> Self {
        Fault::Memory
    }
}
