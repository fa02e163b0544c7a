// The job `info`, from bytes to what it says.
ghost use Rattle.std.specs.Prelude.{IfOk};
ghost use Rattle.job_answer.specs.Meanings.{Judges};
ghost use Rattle.job_info.specs.Answers.{meaning};

use crate::describe::description;
use job_answer::{Said, Status, plain, read_alone, refuse};
use std::alloc::{AllocError, Global};

/// The most bytes of an input.
pub const MOST_BYTES: usize = 4_194_304;

/// Describes the complex of an input, behind which only blanks stand: its dimension, its f-vector, its Euler characteristic, and
/// whether it is closed, strongly connected and orientable.
///
/// # Errors
///
/// `AllocError` for want of memory.
pub fn info(alloc: Global, bytes: &[u8]) -> Result<Said, AllocError>
    ensures { IfOk result (λ a. Judges meaning bytes.now a.status a.text.items tt) }
{
    match read_alone(alloc, bytes) {
        Ok(complex) => Ok(plain(Status::Yes, description(alloc, &complex)?)),
        Err(fault) => refuse(alloc, fault),
    }
}
