// The job `trace`, from bytes to what it says.
ghost use Rattle.std.specs.Prelude.{◌≤◌, IfOk, length};
ghost use Rattle.job_answer.specs.Meanings.{Judges};
ghost use Rattle.job_trace.specs.Answers.{meaning};

use crate::input::read_input;
use crate::run::run_trace;
use flip_world::World;
use job_answer::{Said, refuse};
use std::alloc::{AllocError, Global};

/// The most bytes of an input.
pub const MOST_BYTES: usize = 4_194_304;

/// Runs the events of a trace, one after another, and answers with the core that they end in.
///
/// # Errors
///
/// `AllocError` for want of memory.
pub fn trace(alloc: Global, bytes: &[u8]) -> Result<(Said, Option<World>), AllocError>
    requires { length bytes.now ≤ 4194304 }
    ensures { IfOk result (λ a. Judges meaning bytes.now a.0.status a.0.text.items a.1) }
{
    match read_input(alloc, bytes) {
        Ok(trace) => {
            let (status, text, world) = run_trace(alloc, &trace)?;
            Ok((Said { status, text }, Some(world)))
        }
        Err(fault) => Ok((refuse(alloc, fault)?, None)),
    }
}
