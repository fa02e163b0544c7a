// What a job says: a status and a text.
ghost use Rattle.std.specs.Prelude.{◌≡◌, IfOk, string_bytes};
ghost use Rattle.job_answer.specs.Faults.{Refuses};
ghost use Rattle.job_answer.specs.declared.fault.Fault.TheVariants as fault;

use crate::fault::{Fault, fault_line};
use crate::status::Status;
use std::alloc::{AllocError, Global};

/// What a job says of its input, before it is written.
#[derive(Drop)]
pub struct Said {
    /// How the job ends.
    pub status: Status,
    /// What is written, in lines.
    pub text: Vec<u8>,
}

/// A status with its text.
pub fn plain(status: Status, text: String) -> Said
    ensures status { result.status ≡ status }
    ensures text { result.text.items ≡ string_bytes text }
{
    Said {
        status,
        text: text.into_bytes(),
    }
}

/// Refuses an input, with the line of its first fault.
///
/// # Errors
///
/// `AllocError` for want of memory, also where that is the fault.
pub fn refuse(alloc: Global, first: Fault) -> Result<Said, AllocError>
    ensures refused { IfOk result (λ a. Refuses first a.status a.text.items) }
    ensures known { IfOk result (λ a. first ≡ fault.Memory → ⊥) }
{
    Ok(plain(Status::BadInput, fault_line(alloc, first)?))
}
