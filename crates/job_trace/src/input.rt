// Reads the input of `trace`.
ghost use Rattle.std.specs.Prelude.{◌≡◌, ◌≤◌, IfOk, length};
ghost use Rattle.job_trace.specs.Readings.{input_of, of_trace, Gives};
ghost use Rattle.job_trace.specs.Traced.{CanRun};

use job_answer::Fault;
use std::alloc::Global;
use trace_text::{Trace, TraceFault, read_trace};

// The fault of a trace, as one of an input.
fn fault_of(fault: TraceFault) -> Fault
    ensures { result ≡ of_trace fault }
{
    match fault {
        TraceFault::Complex(fault) => Fault::from(fault),
        TraceFault::Syntax(place) => Fault::Syntax(place),
        TraceFault::Label(place) => Fault::Label(place),
        TraceFault::Number(place) => Fault::Number(place),
        TraceFault::Memory => Fault::Memory,
    }
}

/// The trace of an input, from the first byte to the last.
#[tactic(auto, using(crate::proofs::Inputs::fails_seen))]
pub(crate) fn read_input(alloc: Global, bytes: &[u8]) -> Result<Trace, Fault>
    requires { length bytes.now ≤ 4194304 }
    ensures read { Gives result (input_of bytes.now) }
    ensures can { IfOk result (λ t. CanRun t) }
{
    match read_trace(alloc, bytes) {
        Ok(trace) => Ok(trace),
        Err(fault) => Err(fault_of(fault)),
    }
}
