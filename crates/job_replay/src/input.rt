// Reads the input of `replay`.
ghost use Rattle.std.specs.Prelude.{◌≡◌, IfOk};
ghost use Rattle.facet_text.specs.Writing.{KeepsLimits};
ghost use Rattle.job_replay.specs.Readings.{input_of, of_cert, Gives};

use cert_text::{CertFault, Certificate, read_certificate};
use complex_core::Complex;
use facet_text::read_complex;
use job_answer::Fault;
use std::alloc::Global;

// The fault of a certificate, as one of an input.
fn fault_of(fault: CertFault) -> Fault
    ensures { result ≡ of_cert fault }
{
    match fault {
        CertFault::Syntax(offset) => Fault::Syntax(offset),
        CertFault::Label(offset) => Fault::Label(offset),
        CertFault::Count(offset) => Fault::Count(offset),
        CertFault::Target(fault) => Fault::from(fault),
        CertFault::Memory => Fault::Memory,
    }
}

/// The complex of an input, and the certificate behind it, to the end.
pub(crate) fn read_input(alloc: Global, bytes: &[u8]) -> Result<(Complex, Certificate), Fault>
    ensures read { Gives result (input_of bytes.now) }
    ensures limits { IfOk result (λ x. KeepsLimits x.0) }
{
    let (complex, offset) = read_complex(alloc, bytes, 0)?;
    match read_certificate(alloc, bytes, offset) {
        Ok(certificate) => Ok((complex, certificate)),
        Err(fault) => Err(fault_of(fault)),
    }
}
