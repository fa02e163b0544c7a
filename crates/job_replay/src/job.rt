// The job `replay`, from bytes to what it says.
ghost use Rattle.std.specs.Prelude.{IfOk};
ghost use Rattle.cert_text.specs.Statements.{statement};
ghost use Rattle.facet_text.specs.Writing.{KeepsLimits};
ghost use Rattle.job_answer.specs.Meanings.{Judges};
ghost use Rattle.job_replay.specs.Answers.{IsVerdict, meaning};

use crate::input::read_input;
use crate::text::{illegal_text, shown_text, wrong_end_text};
use cert_replay::{Replayed, replay};
use cert_text::Certificate;
use complex_core::Complex;
use job_answer::{Said, Status, plain, refuse};
use std::alloc::{AllocError, Global};

/// The most bytes of an input.
pub const MOST_BYTES: usize = 268_435_456;

// Replays a certificate.
#[tactic(auto, using(crate::proofs::Replays::links_are))]
fn judge_certificate(
    alloc: Global,
    complex: &Complex,
    certificate: &Certificate,
) -> Result<Said, AllocError>
    requires { KeepsLimits complex.now }
    ensures { IfOk result (λ a. IsVerdict complex.now (statement certificate.now) a.status a.text.items) }
{
    match replay(alloc, complex, certificate)? {
        Replayed::Valid { flips, facets } => Ok(plain(
            Status::Yes,
            shown_text(alloc, certificate, flips, facets)?,
        )),
        Replayed::Bad { number, fault } => Ok(plain(
            Status::No,
            illegal_text(alloc, number, fault)?,
        )),
        Replayed::WrongEnd => Ok(plain(Status::No, wrong_end_text(alloc)?)),
    }
}

/// Judges the certificate that stands behind the complex of an input: of a sphere, of an equivalence with another complex, or of
/// a manifold.
///
/// # Errors
///
/// `AllocError` for want of memory.
pub fn replay_input(alloc: Global, bytes: &[u8]) -> Result<Said, AllocError>
    ensures { IfOk result (λ a. Judges meaning bytes.now a.status a.text.items tt) }
{
    match read_input(alloc, bytes) {
        Ok((complex, certificate)) => judge_certificate(alloc, &complex, &certificate),
        Err(fault) => refuse(alloc, fault),
    }
}
