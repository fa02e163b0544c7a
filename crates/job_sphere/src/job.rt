// The job `sphere`, from bytes to what it says.
ghost use Rattle.std.specs.Prelude.{◌≤◌, IfOk, length};
ghost use Rattle.round_run.specs.Gates.{Rise};
ghost use Rattle.job_answer.specs.Meanings.{Judges};
ghost use Rattle.job_sphere.specs.Decisions.{Tells, quits_of};
ghost use Rattle.job_sphere.specs.Answers.{meaning};

use crate::decision::{Decision, decide};
use crate::text::{found_text, obstacle_text, undecided_text};
use anneal_plan::Plan;
use held_stars::Gate;
use job_answer::{Said, Status, plain, read_alone, refuse};
use round_run::{Report, SphereFound};
use std::alloc::{AllocError, Global};
use std::marker::Send;
use std::thread::Threads;

/// The most bytes of an input.
pub const MOST_BYTES: usize = 4_194_304;

// Tells what was found of a complex.
fn tell(alloc: Global, decision: Decision) -> Result<(Said, Option<Report>), AllocError>
    ensures { IfOk result (λ a. Tells decision a.0.status a.0.text.items a.1) }
{
    match decision {
        Decision::Excluded(obstacle) => {
            Ok((plain(Status::No, obstacle_text(alloc, obstacle)?), None))
        }
        Decision::Searched(SphereFound::Sphere(report)) => {
            let text = found_text(alloc, &report)?;
            let status = Status::Yes;
            Ok((Said { status, text }, Some(report)))
        }
        Decision::Searched(SphereFound::Undecided(report)) => {
            let text = undecided_text(alloc, &report)?;
            let status = Status::Undecided;
            Ok((Said { status, text }, Some(report)))
        }
    }
}

/// Tells what keeps the complex of an input, behind which only blanks stand, from being led to the boundary of a simplex: the
/// first of four facts of a sphere that it lacks. A complex that lacks none is searched for legal flips that lead there: a
/// descent, in which each flip leaves fewer facets, and then, until a descent ends there, rounds of the workers, with a descent
/// behind each. The flips that are found are a certificate, and the search is reported.
///
/// There are at least 16 gates: worker w of each round asks the gate at place w - 1. The workers run in threads of `rt`.
///
/// # Errors
///
/// `AllocError` for want of memory.
pub fn sphere<R: Threads + Sync, G: Gate + Send>(
    rt: &R,
    alloc: Global,
    plan: &Plan,
    bytes: &[u8],
    gates: &mut [G],
) -> Result<(Said, Option<Report>), AllocError>
    requires { 16 ≤ length gates.old }
    ensures judged { IfOk result (λ a. Judges (meaning plan.now) bytes.now a.0.status a.0.text.items a.1) }

    // In all rounds together a worker quits at most as often as the count of its gate rose.
    ensures quits { IfOk result (λ a. Rise (λ g. G.quits g) gates.old gates.new (quits_of a.1)) }
    ensures later { Rise (λ g. G.quits g) gates.old gates.new (λ _. 0) }
{
    plan.keeps_limits();
    match read_alone(alloc, bytes) {
        Ok(complex) => tell(alloc, decide(rt, alloc, &complex, plan, gates)?),
        Err(fault) => Ok((refuse(alloc, fault)?, None)),
    }
}
