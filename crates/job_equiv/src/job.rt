// The job `equiv`, from bytes to what it says.
ghost use Rattle.std.specs.Prelude.{◌≤◌, ◌↔◌, IfOk, IsTrue, length};
ghost use Rattle.anneal_plan.specs.Numbers.{KeepsLimits as KeepsNumbers};
ghost use Rattle.facet_text.specs.Writing.{KeepsLimits};
ghost use Rattle.round_run.specs.Gates.{Rise};
ghost use Rattle.job_answer.specs.Meanings.{Judges};
ghost use Rattle.job_equiv.specs.Answers.{IsPseudomanifold, Searches, meaning, quits_of};

use crate::text::{difference_text, found_text, undecided_text};
use anneal_plan::Plan;
use complex_core::Complex;
use equal_search::{EqualFound, search_equal};
use flip_laws::cannot_equal;
use held_stars::Gate;
use job_answer::{Fault, Said, Status, plain, read_two, refuse};
use pseudo_test::{closed, strong};
use round_run::Report;
use std::alloc::{AllocError, Global};
use std::marker::Send;
use std::thread::Threads;

/// The most bytes of an input.
pub const MOST_BYTES: usize = 4_194_304;

// Whether each ridge lies in two facets, and any two facets are joined.
fn is_pseudomanifold(alloc: Global, complex: &Complex) -> Result<bool, AllocError>
    ensures { IfOk result (λ t. IsTrue t ↔ IsPseudomanifold complex.now) }
{
    if closed(alloc, complex)?.is_some() {
        return Ok(false);
    }
    Ok(strong(alloc, complex)?.is_none())
}

// Searches for flips from the first to an image of the second, and tells what was found.
fn search<R: Threads + Sync, G: Gate + Send>(
    rt: &R,
    alloc: Global,
    first: Complex,
    second: Complex,
    plan: &Plan,
    gates: &mut [G],
) -> Result<(Said, Option<(Report, Report)>), AllocError>
    requires first { KeepsLimits first × IsPseudomanifold first }
    requires second { KeepsLimits second × IsPseudomanifold second }
    requires numbers { KeepsNumbers plan.now }
    requires gates { 16 ≤ length gates.old }
    ensures searched { IfOk result (λ a. Searches first second plan.now a.0.status a.0.text.items a.1) }
    ensures quits { IfOk result (λ a. Rise (λ g. G.quits g) gates.old gates.new (quits_of a.1)) }
    ensures later { Rise (λ g. G.quits g) gates.old gates.new (λ _. 0) }
{
    match search_equal(rt, alloc, &first, &second, plan, gates)? {
        EqualFound::Equal {
            first: near,
            second: far,
            flips,
            map,
        } => {
            let text = found_text(alloc, &near, second, flips, map)?;
            let status = Status::Yes;
            Ok((Said { status, text }, Some((near, far))))
        }
        EqualFound::Undecided {
            first: near,
            second: far,
        } => {
            let text = undecided_text(alloc, &near, &far)?;
            let status = Status::Undecided;
            Ok((Said { status, text }, Some((near, far))))
        }
    }
}

/// Tells the first of three facts that flips keep and in which the two complexes of an input differ. Two that differ in none are
/// searched for legal flips that lead from the first to an image of the second: both are compared, and then a descent is made on
/// both, and, until a map takes the one end to the other, rounds of the workers on both, with a descent behind each. The flips
/// that are found are a certificate of the first, whose target is the second, and both searches are reported. Each ridge of both
/// lies in two facets, and any two facets are joined; the first that isn't so is refused.
///
/// There are at least 16 gates: worker w of each round asks the gate at place w - 1. The workers run in threads of `rt`.
///
/// # Errors
///
/// `AllocError` for want of memory.
pub fn equiv<R: Threads + Sync, G: Gate + Send>(
    rt: &R,
    alloc: Global,
    plan: &Plan,
    bytes: &[u8],
    gates: &mut [G],
) -> Result<(Said, Option<(Report, Report)>), AllocError>
    requires { 16 ≤ length gates.old }
    ensures judged { IfOk result (λ a. Judges (meaning plan.now) bytes.now a.0.status a.0.text.items a.1) }

    // In all rounds together a worker quits at most as often as the count of its gate rose.
    ensures quits { IfOk result (λ a. Rise (λ g. G.quits g) gates.old gates.new (quits_of a.1)) }
    ensures later { Rise (λ g. G.quits g) gates.old gates.new (λ _. 0) }
{
    plan.keeps_limits();
    let (first, second) = match read_two(alloc, bytes) {
        Ok(complexes) => complexes,
        Err(fault) => return Ok((refuse(alloc, fault)?, None)),
    };
    if !is_pseudomanifold(alloc, &first)? {
        return Ok((refuse(alloc, Fault::Unfit(1))?, None));
    }
    if !is_pseudomanifold(alloc, &second)? {
        return Ok((refuse(alloc, Fault::Unfit(2))?, None));
    }
    match cannot_equal(alloc, &first, &second)? {
        Some(differ) => Ok((plain(Status::No, difference_text(alloc, differ)?), None)),
        None => search(rt, alloc, first, second, plan, gates),
    }
}
