// The job `manifold`, from bytes to what it says.
ghost use Rattle.std.specs.Prelude.{◌≤◌, IfOk, length};
ghost use Rattle.anneal_plan.specs.Numbers.{KeepsLimits as KeepsNumbers};
ghost use Rattle.facet_text.specs.Writing.{KeepsLimits};
ghost use Rattle.round_run.specs.Gates.{Rise};
ghost use Rattle.job_answer.specs.Meanings.{Judges};
ghost use Rattle.job_manifold.specs.Answers.{IsManifoldAnswer, LooksLikeManifold, Searches, meaning, quits_of};

use crate::text::{bad_text, found_text, open_text, unclosed_text};
use anneal_plan::Plan;
use complex_core::Complex;
use held_stars::Gate;
use job_answer::{Said, Status, plain, read_alone, refuse};
use link_check::{Links, bad_link};
use link_search::search_links;
use pseudo_test::closed;
use round_run::Report;
use std::alloc::{AllocError, Global};
use std::marker::Send;
use std::thread::Threads;

/// The most bytes of an input.
pub const MOST_BYTES: usize = 4_194_304;

// Searches the links of all vertices, and tells what was found.
fn search<R: Threads + Sync, G: Gate + Send>(
    rt: &R,
    alloc: Global,
    complex: &Complex,
    plan: &Plan,
    gates: &mut [G],
) -> Result<(Said, Option<Vec<(u16, Report)>>), AllocError>
    requires limits { KeepsLimits complex.now }
    requires looks { LooksLikeManifold complex.now }
    requires numbers { KeepsNumbers plan.now }
    requires gates { 16 ≤ length gates.old }
    ensures searched { IfOk result (λ a. Searches complex.now plan.now a.0.status a.0.text.items a.1) }
    ensures quits { IfOk result (λ a. Rise (λ g. G.quits g) gates.old gates.new (quits_of a.1)) }
    ensures later { Rise (λ g. G.quits g) gates.old gates.new (λ _. 0) }
{
    match search_links(rt, alloc, complex, plan, gates)? {
        Links::Manifold(lists) => {
            let text = found_text(alloc, lists)?;
            let status = Status::Yes;
            Ok((Said { status, text }, None))
        }
        Links::Open(left) => {
            let said = plain(Status::Undecided, open_text(alloc, &left)?);
            Ok((said, Some(left)))
        }
    }
}

// Judges the links of a complex, and searches them where none is bad.
fn judge<R: Threads + Sync, G: Gate + Send>(
    rt: &R,
    alloc: Global,
    complex: &Complex,
    plan: &Plan,
    gates: &mut [G],
) -> Result<(Said, Option<Vec<(u16, Report)>>), AllocError>
    requires limits { KeepsLimits complex.now }
    requires numbers { KeepsNumbers plan.now }
    requires gates { 16 ≤ length gates.old }
    ensures answers { IfOk result (λ a. IsManifoldAnswer plan.now complex.now a.0.status a.0.text.items a.1) }
    ensures quits { IfOk result (λ a. Rise (λ g. G.quits g) gates.old gates.new (quits_of a.1)) }
    ensures later { Rise (λ g. G.quits g) gates.old gates.new (λ _. 0) }
{
    if let Some(ridge) = closed(alloc, complex)? {
        return Ok((plain(Status::No, unclosed_text(alloc, ridge)?), None));
    }
    match bad_link(alloc, complex)? {
        Some(bad) => Ok((plain(Status::No, bad_text(alloc, bad)?), None)),
        None => search(rt, alloc, complex, plan, gates),
    }
}

/// Tells whether the complex of an input, behind which only blanks stand, is a closed combinatorial manifold: whether each ridge
/// lies in two facets, and the link of each vertex is a sphere. A ridge that doesn't, or else the least face whose link lacks a
/// fact of a sphere, is named. Where there is neither, the link of each vertex is searched for legal flips that lead it to the
/// boundary of a simplex. Flips for all vertices are a certificate; else the vertices whose links stay open are named, and the
/// searches of these links are reported.
///
/// There are at least 16 gates: worker w of each round asks the gate at place w - 1. The workers run in threads of `rt`.
///
/// # Errors
///
/// `AllocError` for want of memory.
pub fn manifold<R: Threads + Sync, G: Gate + Send>(
    rt: &R,
    alloc: Global,
    plan: &Plan,
    bytes: &[u8],
    gates: &mut [G],
) -> Result<(Said, Option<Vec<(u16, Report)>>), AllocError>
    requires { 16 ≤ length gates.old }
    ensures judged { IfOk result (λ a. Judges (meaning plan.now) bytes.now a.0.status a.0.text.items a.1) }

    // In all rounds of the searches that are reported a worker quits at most as often as the count of its gate rose.
    ensures quits { IfOk result (λ a. Rise (λ g. G.quits g) gates.old gates.new (quits_of a.1)) }
    ensures later { Rise (λ g. G.quits g) gates.old gates.new (λ _. 0) }
{
    plan.keeps_limits();
    match read_alone(alloc, bytes) {
        Ok(complex) => judge(rt, alloc, &complex, plan, gates),
        Err(fault) => Ok((refuse(alloc, fault)?, None)),
    }
}
