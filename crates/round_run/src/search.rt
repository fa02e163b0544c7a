//! Searches for a sphere.

ghost use Rattle.std.specs.Prelude.{◌≤◌, ◌+◌, ◌↔◌, IfOk, IsTrue, length};
ghost use Rattle.complex_core.specs.Maps.{greatest, used};
ghost use Rattle.flip_rules.specs.Boundaries.{IsBoundary};
ghost use Rattle.round_run.specs.Gates.{Rise, all_quits_at};
ghost use Rattle.round_run.specs.Found.{IsFound, report_of};

use crate::report::Report;
use anneal_plan::Plan;
use complex_core::Complex;
use flip_rules::is_simplex_boundary;
use held_stars::Gate;
use std::alloc::{AllocError, Global};
use std::marker::Send;
use std::thread::Threads;

/// What a search for a sphere found, with its report.
#[derive(Drop)]
pub enum SphereFound {
    /// The last descent ended in the boundary of a simplex, and none before it.
    Sphere(Report),
    /// All rounds were made, and no descent ended in the boundary of a simplex.
    Undecided(Report),
}

impl Report {
    // Whether the last descent ended in the boundary of a simplex.
    fn is_sphere(&self) -> bool
        ensures { IsTrue result ↔ IsBoundary self.now.end }
    {
        is_simplex_boundary(&self.end)
    }
}

/// Searches for legal flips that lead a complex to the boundary of a simplex: a descent, and then, until
/// a descent ends there, as many rounds as the plan has, each with a descent behind it.
///
/// # Errors
/// `AllocError` where there isn't enough memory.
pub fn search_sphere<R: Threads + Sync, G: Gate + Send>(
    rt: &R,
    alloc: Global,
    input: &Complex,
    plan: &Plan,
    gates: &mut [G],
) -> Result<SphereFound, AllocError>
    requires dim { 1 ≤ input.now.dim }
    requires labels { greatest (used input.now.facets) + plan.now.room ≤ 65535 }
    requires gates { plan.now.workers ≤ length gates.old }
    ensures found { IfOk result (IsFound input.now plan.now) }

    // In all rounds a worker quits at most as often as the count of its gate rose.
    ensures quits { IfOk result (λ f. Rise (λ g. G.quits g) gates.old gates.new (all_quits_at (report_of f).rounds)) }
    ensures later { Rise (λ g. G.quits g) gates.old gates.new (λ _. 0) }
{
    let mut report = Report::open(alloc, input, plan)?.descend(alloc, plan)?;
    'legs: while !report.is_sphere() {
        if report.is_spent(plan) {
            return Ok(SphereFound::Undecided(report));
        }
        report = report.advance(rt, alloc, plan, gates)?;
    }
    Ok(SphereFound::Sphere(report))
}
