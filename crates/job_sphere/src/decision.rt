// What `sphere` finds of a complex, before it is told.
ghost use Rattle.std.specs.Prelude.{◌≤◌, IfOk, length};
ghost use Rattle.anneal_plan.specs.Numbers.{KeepsLimits as KeepsNumbers};
ghost use Rattle.facet_text.specs.Writing.{KeepsLimits};
ghost use Rattle.round_run.specs.Gates.{Rise};
ghost use Rattle.job_sphere.specs.Decisions.{Decides, quits_in};

use anneal_plan::Plan;
use complex_core::Complex;
use flip_laws::{Obstacle, cannot_reach};
use held_stars::Gate;
use round_run::{SphereFound, search_sphere};
use std::alloc::{AllocError, Global};
use std::marker::Send;
use std::thread::Threads;

/// What is found of a complex.
#[derive(Drop)]
pub enum Decision {
    /// The first fact of a sphere that it lacks.
    Excluded(Obstacle),
    /// It lacks none, and this is what a search from it came to.
    Searched(SphereFound),
}

/// Finds the first fact of a sphere that a complex lacks. A complex that lacks none is searched for
/// legal flips that lead to the boundary of a simplex.
///
/// # Errors
///
/// `AllocError` for want of memory.
pub fn decide<R: Threads + Sync, G: Gate + Send>(
    rt: &R,
    alloc: Global,
    complex: &Complex,
    plan: &Plan,
    gates: &mut [G],
) -> Result<Decision, AllocError>
    requires limits { KeepsLimits complex.now }
    requires numbers { KeepsNumbers plan.now }
    requires gates { plan.now.workers ≤ length gates.old }
    ensures decides { IfOk result (Decides complex.now plan.now) }

    // In all rounds together a worker quits at most as often as the count of its gate rose.
    ensures quits { IfOk result (λ d. Rise (λ g. G.quits g) gates.old gates.new (quits_in d)) }
    ensures later { Rise (λ g. G.quits g) gates.old gates.new (λ _. 0) }
{
    match cannot_reach(alloc, complex)? {
        Some(obstacle) => Ok(Decision::Excluded(obstacle)),
        None => Ok(Decision::Searched(search_sphere(rt, alloc, complex, plan, gates)?)),
    }
}
