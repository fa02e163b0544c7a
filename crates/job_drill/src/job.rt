// The job `drill`, from a recipe and a plan to what it says.
ghost use Rattle.std.specs.Prelude.{◌≡◌, ◌≤◌, [], IfOk, length};
ghost use Rattle.round_run.specs.Gates.{Rise};
ghost use Rattle.job_answer.specs.Meanings.{Judges};
ghost use Rattle.job_sphere.specs.Decisions.{quits_of, report_in, status_of};
ghost use Rattle.job_drill.specs.Answers.{alone, meaning};

use crate::text::summary;
use anneal_plan::Plan;
use held_stars::Gate;
use job_answer::{Said, Status};
use job_make::Recipe;
use job_sphere::{Decision, decide};
use round_run::{Report, SphereFound};
use std::alloc::{AllocError, Global};
use std::marker::Send;
use std::thread::Threads;

// The same plan for one worker.
fn alone(plan: &Plan) -> Plan
    ensures { result ≡ alone plan.now }
{
    plan.keeps_limits();
    let made = Plan::new(
        plan.seed(),
        1,
        plan.rounds(),
        plan.tries(),
        plan.heat(),
        plan.relax(),
        plan.depth(),
        plan.room(),
    );
    match made {
        Ok(plan) => plan,
        Err(_) => unreachable!(),
    }
}

// How `sphere` ends where this is found.
fn status_of(decision: &Decision) -> Status
    ensures { result ≡ status_of decision.now }
{
    match decision {
        Decision::Excluded(_) => Status::No,
        Decision::Searched(SphereFound::Sphere(_)) => Status::Yes,
        Decision::Searched(SphereFound::Undecided(_)) => Status::Undecided,
    }
}

// The search that was made.
fn report_in(decision: Decision) -> Option<Report>
    ensures { result ≡ report_in decision }
{
    match decision {
        Decision::Excluded(_) => None,
        Decision::Searched(SphereFound::Sphere(report)) => Some(report),
        Decision::Searched(SphereFound::Undecided(report)) => Some(report),
    }
}

/// Makes the complex of a recipe, decides as `sphere` does whether it can be led to the boundary of a simplex, with one worker
/// whatever the plan says, and tells what was found in five lines. No byte of an input is taken.
///
/// There is at least one gate, which the worker asks. It runs in threads of `rt`.
///
/// # Errors
///
/// `AllocError` for want of memory.
pub fn drill<R: Threads + Sync, G: Gate + Send>(
    rt: &R,
    alloc: Global,
    recipe: &Recipe,
    plan: &Plan,
    gates: &mut [G],
) -> Result<(Said, Option<Report>), AllocError>
    requires { 1 ≤ length gates.old }
    ensures judged { IfOk result (λ a. Judges (meaning recipe.now plan.now) [] a.0.status a.0.text.items a.1) }

    // In all rounds together the worker quits at most as often as the count of its gate rose.
    ensures quits { IfOk result (λ a. Rise (λ g. G.quits g) gates.old gates.new (quits_of a.1)) }
    ensures later { Rise (λ g. G.quits g) gates.old gates.new (λ _. 0) }
{
    let complex = recipe.make(alloc)?;
    let plan = alone(plan);
    plan.keeps_limits();
    let decision = decide(rt, alloc, &complex, &plan, gates)?;
    let text = summary(alloc, complex.facets().len(), &decision)?;
    let status = status_of(&decision);
    let text = text.into_bytes();
    Ok((Said { status, text }, report_in(decision)))
}
