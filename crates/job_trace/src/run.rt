// Runs a trace on the core.
ghost use Rattle.std.specs.Prelude.{◌≡◌, ◌-◌, ◌+◌, ◌≤◌, ◌^◌, ℕ, true, IfOk, OnOk, length, string_bytes};
ghost use Rattle.std.specs.List.{AllByRecursion};
ghost use Rattle.complex_core.specs.Maps.{turned};
ghost use Rattle.core_laws.specs.Cores.{IsWithin};
ghost use Rattle.core_laws.specs.Runs.{IsEvent};
ghost use Rattle.trace_text.specs.Traces.{names as names_for};
ghost use Rattle.job_trace.specs.Traced.{CanRun, IsTraced, TellsHistory, opened_for};
ghost use Rattle.job_trace.specs.TraceRuns.{IsTurn, HasRun};

use crate::place::placed_event;
use crate::text::{verdict_line, with_history, write_pending, write_refusal};
use complex_core::VertexMap;
use core_laws::{Event, StepFault};
use flip_world::World;
use job_answer::Status;
use std::alloc::{AllocError, Global};
use trace_text::Trace;

// Runs an event, and writes its line where it is refused. Whether it was accepted.
fn run_event(
    text: &mut String,
    names: &VertexMap,
    world: &mut World,
    number: usize,
    event: &Event,
) -> Result<bool, AllocError>
    requires { IsWithin (2 ^ 32 - 2) world.old }
    ensures turn { IfOk result (λ accepted. IsTurn names.now number world.old event.now world.new accepted (string_bytes text.old) (string_bytes text.new)) }
    ensures grows { (count : ℕ) → IsWithin count world.old → IsWithin (count + 1) world.new }
{
    match world.step(event) {
        Ok(_) => Ok(true),
        Err(StepFault::Refused(reason)) => {
            write_refusal(text, names, number, reason)?;
            Ok(false)
        }
        Err(StepFault::Memory) => Err(AllocError),
    }
}

// Runs the events of a trace, one after another, and writes the lines of the refused ones. Whether each was accepted.
fn run_events(
    alloc: Global,
    trace: &Trace,
    names: &VertexMap,
    places: &VertexMap,
    world: &mut World,
) -> Result<(bool, String), AllocError>
    requires can { CanRun trace.now }
    requires names { names.now ≡ names_for trace.now }
    requires places { places.now ≡ turned names.now }
    requires opened { world.old ≡ opened_for trace.now }
    requires within { IsWithin 0 world.old }
    ensures { IfOk result (λ a. HasRun trace.now trace.now.events a.0 (string_bytes a.1) world.new) }
{
    let mut text = String::new(alloc);
    let mut accepted = true;
    for (place, event) in trace.events.iter().enumerate() {
        let event = placed_event(places, event);
        let is_accepted = run_event(&mut text, names, world, place + 1, &event)?;
        accepted = accepted && is_accepted;
    }
    Ok((accepted, text))
}

/// Runs the events of a trace, and writes what they come to. Yes where every event was accepted and nothing is pending.
pub(crate) fn run_trace(
    alloc: Global,
    trace: &Trace,
) -> Result<(Status, Vec<u8>, World), AllocError>
    requires { CanRun trace.now }
    ensures traced { IfOk result (λ a. IsTraced trace.now a.0 a.1.items a.2) }
    ensures history { IfOk result (λ a. TellsHistory trace.now a.1.items a.2) }
{
    let _facets = trace.complex.facets();
    let (ground, names) = trace.complex.dense(trace.room)?;
    let _ground = ground.facets();
    let places = names.inverse()?;
    let count = names.pairs().len() as u16;
    let mut world = World::open(alloc, &ground, count, trace.workers)?;
    let (accepted, mut lines) = run_events(alloc, trace, &names, &places, &mut world)?;
    let nothing = write_pending(&mut lines, &world, trace.workers)?;
    let clean = accepted && nothing;
    let mut text = verdict_line(alloc, clean)?;
    text.push_str(lines.as_str())?;
    let text = with_history(alloc, text, &names, &world)?;
    let status = if clean { Status::Yes } else { Status::No };
    Ok((status, text, world))
}
