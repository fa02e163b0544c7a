// Places and their names.
ghost use Rattle.std.specs.Prelude.{◌≡◌, List, ℕ, IfOk, true};
ghost use Rattle.std.specs.List.{list_all};
ghost use Rattle.std.specs.Ordering.{nat_cmp};
ghost use Rattle.complex_core.specs.Labels.{IsFace};
ghost use Rattle.complex_core.specs.Rising.{rising};
ghost use Rattle.complex_core.specs.Maps.{at, takes, face_image, turned};
ghost use Rattle.core_laws.specs.Runs.{IsEvent};
ghost use Rattle.flip_names.specs.Names.{named_flip};
ghost use Rattle.job_trace.specs.Traced.{placed};
ghost use Rattle.job_trace.specs.TraceRuns.{HasPlaces};

use complex_core::VertexMap;
use core_laws::Event;
use flip_names::named_flip;
use flip_rules::Flip;
use std::alloc::{AllocError, Global};

/// What a map makes of a label, or 0.
pub(crate) fn number_at(map: &VertexMap, label: u16) -> u16
    ensures { result ≡ at map.now label }
{
    match map.get(label) {
        Some(number) => number,
        None => 0,
    }
}

/// What a map makes of labels, rising.
pub(crate) fn numbers_at(
    alloc: Global,
    map: &VertexMap,
    labels: &[u16],
) -> Result<Vec<u16>, AllocError>
    ensures { IfOk result (λ v. v.items ≡ face_image map.now labels.now) }
{
    let mut numbers = Vec::new(alloc);
    for label in labels {
        numbers.push(number_at(map, *label))?;
    }
    sort_numbers(&mut numbers);
    Ok(numbers)
}

// Sorts numbers, and keeps each once.
fn sort_numbers(numbers: &mut Vec<u16>)
    ensures { numbers.new.items ≡ rising nat_cmp numbers.old.items }
{
    numbers.sort_unstable();
    numbers.dedup();
}

// A flip on the places of its labels.
fn placed_flip(places: &VertexMap, flip: &Flip) -> Flip
    requires first { list_all (takes places.now) flip.now.a ≡ true }
    requires second { list_all (takes places.now) flip.now.b ≡ true }
    ensures placed { result ≡ named_flip places.now flip.now }
    ensures first { IsFace result.a }
    ensures second { IsFace result.b }
{
    let Some(placed) = named_flip(flip, places) else {
        unreachable!()
    };
    let _first = placed.a.len();
    let _second = placed.b.len();
    placed
}

/// An event on the places of its labels.
pub(crate) fn placed_event(places: &VertexMap, event: &Event) -> Event
    requires { HasPlaces places.now event.now }
    ensures placed { (names : List (ℕ × ℕ)) → places.now ≡ turned names → result ≡ placed names event.now }
    ensures event { IsEvent result }
{
    match event {
        Event::Claim { worker, place } => Event::Claim {
            worker: *worker,
            place: number_at(places, *place),
        },
        Event::Flip { worker, flip } => Event::Flip {
            worker: *worker,
            flip: placed_flip(places, flip),
        },
        Event::Rollback { worker } => Event::Rollback { worker: *worker },
        Event::Commit { worker } => Event::Commit { worker: *worker },
        Event::Release { worker, place } => Event::Release {
            worker: *worker,
            place: number_at(places, *place),
        },
    }
}
