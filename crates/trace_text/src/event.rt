//! Events on lines.

ghost use Rattle.std.specs.Prelude.{◌≡◌, ◌++◌, ◌<◌, ◌≤◌, ℕ, List, [], IfOk, MatchResult, Ok, Err, codes, length};
ghost use Rattle.std.specs.Str.{bytes_eq};
ghost use Rattle.facet_text.specs.Lines.{items};
ghost use Rattle.core_laws.specs.declared.event.Event.{Event as Asked};
ghost use Rattle.line_text.specs.Flips.{flip_at};
ghost use Rattle.trace_text.specs.Grammar.{event_on, events_from, in_line, labels_of, of_flip, of_place, of_worker};
ghost use Rattle.trace_text.specs.Outcomes.{Fails};

use crate::fault::TraceFault;
use crate::part::{count_here, place_here};
use complex_core::VertexMap;
use core_laws::Event;
use facet_text::Word;
use flip_rules::Flip;
use line_text::{Labels, end_here, first_word, read_flip};
use std::alloc::Global;

/// How many workers there may be.
pub(crate) const MOST_WORKERS: u16 = 16;

/// Reads a worker up to the line's end.
#[tactic(auto, unfolding(crate::specs::Grammar::of_worker, crate::specs::Grammar::ended))]
fn read_worker(bytes: &[u8], from: usize) -> Result<(u16, usize), TraceFault>
    requires { from ≤ length bytes.now }
    ensures read { (make : ℕ → Asked) → MatchResult result
        (λ x. of_worker make (items bytes.now from) ≡ Ok (make x.0, items bytes.now x.1))
        (λ e. of_worker make (items bytes.now from) ≡ Err e) }
    ensures offset { IfOk result (λ x. (from < x.1) × (x.1 ≤ length bytes.now)) }
{
    let (worker, offset) = count_here(bytes, from, MOST_WORKERS)?;
    let end = end_here(bytes, offset)?;
    Ok((worker, end))
}

/// Reads a worker and a place up to the line's end.
#[tactic(auto, unfolding(crate::specs::Grammar::of_place, crate::specs::Grammar::ended))]
fn read_place(
    bytes: &[u8],
    from: usize,
    places: &VertexMap,
) -> Result<((u16, u16), usize), TraceFault>
    requires { from ≤ length bytes.now }
    ensures read { (make : ℕ → ℕ → Asked) → MatchResult result
        (λ x. of_place make places.now (items bytes.now from) ≡ Ok (make x.0.0 x.0.1, items bytes.now x.1))
        (λ e. of_place make places.now (items bytes.now from) ≡ Err e) }
    ensures offset { IfOk result (λ x. (from < x.1) × (x.1 ≤ length bytes.now)) }
{
    let (worker, next) = count_here(bytes, from, MOST_WORKERS)?;
    let (place, last) = place_here(bytes, next, places)?;
    let end = end_here(bytes, last)?;
    Ok(((worker, place), end))
}

/// Reads a flip in the labels that have places, and answers it with the place after it.
fn flip_here(bytes: &[u8], from: usize, places: &VertexMap) -> Result<(Flip, usize), TraceFault>
    requires { from ≤ length bytes.now }
    ensures read { MatchResult result
        (λ x. in_line (flip_at (labels_of places.now) (items bytes.now from)) ≡ Ok (x.0, items bytes.now x.1))
        (λ e. in_line (flip_at (labels_of places.now) (items bytes.now from)) ≡ Err e) }
    ensures offset { IfOk result (λ x. (from < x.1) × (x.1 ≤ length bytes.now)) }
{
    let read = read_flip(bytes, from, Labels::Of(places))?;
    Ok(read)
}

/// Reads a worker and a flip up to the line's end.
#[tactic(auto, unfolding(crate::specs::Grammar::of_flip, crate::specs::Grammar::ended))]
fn read_move(bytes: &[u8], from: usize, places: &VertexMap) -> Result<(Event, usize), TraceFault>
    requires { from ≤ length bytes.now }
    ensures read { MatchResult result
        (λ x. of_flip places.now (items bytes.now from) ≡ Ok (x.0, items bytes.now x.1))
        (λ e. of_flip places.now (items bytes.now from) ≡ Err e) }
    ensures offset { IfOk result (λ x. (from < x.1) × (x.1 ≤ length bytes.now)) }
{
    let (worker, middle) = count_here(bytes, from, MOST_WORKERS)?;
    let (flip, last) = flip_here(bytes, middle, places)?;
    let end = end_here(bytes, last)?;
    Ok((Event::Flip { worker, flip }, end))
}

fn is_named(text: &[u8], name: &[u8]) -> bool
    ensures { result ≡ bytes_eq text.now name.now }
{
    text == name
}

/// Reads the event on a line that begins with this word, and answers it with the place of the
/// line's end.
#[tactic(auto, unfolding(crate::specs::Grammar::event_on))]
fn read_event(
    bytes: &[u8],
    word: &Word<'_>,
    places: &VertexMap,
) -> Result<(Event, usize), TraceFault>
    requires { word.now.end ≤ length bytes.now }
    ensures read { MatchResult result
        (λ x. event_on places.now word.now.text.now word.now.start (items bytes.now word.now.end) ≡ Ok (x.0, items bytes.now x.1))
        (λ e. event_on places.now word.now.text.now word.now.start (items bytes.now word.now.end) ≡ Err e) }
    ensures offset { IfOk result (λ x. (word.now.end < x.1) × (x.1 ≤ length bytes.now)) }
{
    if is_named(word.text, b"claim") {
        let ((worker, place), end) = read_place(bytes, word.end, places)?;
        return Ok((Event::Claim { worker, place }, end));
    }
    if is_named(word.text, b"flip") {
        return read_move(bytes, word.end, places);
    }
    if is_named(word.text, b"rollback") {
        let (worker, end) = read_worker(bytes, word.end)?;
        return Ok((Event::Rollback { worker }, end));
    }
    if is_named(word.text, b"commit") {
        let (worker, end) = read_worker(bytes, word.end)?;
        return Ok((Event::Commit { worker }, end));
    }
    if is_named(word.text, b"release") {
        let ((worker, place), end) = read_place(bytes, word.end, places)?;
        return Ok((Event::Release { worker, place }, end));
    }
    Err(TraceFault::Syntax(word.start))
}

/// Reads all events, to the end of the input.
pub(crate) fn read_events(
    alloc: Global,
    bytes: &[u8],
    from: usize,
    places: &VertexMap,
) -> Result<Vec<Event>, TraceFault>
    requires { from ≤ length bytes.now }
    ensures read { MatchResult result
        (λ v. events_from places.now [] (items bytes.now from) ≡ Ok v.items)
        (λ e. Fails e (events_from places.now [] (items bytes.now from))) }
    ensures few { IfOk result (λ v. length v.items ≤ length bytes.now) }
{
    let mut events = Vec::new(alloc);
    let mut offset = from;
    'events: while let Some(word) = first_word(bytes, offset) {
        let (event, end) = read_event(bytes, &word, places)?;
        events.push(event)?;
        offset = end;
    }
    Ok(events)
}
