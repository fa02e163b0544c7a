// The text that a trace is answered with.
ghost use Rattle.std.specs.Prelude.{◌≡◌, ◌++◌, ℕ, true, length, Err, OnOk, IfOk, string_bytes};
ghost use Rattle.std.specs.List.{flat_map, list_all};
ghost use Rattle.complex_core.specs.Maps.{takes_all};
ghost use Rattle.core_laws.specs.Cores.{complex_of};
ghost use Rattle.job_answer.specs.Lines.{flip_line};
ghost use Rattle.flip_names.specs.Names.{named_flip};
ghost use Rattle.job_trace.specs.TraceTexts.{refusal_text, answer_line, pending_line, pending_lines, entry_lines, journal_lines, history_lines, verdict_line};
ghost use Rattle.job_trace.specs.Traced.{is_nothing};
ghost use Rattle.job_trace.specs.TraceRuns.{entry_line};

use crate::place::{number_at, numbers_at};
use complex_core::VertexMap;
use core_laws::Refused;
use flip_rules::{Entry, Flip, Journal};
use flip_world::World;
use job_answer::{reason_name, write_complex_line, write_sides_line};
use std::alloc::{AllocError, Global};

// Writes why an event was refused.
fn write_reason(text: &mut String, names: &VertexMap, reason: Refused) -> Result<(), AllocError>
    ensures { OnOk result (string_bytes text.new ≡ string_bytes text.old ++ refusal_text names.now reason) }
{
    match reason {
        Refused::NoWorker => text.push_str("no worker")?,
        Refused::NoPlace(place) => {
            let name = number_at(names, place);
            write!(text, "no place {name}")?;
        }
        Refused::Busy { place, owner } => {
            let name = number_at(names, place);
            write!(text, "busy {name}")?;
            write!(text, " owner {owner}")?;
        }
        Refused::NotHeld(place) => {
            let name = number_at(names, place);
            write!(text, "not held {name}")?;
        }
        Refused::Illegal(illegal) => {
            text.push_str("illegal ")?;
            text.push_str(reason_name(illegal))?;
        }
        Refused::NoFlips => text.push_str("no flips")?,
        Refused::Pending(count) => write!(text, "pending {count}")?,
    }
    Ok(())
}

/// Writes the line of a refused event.
pub(crate) fn write_refusal(
    text: &mut String,
    names: &VertexMap,
    number: usize,
    reason: Refused,
) -> Result<(), AllocError>
    ensures { OnOk result (string_bytes text.new ≡ string_bytes text.old ++ answer_line names.now number (Err reason)) }
{
    write!(text, "event {number} ")?;
    write_reason(text, names, reason)?;
    text.push('\n')?;
    Ok(())
}

// Writes a line for a worker with pending flips.
fn write_pending_of(text: &mut String, worker: u16, flips: &[Flip]) -> Result<(), AllocError>
    ensures { OnOk result (string_bytes text.new ≡ string_bytes text.old ++ pending_line worker flips.now) }
{
    let count = flips.len();
    if count != 0 {
        write!(text, "pending {worker} {count}\n")?;
    }
    Ok(())
}

/// Writes a line for each worker with pending flips. Whether there is none.
pub(crate) fn write_pending(
    text: &mut String,
    world: &World,
    workers: u16,
) -> Result<bool, AllocError>
    requires { length world.now.pending ≡ workers }
    ensures text { OnOk result (string_bytes text.new ≡ string_bytes text.old ++ pending_lines 1 world.now.pending) }
    ensures nothing { IfOk result (λ nothing. nothing ≡ list_all is_nothing world.now.pending) }
{
    let mut nothing = true;
    for seat in 0..workers {
        let flips = world.pending(seat + 1);
        write_pending_of(text, seat + 1, flips)?;
        nothing = nothing && flips.is_empty();
    }
    Ok(nothing)
}

// Writes the line of a flip in the names of its places.
fn write_named_flip(
    alloc: Global,
    text: &mut String,
    names: &VertexMap,
    flip: &Flip,
) -> Result<(), AllocError>
    ensures { OnOk result (string_bytes text.new ≡ string_bytes text.old ++ flip_line (named_flip names.now flip.now)) }
{
    let first = numbers_at(alloc, names, &flip.a.labels())?;
    let second = numbers_at(alloc, names, &flip.b.labels())?;
    write_sides_line(text, &first, &second)
}

// Writes the lines of flips in the names of their places.
fn write_named_flips(
    alloc: Global,
    text: &mut String,
    names: &VertexMap,
    flips: &[Flip],
) -> Result<(), AllocError>
    ensures { OnOk result (string_bytes text.new ≡ string_bytes text.old ++ flat_map (λ f. flip_line (named_flip names.now f)) flips.now) }
{
    for flip in flips {
        write_named_flip(alloc, text, names, flip)?;
    }
    Ok(())
}

// Writes the first line of an entry.
fn write_entry_line(
    text: &mut String,
    worker: u16,
    seq: u32,
    count: usize,
) -> Result<(), AllocError>
    ensures { OnOk result (string_bytes text.new ≡ string_bytes text.old ++ entry_line worker seq count) }
{
    write!(text, "entry worker {worker}")?;
    write!(text, " seq {seq}")?;
    write!(text, " flips {count}\n")?;
    Ok(())
}

// Writes the lines of an entry.
fn write_entry(
    alloc: Global,
    text: &mut String,
    names: &VertexMap,
    entry: &Entry,
) -> Result<(), AllocError>
    ensures { OnOk result (string_bytes text.new ≡ string_bytes text.old ++ entry_lines names.now entry.now) }
{
    let flips = entry.flips();
    write_entry_line(text, entry.worker(), entry.seq(), flips.len())?;
    write_named_flips(alloc, text, names, flips)
}

// Writes the lines of entries.
fn write_entries(
    alloc: Global,
    text: &mut String,
    names: &VertexMap,
    entries: &[Entry],
) -> Result<(), AllocError>
    ensures { OnOk result (string_bytes text.new ≡ string_bytes text.old ++ flat_map (entry_lines names.now) entries.now) }
{
    for entry in entries {
        write_entry(alloc, text, names, entry)?;
    }
    Ok(())
}

// Writes the lines of a journal.
fn write_journal(
    alloc: Global,
    text: &mut String,
    names: &VertexMap,
    journal: &Journal,
) -> Result<(), AllocError>
    ensures { OnOk result (string_bytes text.new ≡ string_bytes text.old ++ journal_lines names.now journal.now) }
{
    let entries = journal.entries();
    let count = entries.len();
    write!(text, "entries {count}\n")?;
    write_entries(alloc, text, names, entries)
}

/// A text with the journal and the complex that it leads to behind it, in the names of the places.
pub(crate) fn with_history(
    alloc: Global,
    mut text: String,
    names: &VertexMap,
    world: &World,
) -> Result<Vec<u8>, AllocError>
    requires { takes_all names.now (complex_of world.now).facets ≡ true }
    ensures { IfOk result (λ t. t.items ≡ string_bytes text ++ history_lines names.now world.now) }
{
    write_journal(alloc, &mut text, names, world.journal())?;
    let complex = world.complex()?;
    let Some(named) = complex.relabel(names)? else {
        unreachable!();
    };
    let mut bytes = text.into_bytes();
    write_complex_line(&mut bytes, &named)?;
    Ok(bytes)
}

/// The line of the verdict.
pub(crate) fn verdict_line(alloc: Global, clean: bool) -> Result<String, AllocError>
    ensures { IfOk result (λ t. string_bytes t ≡ verdict_line clean) }
{
    if clean {
        String::from_str(alloc, "yes\n")
    } else {
        String::from_str(alloc, "no\n")
    }
}
