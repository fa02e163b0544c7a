// Runs a case.

use crate::case::{Answer, Case, Check, Giving, Part, Taking};
use flip_io::{MemSink, MemSource};
use held_stars::OpenGate;
use job_run::run_job;
use std::alloc::{AllocError, Global};
use std::thread::Threads;

/// What words were answered.
#[derive(Drop)]
pub struct Said {
    /// The number of the status.
    pub status: u8,
    /// What was written.
    pub text: Vec<u8>,
}

/// A run of a case with an answer that isn't right, or isn't that of the first run where it must be.
#[derive(Drop)]
pub struct Difference {
    /// How many runs of the case stand before it.
    pub run: usize,
    /// The answer.
    pub said: Said,
    /// What the first run was answered, where the answer is right and only differs from this.
    pub first: Option<Said>,
}

// Does the job of some words, with gates that let every try go on.
fn ask<R: Threads + Sync>(
    rt: &R,
    alloc: Global,
    words: &[String],
    mut source: MemSource,
    mut sink: MemSink,
) -> Result<Said, AllocError> {
    let mut gates = [OpenGate; 16];
    let answer = run_job(rt, alloc, words, &mut source, &mut sink, &mut gates);
    Ok(Said {
        status: answer.status.number(),
        text: sink.bytes().to_vec(alloc)?,
    })
}

// A source of these bytes.
fn source_of(bytes: Vec<u8>, giving: &Giving) -> Result<MemSource, AllocError> {
    Ok(MemSource::new(bytes, giving.piece.get(), giving.fails.clone()?))
}

// A sink that has taken nothing.
fn sink_of(alloc: Global, taking: &Taking) -> Result<MemSink, AllocError> {
    MemSink::new(alloc, taking.room, taking.piece, taking.fails.clone()?)
}

// What stands behind a blank and a number without a needless zero.
fn behind_number(text: &[u8]) -> Option<&[u8]> {
    let text = text.strip_prefix(b" ")?;
    let count = text.iter().position(|byte| !byte.is_ascii_digit())?;
    let (digits, rest) = text.split_at(count);
    match digits {
        [] | [b'0', _, ..] => None,
        _ => Some(rest),
    }
}

// What stands behind some numbers, each behind a blank, and a line feed.
fn behind_numbers(text: &[u8]) -> Option<&[u8]> {
    let mut rest = behind_number(text)?;
    for _ in 0..text.len() {
        if let Some(behind) = rest.strip_prefix(b"\n") {
            return Some(behind);
        }
        rest = behind_number(rest)?;
    }
    None
}

// What stands behind these parts.
fn behind_parts<'t>(parts: &[Part], text: &'t [u8]) -> Option<&'t [u8]> {
    let mut rest = text;
    for part in parts {
        rest = match part {
            Part::Text(bytes) => rest.strip_prefix(bytes.as_slice())?,
            Part::Number(word) => {
                behind_number(rest.strip_prefix(word.as_bytes())?)?.strip_prefix(b"\n")?
            }
            Part::Numbers(word) => behind_numbers(rest.strip_prefix(word.as_bytes())?)?,
        };
    }
    Some(rest)
}

// Whether words say yes to the rest of an answer.
fn shows<R: Threads + Sync>(
    rt: &R,
    alloc: Global,
    check: &Check,
    rest: &[u8],
) -> Result<bool, AllocError> {
    let mut input = check.text.clone()?;
    input.extend_from_slice(rest)?;
    let source = source_of(input, &Giving::usual(alloc))?;
    let sink = sink_of(alloc, &Taking::usual(alloc))?;
    let said = ask(rt, alloc, &check.words, source, sink)?;
    Ok(said.status == 0 && said.text.as_slice().starts_with(b"yes\n"))
}

// Whether an answer is this one.
fn is_answer<R: Threads + Sync>(
    rt: &R,
    alloc: Global,
    said: &Said,
    answer: &Answer,
) -> Result<bool, AllocError> {
    if said.status != answer.status {
        return Ok(false);
    }
    let Some(rest) = behind_parts(&answer.parts, &said.text) else {
        return Ok(false);
    };
    match &answer.check {
        Some(check) => shows(rt, alloc, check, rest),
        None => Ok(rest.is_empty()),
    }
}

// Whether an answer is one of these.
fn is_right<R: Threads + Sync>(
    rt: &R,
    alloc: Global,
    said: &Said,
    answers: &[Answer],
) -> Result<bool, AllocError> {
    for answer in answers {
        if is_answer(rt, alloc, said, answer)? {
            return Ok(true);
        }
    }
    Ok(false)
}

// Whether two answers have the same bytes and the same status.
fn same(one: &Said, other: &Said) -> bool {
    one.status == other.status && one.text == other.text
}

// What the words of a run are answered.
fn ask_case<R: Threads + Sync>(
    rt: &R,
    alloc: Global,
    case: &Case,
    words: &[String],
) -> Result<Said, AllocError> {
    let source = source_of(case.input.clone()?, &case.giving)?;
    let sink = sink_of(alloc, &case.taking)?;
    ask(rt, alloc, words, source, sink)
}

/// The first run of a case whose answer isn't right, or isn't that of the first run where all must be
/// alike, if there is one.
pub fn first_difference<R: Threads + Sync>(
    rt: &R,
    alloc: Global,
    case: &Case,
) -> Result<Option<Difference>, AllocError> {
    let mut first = None;
    for (run, words) in case.runs.iter().enumerate() {
        let said = ask_case(rt, alloc, case, words)?;
        if !is_right(rt, alloc, &said, &case.answers)? {
            let first = None;
            return Ok(Some(Difference { run, said, first }));
        }
        match &first {
            None => first = Some(said),
            Some(before) if !case.alike || same(before, &said) => {}
            Some(_) => return Ok(Some(Difference { run, said, first })),
        }
    }
    Ok(None)
}
