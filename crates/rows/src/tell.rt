// Tells a difference, with texts as a table has them.

use crate::case::{Answer, Case, Part};
use crate::run::{Difference, Said};
use std::alloc::Global;
use std::io;

// Tells a text.
fn tell_text(rt: &impl Print, alloc: Global, bytes: &[u8]) -> io::Result<()> {
    let text = String::from_utf8_lossy(alloc, bytes)?;
    for line in text.as_str().split_inclusive('\n') {
        match line.strip_suffix('\n') {
            Some(line) => println!(rt; "| {line}")?,
            None => println!(rt; "\\ {line}")?,
        }
    }
    Ok(())
}

// Tells an answer that would be right.
fn tell_answer(rt: &impl Print, alloc: Global, answer: &Answer) -> io::Result<()> {
    println!(rt; "wanted {}", answer.status)?;
    for part in &answer.parts {
        match part {
            Part::Text(bytes) => tell_text(rt, alloc, bytes)?,
            Part::Number(word) => println!(rt; "? {word}")?,
            Part::Numbers(word) => println!(rt; "?? {word}")?,
        }
    }
    match &answer.check {
        Some(check) => println!(rt; "then {:?}", check.words),
        None => Ok(()),
    }
}

// Tells what words were answered.
fn tell_said(rt: &impl Print, alloc: Global, said: &Said) -> io::Result<()> {
    println!(rt; "got {}", said.status)?;
    tell_text(rt, alloc, &said.text)
}

// Tells what is wanted: the answer of the first run, or one that would be right.
fn tell_wanted(
    rt: &impl Print,
    alloc: Global,
    case: &Case,
    first: &Option<Said>,
) -> io::Result<()> {
    if let Some(said) = first {
        println!(rt; "wanted as the first run")?;
        return tell_said(rt, alloc, said);
    }
    for answer in &case.answers {
        tell_answer(rt, alloc, answer)?;
    }
    Ok(())
}

/// Tells which case differs, what it wants, and what it got.
pub fn tell_difference(
    rt: &impl Print,
    alloc: Global,
    case: &Case,
    difference: &Difference,
) -> io::Result<()> {
    println!(rt; "line {} differs: {}", case.number, case.title)?;
    if let Some(words) = case.runs.get(difference.run) {
        println!(rt; "words {words:?}")?;
    }
    tell_wanted(rt, alloc, case, &difference.first)?;
    tell_said(rt, alloc, &difference.said)
}
