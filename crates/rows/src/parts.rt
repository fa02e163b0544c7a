// Reads the parts of a case.

use crate::case::{Answer, Check, Giving, Part, Taking};
use crate::fault::Fault;
use crate::line::Lines;
use crate::text::{Named, plain, read_text};
use std::alloc::Global;
use std::num::NonZeroUsize;

// The words of a line, which was passed over.
fn read_words(alloc: Global, lines: &Lines<'_>, line: &str) -> Result<Vec<String>, Fault> {
    let mut words = Vec::new(alloc);
    if line.is_empty() {
        return Ok(words);
    }
    for spelled in line.split(' ') {
        match plain(alloc, spelled)? {
            Some(word) => words.push(word)?,
            None => return Err(lines.fault("a backslash with no letter that it goes with")),
        }
    }
    Ok(words)
}

/// Reads the words of each run.
pub fn read_runs(alloc: Global, lines: &mut Lines<'_>) -> Result<Vec<Vec<String>>, Fault> {
    let mut runs = Vec::new(alloc);
    for _ in 0..lines.count() {
        let Some(line) = lines.take("words") else {
            break;
        };
        runs.push(read_words(alloc, lines, line)?)?;
    }
    if runs.is_empty() {
        Err(lines.fault_ahead("words are wanted here"))
    } else {
        Ok(runs)
    }
}

/// Reads whether all runs must be answered alike.
pub fn read_alike(lines: &mut Lines<'_>) -> Result<bool, Fault> {
    match lines.take("alike") {
        Some(behind) if behind.is_empty() => Ok(true),
        Some(_) => Err(lines.fault("nothing stands behind `alike`")),
        None => Ok(false),
    }
}

// The first word of a line, and the words behind it.
fn first_word(line: &str) -> (&str, &str) {
    line.split_once(' ').unwrap_or((line, ""))
}

// The numbers of calls.
fn read_calls(alloc: Global, lines: &Lines<'_>, words: &str) -> Result<Vec<u64>, Fault> {
    let mut calls = Vec::new(alloc);
    if words.is_empty() {
        return Ok(calls);
    }
    for word in words.split(' ') {
        match word.parse::<u64>() {
            Ok(call) => calls.push(call)?,
            Err(_) => return Err(lines.fault("no number of a call")),
        }
    }
    Ok(calls)
}

/// Reads how a source gives bytes, if it is said.
pub fn read_giving(alloc: Global, lines: &mut Lines<'_>) -> Result<Giving, Fault> {
    let Some(line) = lines.take("source") else {
        return Ok(Giving::usual(alloc));
    };
    let (piece, calls) = first_word(line);
    let Ok(piece) = piece.parse::<NonZeroUsize>() else {
        return Err(lines.fault("a source has to give at least a byte for a call"));
    };
    let fails = read_calls(alloc, lines, calls)?;
    Ok(Giving { piece, fails })
}

/// Reads how a sink takes bytes, if it is said.
pub fn read_taking(alloc: Global, lines: &mut Lines<'_>) -> Result<Taking, Fault> {
    let Some(line) = lines.take("sink") else {
        return Ok(Taking::usual(alloc));
    };
    let (piece, behind) = first_word(line);
    let (room, calls) = first_word(behind);
    let (Ok(piece), Ok(room)) = (piece.parse::<usize>(), room.parse::<usize>()) else {
        return Err(lines.fault("a sink has to say how many bytes it takes for a call and in all"));
    };
    let fails = read_calls(alloc, lines, calls)?;
    Ok(Taking { piece, room, fails })
}

// Leaves as many bytes of an input as a line says.
fn cut(lines: &Lines<'_>, line: &str, input: &mut Vec<u8>) -> Result<(), Fault> {
    match line.parse::<usize>() {
        Ok(count) if count <= input.len() => {
            input.truncate(count);
            Ok(())
        }
        _ => Err(lines.fault("no number of bytes that the input has")),
    }
}

// Fills an input up, as a line says.
fn pad(lines: &Lines<'_>, line: &str, input: &mut Vec<u8>) -> Result<(), Fault> {
    let (count, filling) = first_word(line);
    let byte = match filling.as_bytes() {
        [] => b' ',
        [byte] => *byte,
        _ => return Err(lines.fault("an input is filled up with one byte")),
    };
    match count.parse::<usize>() {
        Ok(count) if input.len() <= count => Ok(input.resize(count, byte)?),
        _ => Err(lines.fault("a number of bytes that is less than the input has")),
    }
}

/// Reads an input.
pub fn read_input(alloc: Global, lines: &mut Lines<'_>, texts: &[Named]) -> Result<Vec<u8>, Fault> {
    match lines.take("input") {
        Some(behind) if behind.is_empty() => {}
        Some(_) => return Err(lines.fault("the bytes of an input stand in the lines below")),
        None => return Err(lines.fault_ahead("an input is wanted here")),
    }
    let mut input = read_text(alloc, lines, texts)?;
    if let Some(line) = lines.take("cut") {
        cut(lines, line, &mut input)?;
    }
    if let Some(line) = lines.take("pad") {
        pad(lines, line, &mut input)?;
    }
    Ok(input)
}

// Reads what the text of an answer begins with.
fn read_parts(alloc: Global, lines: &mut Lines<'_>, texts: &[Named]) -> Result<Vec<Part>, Fault> {
    let mut parts = Vec::new(alloc);
    for _ in 0..lines.count() {
        let text = read_text(alloc, lines, texts)?;
        parts.push(Part::Text(text))?;
        if let Some(word) = lines.take("?") {
            parts.push(Part::Number(String::from_str(alloc, word)?))?;
        } else if let Some(word) = lines.take("??") {
            parts.push(Part::Numbers(String::from_str(alloc, word)?))?;
        } else {
            break;
        }
    }
    Ok(parts)
}

// Reads what the rest of an answer has to show, if anything.
fn read_check(
    alloc: Global,
    lines: &mut Lines<'_>,
    texts: &[Named],
) -> Result<Option<Check>, Fault> {
    let Some(line) = lines.take("then") else {
        return Ok(None);
    };
    let words = read_words(alloc, lines, line)?;
    let text = read_text(alloc, lines, texts)?;
    Ok(Some(Check { words, text }))
}

/// Reads the answers that are right.
pub fn read_answers(
    alloc: Global,
    lines: &mut Lines<'_>,
    texts: &[Named],
) -> Result<Vec<Answer>, Fault> {
    let mut answers = Vec::new(alloc);
    for _ in 0..lines.count() {
        let Some(status) = lines.take("answer") else {
            break;
        };
        let Ok(status) = status.parse::<u8>() else {
            return Err(lines.fault("no status"));
        };
        let parts = read_parts(alloc, lines, texts)?;
        let check = read_check(alloc, lines, texts)?;
        answers.push(Answer {
            status,
            parts,
            check,
        })?;
    }
    if answers.is_empty() {
        Err(lines.fault_ahead("an answer is wanted here"))
    } else {
        Ok(answers)
    }
}
