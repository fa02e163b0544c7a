// Reads a table of cases.

use crate::case::Case;
use crate::fault::Fault;
use crate::line::{Lines, lines_of};
use crate::parts::{read_alike, read_answers, read_giving, read_input, read_runs, read_taking};
use crate::text::{Named, read_named};
use std::alloc::Global;

// Reads a case, whose title was read.
fn read_case(
    alloc: Global,
    lines: &mut Lines<'_>,
    title: &str,
    texts: &[Named],
) -> Result<Case, Fault> {
    if title.is_empty() {
        return Err(lines.fault("a case has to say what it shows"));
    }
    let number = lines.number();
    let title = String::from_str(alloc, title)?;
    let runs = read_runs(alloc, lines)?;
    let alike = read_alike(lines)?;
    let giving = read_giving(alloc, lines)?;
    let taking = read_taking(alloc, lines)?;
    let input = read_input(alloc, lines, texts)?;
    let answers = read_answers(alloc, lines, texts)?;
    Ok(Case {
        number,
        title,
        runs,
        alike,
        giving,
        taking,
        input,
        answers,
    })
}

/// The cases of a table, at least one.
pub fn read_cases(alloc: Global, table: &str) -> Result<Vec<Case>, Fault> {
    let all = lines_of(alloc, table)?;
    let mut lines = Lines::new(&all);
    let mut texts = Vec::new(alloc);
    let mut cases = Vec::new(alloc);
    for _ in 0..lines.count() {
        if let Some(name) = lines.take("text") {
            read_named(alloc, &mut lines, name, &mut texts)?;
        } else if let Some(title) = lines.take("case") {
            cases.push(read_case(alloc, &mut lines, title, &texts)?)?;
        } else if lines.count() == 0 {
            break;
        } else {
            return Err(lines.fault_ahead("a text or a case is wanted here"));
        }
    }
    if cases.is_empty() {
        Err(Fault::NoCases)
    } else {
        Ok(cases)
    }
}
