//! Runs a table of cases, its standard input, through the top call of the program: words, the bytes of an input, and the exact
//! bytes and the status that they are answered with. It says how many cases stand, or tells the first one that differs, or
//! what is wrong with the table.
//!
//! A line of the table is a key and what stands behind it and a blank. Empty lines and lines that begin with `#` are passed over.
//!
//! - `text NAME` names the text of the lines behind it: `| LINE` is a line with its line feed, `\ LINE` one without, and
//!   `& NAME` the text of that name. In a line `\t` is a tab, `\r` a carriage return, and `\\` a backslash.
//! - `case TITLE` begins a case, which has these parts in this order:
//!     - `words WORDS`, once or more: each line is one run of the case. The words have a blank between them. In a word `\s` is a
//!       blank, and `\e` nothing, so that `\e` is an empty word; `words` alone says no words.
//!     - `alike`, if need be: all runs of the case must write the same bytes with the same status, beside being right.
//!     - `source PIECE CALL ..`, if need be: how many bytes the source gives at most for a call, and the calls that fail,
//!       counted from 1.
//!     - `sink PIECE ROOM CALL ..`, if need be: the same for the sink, which has room for so many bytes.
//!     - `input`, and a text behind it, or none. `cut COUNT` leaves so many bytes of it, `pad COUNT` or `pad COUNT BYTE` fills it up
//!       to so many bytes, with blanks or with that byte.
//!     - `answer STATUS`, once or more: an answer that is right, and its text, in which `? WORD` is a line of that word and a
//!       number, and `?? WORD` one of that word and some numbers. Behind it may stand `then WORDS` and a text: the rest of what
//!       was written, put behind this text, must be answered by these words with status 0 and a first line `yes`.
#![tactic(auto)]

mod case;
mod fault;
mod line;
mod parts;
mod run;
mod table;
mod tell;
mod text;

use case::Case;
use fault::Fault;
use flip_io::{ReadAllFault, StdSource, read_all};
use run::first_difference;
use std::alloc::Global;
use std::io;
use std::process::ExitCode;
use std::thread::Threads;

// The most bytes of a table.
const LIMIT: usize = 16_777_216;

// The table of standard input.
fn read_table(rt: &HostRuntime) -> Result<Vec<Case>, Fault> {
    let alloc = rt.alloc();
    match read_all(alloc, &mut StdSource::new(rt.stdin()), LIMIT) {
        Ok(bytes) => match String::from_utf8(bytes) {
            Ok(table) => table::read_cases(alloc, table.as_str()),
            Err(_) => Err(Fault::Read("the table is no text")),
        },
        Err(ReadAllFault::Memory) => Err(Fault::Memory),
        Err(ReadAllFault::Fault) => Err(Fault::Read("the table could not be read")),
        Err(ReadAllFault::TooLong(_)) => Err(Fault::Read("the table is too long")),
    }
}

// Runs the cases up to the first one that differs.
fn run_cases<R: Threads + Sync + Print>(
    rt: &R,
    alloc: Global,
    cases: &[Case],
) -> io::Result<ExitCode> {
    for case in cases {
        if let Some(difference) = first_difference(rt, alloc, case)? {
            tell::tell_difference(rt, alloc, case, &difference)?;
            return Ok(ExitCode::FAILURE);
        }
    }
    println!(rt; "{} cases stand", cases.len())?;
    Ok(ExitCode::SUCCESS)
}

fn main(rt: HostRuntime) -> io::Result<ExitCode> {
    match read_table(&rt) {
        Ok(cases) => run_cases(&rt, rt.alloc(), &cases),
        Err(fault) => {
            println!(rt; "{fault}")?;
            Ok(ExitCode::FAILURE)
        }
    }
}
