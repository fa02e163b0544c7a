// The lines of a table, and the way through them.

use crate::fault::Fault;
use std::alloc::{AllocError, Global};

/// A line that says something.
#[derive(Clone, Copy)]
pub struct Line<'a> {
    /// Its number, from 1.
    pub number: usize,
    /// What stands before the first blank.
    pub key: &'a str,
    /// What stands behind it.
    pub rest: &'a str,
}

/// The lines of a table that say something.
pub fn lines_of<'a>(alloc: Global, table: &'a str) -> Result<Vec<Line<'a>>, AllocError> {
    let mut lines = Vec::new(alloc);
    for (index, text) in table.split_terminator('\n').enumerate() {
        if !text.is_empty() && !text.starts_with('#') {
            let (key, rest) = text.split_once(' ').unwrap_or((text, ""));
            lines.push(Line {
                number: index.saturating_add(1),
                key,
                rest,
            })?;
        }
    }
    Ok(lines)
}

/// The lines of a table, and how many of them were passed over.
#[derive(Drop)]
pub struct Lines<'a> {
    all: &'a [Line<'a>],
    passed: usize,
}

impl<'a> Lines<'a> {
    /// These lines, with none passed over.
    pub fn new(all: &'a [Line<'a>]) -> Self {
        Lines { all, passed: 0 }
    }

    /// How many lines are left.
    pub fn count(&self) -> usize {
        self.all.len().saturating_sub(self.passed)
    }

    // The next line.
    fn next(&self) -> Option<Line<'a>> {
        self.all.get(self.passed).copied()
    }

    /// What stands behind the key in the next line, where it has this key. Then it is passed over.
    pub fn take(&mut self, key: &str) -> Option<&'a str> {
        match self.next() {
            Some(line) if line.key == key => {
                self.passed = self.passed.saturating_add(1);
                Some(line.rest)
            }
            _ => None,
        }
    }

    /// The number of the line that was passed over last, or 0.
    pub fn number(&self) -> usize {
        let last = self.passed.saturating_sub(1);
        self.all.get(last).map_or(0, |line| line.number)
    }

    /// A fault of the line that was passed over last.
    pub fn fault(&self, wrong: &'static str) -> Fault {
        Fault::Line {
            number: self.number(),
            wrong,
        }
    }

    /// A fault of the next line, or of the last one where none is left.
    pub fn fault_ahead(&self, wrong: &'static str) -> Fault {
        let number = match self.next() {
            Some(line) => line.number,
            None => self.number(),
        };
        Fault::Line { number, wrong }
    }
}
