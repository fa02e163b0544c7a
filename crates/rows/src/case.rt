// A case of a table, and what it wants.

use std::alloc::Global;
use std::num::NonZeroUsize;

/// A case.
#[derive(Drop)]
pub struct Case {
    /// The number of its first line.
    pub number: usize,
    /// What it shows.
    pub title: String,
    /// The words of each run.
    pub runs: Vec<Vec<String>>,
    /// Whether all runs must be answered alike.
    pub alike: bool,
    /// How the source gives the input.
    pub giving: Giving,
    /// How the sink takes the answer.
    pub taking: Taking,
    /// The bytes of the input.
    pub input: Vec<u8>,
    /// The answers that are right.
    pub answers: Vec<Answer>,
}

/// How a source gives bytes.
#[derive(Drop)]
pub struct Giving {
    /// How many bytes it gives at most for a call.
    pub piece: NonZeroUsize,
    /// The calls that fail, counted from 1.
    pub fails: Vec<u64>,
}

impl Giving {
    /// As it is where a case doesn't say it.
    pub fn usual(alloc: Global) -> Self {
        Giving {
            piece: NonZeroUsize::MIN.saturating_add(4095),
            fails: Vec::new(alloc),
        }
    }
}

/// How a sink takes bytes.
#[derive(Drop)]
pub struct Taking {
    /// How many bytes it takes at most for a call.
    pub piece: usize,
    /// How many bytes it has room for.
    pub room: usize,
    /// The calls that fail, counted from 1.
    pub fails: Vec<u64>,
}

impl Taking {
    /// As it is where a case doesn't say it.
    pub fn usual(alloc: Global) -> Self {
        Taking {
            piece: 4096,
            room: 1_048_576,
            fails: Vec::new(alloc),
        }
    }
}

/// An answer that is right.
#[derive(Drop)]
pub struct Answer {
    /// The number of its status.
    pub status: u8,
    /// What its text begins with.
    pub parts: Vec<Part>,
    /// What the rest of the text has to show. Where it is left out, there is no rest.
    pub check: Option<Check>,
}

/// A part of a text.
#[derive(Drop)]
pub enum Part {
    /// These bytes.
    Text(Vec<u8>),
    /// A line of this word and a number.
    Number(String),
    /// A line of this word and at least one number.
    Numbers(String),
}

/// Words that say yes to a text with the rest of an answer behind it.
#[derive(Drop)]
pub struct Check {
    /// The words.
    pub words: Vec<String>,
    /// The text.
    pub text: Vec<u8>,
}
