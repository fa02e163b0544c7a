//! The words of the command line: the job that they ask for, with its options.
#![tactic(auto)]

mod command;
mod job;
mod laws;
mod words;

pub use job::{Job, JobName, UsageFault};
pub use laws::{asked_exactly, name_alone, words_decide};
pub use words::read_words;
