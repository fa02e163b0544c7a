//! The text of a complex, and the words of the lines that may follow it.
#![tactic(auto)]

mod fault;
mod law;
mod read;
mod token;
mod word;
mod write;

pub use fault::TextFault;
pub use law::{read_is_spelled, spelled_is_read};
pub use read::read_complex;
pub use token::{Token, TokenKind, next_token};
pub use word::{Word, next_word};
pub use write::{write_complex, written_is_read};
