//! Words, numbers and flips of texts that are read by lines.
#![tactic(auto)]

mod fault;
mod flip;
mod label;
mod number;
mod word;
mod write;

pub use fault::LineFault;
pub use flip::read_flip;
pub use label::{Labels, label_of};
pub use number::{Number, begins_with_digit, is_number, number_here, number_of};
pub use word::{end_here, first_word, word_here};
pub use write::{write_flip, write_number, written_flip_is_read};
