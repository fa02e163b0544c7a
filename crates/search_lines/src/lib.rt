//! What jobs that make searches have in common: the first lines of their answers, and how they end. It touches nothing.
#![tactic(auto)]

ghost use Rattle.std.specs.Prelude.{◌≡◌, IfOk, string_bytes};
ghost use Rattle.search_lines.specs.Lines.{verdict_lines};

use std::alloc::{AllocError, Global};

/// The verdict on a line, and how many rounds were made.
///
/// # Errors
/// `AllocError` where there isn't enough memory.
pub fn verdict_lines(alloc: Global, verdict: &str, rounds: usize) -> Result<String, AllocError>
    ensures { IfOk result (λ t. string_bytes t ≡ verdict_lines verdict.now rounds) }
{
    let mut text = String::from_str(alloc, verdict)?;
    write!(text, "\nrounds {rounds}\n")?;
    Ok(text)
}
