// Why an input is refused.
ghost use Rattle.std.specs.Prelude.{◌≡◌, IfOk, codes, string_bytes};
ghost use Rattle.job_answer.specs.Faults.{bad_line, bad_line_at, fault_line, of_text};
ghost use Rattle.job_answer.specs.declared.fault.Fault.TheVariants.{Memory};

use facet_text::TextFault;
use std::alloc::{AllocError, Global};

/// Why an input is refused: its first fault from left to right, and behind them the first complex that the job can't take. An
/// offset counts the bytes before it.
#[derive(Clone, Copy)]
pub enum Fault {
    /// More bytes than the job takes.
    TooLong,
    /// A token or a word that isn't allowed there, or an end too early.
    Syntax(usize),
    /// A label out of its range, or one that stood before.
    Label(usize),
    /// A label that stood in this facet before.
    Twice(usize),
    /// A facet with one label or with an eighth one.
    Size(usize),
    /// A facet with another number of labels than the first one.
    NotPure(usize),
    /// More than 20,000 distinct facets.
    TooManyFacets,
    /// More than 4,096 distinct labels.
    TooManyLabels,
    /// Another line than was counted, or one more.
    Count(usize),
    /// A number out of its range.
    Number(usize),
    /// The first complex, or the second, is none of this job.
    Unfit(u32),
    /// Memory ran out.
    Memory,
}

impl From<TextFault> for Fault {
    ghost from_gives = { λ e f. f ≡ of_text e };

    fn from(e: TextFault) -> Fault {
        match e {
            TextFault::Syntax(offset) => Fault::Syntax(offset),
            TextFault::Label(offset) => Fault::Label(offset),
            TextFault::Twice(offset) => Fault::Twice(offset),
            TextFault::Size(offset) => Fault::Size(offset),
            TextFault::NotPure(offset) => Fault::NotPure(offset),
            TextFault::TooManyFacets => Fault::TooManyFacets,
            TextFault::TooManyLabels => Fault::TooManyLabels,
            TextFault::Memory => Fault::Memory,
        }
    }
}

// The line of a fault without an offset.
fn line(alloc: Global, words: &str) -> Result<String, AllocError>
    ensures { IfOk result (λ t. string_bytes t ≡ bad_line words.now) }
{
    let mut text = String::from_str(alloc, "bad input ")?;
    text.push_str(words)?;
    text.push('\n')?;
    Ok(text)
}

// The line of a fault with a number.
fn line_at(alloc: Global, words: &str, number: usize) -> Result<String, AllocError>
    ensures { IfOk result (λ t. string_bytes t ≡ bad_line_at words.now number) }
{
    let mut text = String::from_str(alloc, "bad input ")?;
    text.push_str(words)?;
    write!(text, " {number}\n")?;
    Ok(text)
}

/// The line of a fault.
pub(crate) fn fault_line(alloc: Global, fault: Fault) -> Result<String, AllocError>
    ensures line { IfOk result (λ t. string_bytes t ≡ fault_line fault) }
    ensures fault { IfOk result (λ t. fault ≡ Memory → ⊥) }
{
    match fault {
        Fault::TooLong => line(alloc, "too long"),
        Fault::Syntax(offset) => line_at(alloc, "syntax", offset),
        Fault::Label(offset) => line_at(alloc, "label", offset),
        Fault::Twice(offset) => line_at(alloc, "twice", offset),
        Fault::Size(offset) => line_at(alloc, "size", offset),
        Fault::NotPure(offset) => line_at(alloc, "not pure", offset),
        Fault::TooManyFacets => line(alloc, "too many facets"),
        Fault::TooManyLabels => line(alloc, "too many labels"),
        Fault::Count(offset) => line_at(alloc, "count", offset),
        Fault::Number(offset) => line_at(alloc, "number", offset),
        Fault::Unfit(which) => line_at(alloc, "unfit", which as usize),
        Fault::Memory => Err(AllocError),
    }
}
