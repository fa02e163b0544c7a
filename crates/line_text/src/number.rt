//! The numbers of lines.

ghost use Rattle.std.specs.Prelude.{◌≡◌, ◌∷◌, ◌<◌, ◌≤◌, IfOk, MatchResult, Ok, Err, length, true};
ghost use Rattle.std.specs.Str.Parse.{digits_value};
ghost use Rattle.facet_text.specs.Lines.{items};
ghost use Rattle.line_text.specs.Numbers.{begins_with_digit, is_digit, is_number, number_at, small};

use crate::fault::LineFault;
use crate::word::word_here;

/// A number that has more than 32 bits, and as which each greater one is read.
const TOO_GREAT: u64 = 4_294_967_296;

/// A number of a line.
#[derive(Clone, Copy, Debug, PartialEq, Eq)]
pub struct Number {
    /// Its value. `None` exactly where that is more than 4,294,967,295.
    pub value: Option<u32>,
    /// The offset of its first digit.
    pub start: usize,
    /// The offset after its last digit.
    pub end: usize,
}

#[tactic(auto, unfolding(crate::specs::Numbers::is_digit))]
fn is_digit(byte: u8) -> bool
    ensures { result ≡ is_digit byte }
{
    byte.is_ascii_digit()
}

/// Whether a word has only decimal digits.
pub fn is_number(text: &[u8]) -> bool
    ensures { result ≡ is_number text.now }
{
    text.iter().all(|byte| is_digit(*byte))
}

/// Whether a word begins with a decimal digit.
pub fn begins_with_digit(text: &[u8]) -> bool
    ensures { result ≡ begins_with_digit text.now }
{
    match text {
        [] => false,
        [first, ..] => is_digit(*first),
    }
}

/// The value of a number. `None` exactly where it is more than 4,294,967,295.
pub fn number_of(text: &[u8]) -> Option<u32>
    requires { is_number text.now ≡ true }
    ensures { result ≡ small (digits_value 10 text.now) }
{
    let mut value: u64 = 0;
    for digit in text {
        value = (value * 10 + u64::from(*digit - b'0')).min(TOO_GREAT);
    }
    if value <= u64::from(u32::MAX) {
        Some(value as u32)
    } else {
        None
    }
}

/// The next word of this line, which must be a number.
#[tactic(auto, unfolding(crate::specs::Numbers::number_at))]
pub fn number_here(bytes: &[u8], from: usize) -> Result<Number, LineFault>
    requires { from ≤ length bytes.now }
    ensures read { MatchResult result
        (λ n. number_at (items bytes.now from) ≡ Ok (n.value, n.start, items bytes.now n.end))
        (λ e. number_at (items bytes.now from) ≡ Err e) }
    ensures offset { IfOk result (λ n. (from < n.end) × (n.end ≤ length bytes.now)) }
{
    let word = match word_here(bytes, from) {
        Ok(word) => word,
        Err(end) => return Err(LineFault::Syntax(end)),
    };
    if !is_number(word.text) {
        return Err(LineFault::Syntax(word.start));
    }
    Ok(Number {
        value: number_of(word.text),
        start: word.start,
        end: word.end,
    })
}
