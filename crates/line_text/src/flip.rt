//! The flips of lines.

ghost use Rattle.std.specs.Prelude.{◌≡◌, ◌<◌, ◌≤◌, ℕ, [], List, IfOk, MatchResult, Ok, Err, OnOk, length};
ghost use Rattle.std.specs.Str.Parse.{digits_value};
ghost use Rattle.complex_core.specs.Labels.{with};
ghost use Rattle.facet_text.specs.Lines.{items};
ghost use Rattle.line_text.specs.Flips.{Reading, first_from, flip_at, is_bar, label_then, second_from};

use crate::fault::LineFault;
use crate::label::{Labels, label_of};
use crate::number::is_number;
use crate::word::word_here;
use complex_core::Face;
use facet_text::Word;
use flip_rules::Flip;

/// How many labels a side may have.
const MOST_IN_SIDE: usize = 7;

/// Puts a word's label among those of its side.
fn add_label(word: &Word<'_>, labels: Labels<'_>, side: &mut Face) -> Result<(), LineFault>
    requires { length side.old ≤ 7 }
    ensures goes_on { (next : Reading) → MatchResult result
        (λ _. label_then labels.entry word.now.text.now word.now.start side.old next ≡ next)
        (λ e. label_then labels.entry word.now.text.now word.now.start side.old next ≡ Err e) }
    ensures added { OnOk result (side.new ≡ with side.old (digits_value 10 word.now.text.now)) }
    ensures few { OnOk result (length side.new ≤ 7) }
{
    if !is_number(word.text) || side.len() == MOST_IN_SIDE {
        return Err(LineFault::Syntax(word.start));
    }
    let Some(label) = label_of(word.text, labels) else {
        return Err(LineFault::Label(word.start));
    };
    if side.contains(label) {
        return Err(LineFault::Label(word.start));
    }
    match side.with(label) {
        Some(more) => {
            *side = more;
            Ok(())
        }
        None => unreachable!(),
    }
}

fn is_bar(text: &[u8]) -> bool
    ensures { result ≡ is_bar text.now }
{
    matches!(text, b"|")
}

/// Reads the labels of A, and answers them with the offset after the word `|`.
#[tactic(auto, unfolding(crate::specs::Flips::first_from))]
fn read_first(bytes: &[u8], from: usize, labels: Labels<'_>) -> Result<(Face, usize), LineFault>
    requires { from ≤ length bytes.now }
    ensures goes_on { MatchResult result
        (λ x. flip_at labels.entry (items bytes.now from) ≡ second_from labels.entry x.0 [] (items bytes.now x.1))
        (λ e. flip_at labels.entry (items bytes.now from) ≡ Err e) }
    ensures offset { IfOk result (λ x. (from < x.1) × (x.1 ≤ length bytes.now)) }
{
    let mut side = Face::new();
    let mut offset = from;
    'words: loop {
        let word = match word_here(bytes, offset) {
            Ok(word) => word,
            Err(end) => return Err(LineFault::Syntax(end)),
        };
        offset = word.end;
        if is_bar(word.text) {
            if side.is_empty() {
                return Err(LineFault::Syntax(word.start));
            }
            return Ok((side, offset));
        }
        add_label(&word, labels, &mut side)?;
    }
}

/// Reads the labels of B, and answers them with the offset after the last one.
#[tactic(auto, unfolding(crate::specs::Flips::second_from))]
fn read_second(bytes: &[u8], from: usize, labels: Labels<'_>) -> Result<(Face, usize), LineFault>
    requires { from ≤ length bytes.now }
    ensures goes_on { (first : List ℕ) → MatchResult result
        (λ x. second_from labels.entry first [] (items bytes.now from) ≡ Ok (record { a = first; b = x.0 }, items bytes.now x.1))
        (λ e. second_from labels.entry first [] (items bytes.now from) ≡ Err e) }
    ensures offset { IfOk result (λ x. (from ≤ x.1) × (x.1 ≤ length bytes.now)) }
{
    let mut side = Face::new();
    let mut offset = from;
    'words: loop {
        let word = match word_here(bytes, offset) {
            Ok(word) => word,
            Err(end) => {
                if side.is_empty() {
                    return Err(LineFault::Syntax(end));
                }
                return Ok((side, offset));
            }
        };
        offset = word.end;
        add_label(&word, labels, &mut side)?;
    }
}

/// Reads the flip on the rest of a line, and answers it with the offset after its last label.
///
/// A side has 1 to 7 labels, in any order and none twice. A side that ends with its line has the
/// offset of the line's end.
pub fn read_flip(bytes: &[u8], from: usize, labels: Labels<'_>) -> Result<(Flip, usize), LineFault>
    requires { from ≤ length bytes.now }
    ensures read { MatchResult result
        (λ x. flip_at labels.entry (items bytes.now from) ≡ Ok (x.0, items bytes.now x.1))
        (λ e. flip_at labels.entry (items bytes.now from) ≡ Err e) }
    ensures offset { IfOk result (λ x. (from < x.1) × (x.1 ≤ length bytes.now)) }
{
    let (a, middle) = read_first(bytes, from, labels)?;
    let (b, offset) = read_second(bytes, middle, labels)?;
    Ok((Flip { a, b }, offset))
}
