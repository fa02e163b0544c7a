//! The words and the ends of lines.

ghost use Rattle.std.specs.Prelude.{◌≡◌, ◌∷◌, [], ◌+◌, ◌<◌, ◌≤◌, drop, length, not, List, Ok, Err, IfOk, IfErr, IfSome, MatchOption, MatchResult};
ghost use Rattle.std.specs.List.{prefix_len};
ghost use Rattle.facet_text.specs.Lines.{Item, is_feed, items, view};
ghost use Rattle.line_text.specs.Numbers.{end_at, line_start};

use crate::fault::LineFault;
use facet_text::{Word, next_word};

/// Where the line ends: the offset of its line feed, or the input's length.
fn line_end(bytes: &[u8], from: usize) -> usize
    requires { from ≤ length bytes.now }
    ensures end { result ≡ from + prefix_len (λ b. not (is_feed b)) (drop from bytes.now) }
    ensures offset { (from ≤ result) × (result ≤ length bytes.now) }
{
    let mut end = from;
    while end < bytes.len() && bytes[end] != b'\n' {
        end += 1;
    }
    end
}

/// The next word on this line, or the offset of the line's end, from which on the same follows.
pub fn word_here(bytes: &[u8], from: usize) -> Result<Word<'_>, usize>
    requires { from ≤ length bytes.now }
    ensures item { MatchResult result
        (λ w. items bytes.now from ≡ view w ∷ items bytes.now w.end)
        (λ end. (rest : List Item) × (items bytes.now from ≡ Item.line_end end ∷ rest)) }
    ensures end { IfErr result (λ end. items bytes.now from ≡ items bytes.now end) }
    ensures offset { IfOk result (λ w. (from < w.end) × (w.end ≤ length bytes.now)) }
    ensures within { IfErr result (λ end. (from ≤ end) × (end ≤ length bytes.now)) }
{
    match next_word(bytes, from) {
        Some(word) => {
            if word.feeds == 0 {
                Ok(word)
            } else {
                Err(line_end(bytes, from))
            }
        }
        None => Err(line_end(bytes, from)),
    }
}

/// The offset of this line's end, before which no word may stand.
#[tactic(auto, unfolding(crate::specs::Numbers::end_at))]
pub fn end_here(bytes: &[u8], from: usize) -> Result<usize, LineFault>
    requires { from ≤ length bytes.now }
    ensures read { MatchResult result
        (λ end. end_at (items bytes.now from) ≡ Ok (items bytes.now end))
        (λ e. end_at (items bytes.now from) ≡ Err e) }
    ensures end { IfOk result (λ end. (rest : List Item) × (items bytes.now end ≡ Item.line_end end ∷ rest)) }
    ensures offset { IfOk result (λ end. (from ≤ end) × (end ≤ length bytes.now)) }
{
    match word_here(bytes, from) {
        Ok(word) => Err(LineFault::Syntax(word.start)),
        Err(end) => Ok(end),
    }
}

/// The first word of the next line that has one. `None` exactly where only blanks are left.
pub fn first_word(bytes: &[u8], from: usize) -> Option<Word<'_>>
    requires { from ≤ length bytes.now }
    ensures first { MatchOption result
        (line_start (items bytes.now from) ≡ Item.line_end (length bytes.now) ∷ [])
        (λ w. line_start (items bytes.now from) ≡ view w ∷ items bytes.now w.end) }
    ensures here { IfSome result (λ w. items bytes.now w.start ≡ view w ∷ items bytes.now w.end) }
    ensures offset { IfSome result (λ w. (from ≤ w.start) × (w.start < w.end) × (w.end ≤ length bytes.now)) }
{
    next_word(bytes, from)
}
