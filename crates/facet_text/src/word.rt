//! The words of an input that is read by lines.

ghost use Rattle.std.specs.Prelude.{◌≡◌, ◌∷◌, ◌+◌, ◌<◌, ◌≤◌, ◌↔◌, drop, filter, length, IfSome, IsNone, MatchOption, slice_range};
ghost use Rattle.std.specs.List.{AllPass, prefix_len};
ghost use Rattle.facet_text.specs.Tokens.{is_blank};
ghost use Rattle.facet_text.specs.Lines.{AfterEnds, AreEnds, feeds_in, is_feed, is_solid, items, view};

use crate::token::is_blank;

/// A longest run of bytes that aren't blanks, with its span, and the number of line feeds between
/// the offset from which it was looked for and the word.
#[derive(Clone, Copy, Debug, PartialEq, Eq)]
pub struct Word<'a> {
    pub text: &'a [u8],
    pub start: usize,
    pub end: usize,
    pub feeds: usize,
}

/// Where the run of bytes that aren't blanks ends.
fn word_end(bytes: &[u8], from: usize) -> usize
    requires { from ≤ length bytes.now }
    ensures end { result ≡ from + prefix_len is_solid (drop from bytes.now) }
    ensures within { result ≤ length bytes.now }
{
    let mut end = from;
    while end < bytes.len() && !is_blank(bytes[end]) {
        end += 1;
    }
    end
}

/// The number of line feeds in a byte.
fn feeds_in(byte: u8) -> usize
    ensures { result ≡ feeds_in byte }
{
    if byte == b'\n' { 1 } else { 0 }
}

/// The first word at or after an offset.
pub fn next_word(bytes: &[u8], from: usize) -> Option<Word<'_>>
    requires { from ≤ length bytes.now }
    ensures first { MatchOption result (AreEnds (items bytes.now from))
        (λ w. AfterEnds (items bytes.now from) w.feeds (view w ∷ items bytes.now w.end)) }
    ensures here { IfSome result (λ w. items bytes.now w.start ≡ view w ∷ items bytes.now w.end) }
    ensures span { IfSome result (λ w. w.text.now ≡ slice_range bytes.now w.start w.end) }
    ensures blanks { IfSome result (λ w. AllPass is_blank (slice_range bytes.now from w.start)) }
    ensures feeds { IfSome result (λ w. w.feeds ≡ length (filter is_feed (slice_range bytes.now from w.start))) }
    ensures none { IsNone result ↔ AllPass is_blank (drop from bytes.now) }
    ensures offset { IfSome result (λ w. (from ≤ w.start) × (w.start < w.end) × (w.end ≤ length bytes.now)) }
{
    let mut start = from;
    let mut feeds = 0;
    while start < bytes.len() && is_blank(bytes[start]) {
        feeds += feeds_in(bytes[start]);
        start += 1;
    }
    if start == bytes.len() {
        return None;
    }
    let end = word_end(bytes, start + 1);
    Some(Word {
        text: &bytes[start..end],
        start,
        end,
        feeds,
    })
}
