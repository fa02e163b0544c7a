//! Numbers and places on lines.

ghost use Rattle.std.specs.Prelude.{◌≡◌, ◌<◌, ◌≤◌, ℕ, IfOk, MatchResult, Ok, Err, length, true};
ghost use Rattle.std.specs.Option.{SomeIff};
ghost use Rattle.std.specs.Str.Parse.{digits_value};
ghost use Rattle.facet_text.specs.Lines.{items};
ghost use Rattle.facet_text.specs.Tokens.{between};
ghost use Rattle.line_text.specs.Numbers.{is_number, line_start};
ghost use Rattle.trace_text.specs.Grammar.{count_from, is_place, place_from, stated};

use crate::fault::TraceFault;
use complex_core::VertexMap;
use line_text::{end_here, first_word, is_number, number_of, word_here};

/// The value of a number from 1 to so many.
fn count_of(text: &[u8], most: u16) -> Option<u16>
    requires { is_number text.now ≡ true }
    ensures { SomeIff result (between 1 most (digits_value 10 text.now) ≡ true) (digits_value 10 text.now) }
{
    let value = number_of(text)?;
    if 1 <= value && value <= u32::from(most) {
        Some(value as u16)
    } else {
        None
    }
}

/// The place that a number stands for: 0, or a label.
#[tactic(auto, unfolding(crate::specs::Grammar::is_place, line_text::specs::Labels::allows))]
fn place_of(text: &[u8], places: &VertexMap) -> Option<u16>
    requires { is_number text.now ≡ true }
    ensures { SomeIff result (is_place places.now (digits_value 10 text.now) ≡ true) (digits_value 10 text.now) }
{
    let value = number_of(text)?;
    if value > u32::from(u16::MAX) {
        return None;
    }
    let place = value as u16;
    if place == 0 || places.get(place).is_some() {
        Some(place)
    } else {
        None
    }
}

/// Reads a number from 1 to so many, and answers it with the place after it.
#[tactic(auto, unfolding(crate::specs::Grammar::count_from))]
pub(crate) fn count_here(bytes: &[u8], from: usize, most: u16) -> Result<(u16, usize), TraceFault>
    requires { from ≤ length bytes.now }
    ensures read { MatchResult result
        (λ n. count_from most (items bytes.now from) ≡ Ok (n.0, items bytes.now n.1))
        (λ e. count_from most (items bytes.now from) ≡ Err e) }
    ensures offset { IfOk result (λ n. (from < n.1) × (n.1 ≤ length bytes.now)) }
{
    let word = match word_here(bytes, from) {
        Ok(word) => word,
        Err(end) => return Err(TraceFault::Syntax(end)),
    };
    if !is_number(word.text) {
        return Err(TraceFault::Syntax(word.start));
    }
    match count_of(word.text, most) {
        Some(count) => Ok((count, word.end)),
        None => Err(TraceFault::Number(word.start)),
    }
}

/// Reads a place, and answers it with the place in the text after it.
#[tactic(auto, unfolding(crate::specs::Grammar::place_from))]
pub(crate) fn place_here(
    bytes: &[u8],
    from: usize,
    places: &VertexMap,
) -> Result<(u16, usize), TraceFault>
    requires { from ≤ length bytes.now }
    ensures read { MatchResult result
        (λ n. place_from places.now (items bytes.now from) ≡ Ok (n.0, items bytes.now n.1))
        (λ e. place_from places.now (items bytes.now from) ≡ Err e) }
    ensures offset { IfOk result (λ n. (from < n.1) × (n.1 ≤ length bytes.now)) }
{
    let word = match word_here(bytes, from) {
        Ok(word) => word,
        Err(end) => return Err(TraceFault::Syntax(end)),
    };
    if !is_number(word.text) {
        return Err(TraceFault::Syntax(word.start));
    }
    match place_of(word.text, places) {
        Some(place) => Ok((place, word.end)),
        None => Err(TraceFault::Label(word.start)),
    }
}

/// Reads the next line, which must state a number from 1 to so many under this name, and answers
/// the number with the place of the line's end.
#[tactic(auto, unfolding(crate::specs::Grammar::stated, crate::specs::Grammar::ended))]
pub(crate) fn stated_next(
    bytes: &[u8],
    from: usize,
    name: &[u8],
    most: u16,
) -> Result<(u16, usize), TraceFault>
    requires { from ≤ length bytes.now }
    ensures read { MatchResult result
        (λ n. stated name.now most (line_start (items bytes.now from)) ≡ Ok (n.0, items bytes.now n.1))
        (λ e. stated name.now most (line_start (items bytes.now from)) ≡ Err e) }
    ensures offset { IfOk result (λ n. (from ≤ n.1) × (n.1 ≤ length bytes.now)) }
{
    let Some(word) = first_word(bytes, from) else {
        return Err(TraceFault::Syntax(bytes.len()));
    };
    if word.text != name {
        return Err(TraceFault::Syntax(word.start));
    }
    let (count, place) = count_here(bytes, word.end, most)?;
    let end = end_here(bytes, place)?;
    Ok((count, end))
}
