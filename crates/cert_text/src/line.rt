//! The lines of certificates.

ghost use Rattle.std.specs.Prelude.{◌≡◌, ◌∷◌, [], ◌≤◌, ◌<◌, ℕ, Bool, List, IfOk, MatchResult, Ok, false, length};
ghost use Rattle.std.specs.Ordering.{nat_cmp};
ghost use Rattle.std.specs.BTreeSet.{contains};
ghost use Rattle.std.specs.Str.{bytes_eq};
ghost use Rattle.facet_text.specs.Lines.{Item, items, view};
ghost use Rattle.flip_rules.specs.declared.flip.Flip.{Flip};
ghost use Rattle.line_text.specs.Numbers.{begins_with_digit, line_start, number_at};
ghost use Rattle.complex_core.specs.Maps.{reaches, takes};
ghost use Rattle.cert_text.specs.Readings.{Fails, Gives, Passes, Reads, of_line};
ghost use Rattle.cert_text.specs.Lines.{IsSeen, count_at, counted, ended, flip_line, is_vertex, label_of, label_at, none_more, nothing_left, pair_at, pair_line, stated, vertex_at, word_at};

use crate::fault::CertFault;
use facet_text::Word;
use flip_rules::Flip;
use line_text::{
    Labels, Number, begins_with_digit, end_here, first_word, number_here, read_flip, word_here,
};
use std::collections::BTreeSet;

/// The greatest label.
const GREATEST: u16 = 65_000;

/// The first word of the next line.
pub(crate) fn next_line(bytes: &[u8], from: usize) -> Result<Word<'_>, CertFault>
    requires { from ≤ length bytes.now }
    ensures first { MatchResult result
        (λ w. line_start (items bytes.now from) ≡ view w ∷ items bytes.now w.end)
        (λ e. (line_start (items bytes.now from) ≡ Item.line_end (length bytes.now) ∷ []) × (e ≡ CertFault.Syntax (length bytes.now))) }
    ensures offset { IfOk result (λ w. (from < w.end) × (w.end ≤ length bytes.now)) }
{
    match first_word(bytes, from) {
        Some(word) => Ok(word),
        None => Err(CertFault::Syntax(bytes.len())),
    }
}

/// The end of this line.
#[tactic(auto, using(crate::proofs::Parts::line_read, crate::proofs::Parts::line_fails))]
pub(crate) fn end_of_line(bytes: &[u8], from: usize) -> Result<usize, CertFault>
    requires { from ≤ length bytes.now }
    ensures read { Passes bytes.now result (ended (items bytes.now from)) }
    ensures end { IfOk result (λ end. (rest : List Item) × (items bytes.now end ≡ Item.line_end end ∷ rest)) }
    ensures offset { IfOk result (λ end. (from ≤ end) × (end ≤ length bytes.now)) }
{
    match end_here(bytes, from) {
        Ok(end) => Ok(end),
        Err(e) => Err(CertFault::from(e)),
    }
}

/// A number on this line.
#[tactic(auto, using(crate::proofs::Parts::line_read, crate::proofs::Parts::line_fails))]
pub(crate) fn read_number(bytes: &[u8], from: usize) -> Result<Number, CertFault>
    requires { from ≤ length bytes.now }
    ensures read { MatchResult result
        (λ n. of_line (number_at (items bytes.now from)) ≡ Ok (n.value, n.start, items bytes.now n.end))
        (λ e. Fails e (of_line (number_at (items bytes.now from)))) }
    ensures offset { IfOk result (λ n. (from < n.end) × (n.end ≤ length bytes.now)) }
{
    match number_here(bytes, from) {
        Ok(number) => Ok(number),
        Err(e) => Err(CertFault::from(e)),
    }
}

/// Whether a word is this one.
pub(crate) fn is_word(text: &[u8], name: &[u8]) -> bool
    ensures { result ≡ bytes_eq text.now name.now }
{
    text == name
}

/// A number of 32 bits.
#[tactic(auto, using(crate::proofs::Parts::fails_first, crate::proofs::Parts::fails_after, crate::proofs::Parts::first_read), unfolding(crate::specs::Lines::count_at))]
fn read_count(bytes: &[u8], from: usize) -> Result<(u32, usize), CertFault>
    requires { from ≤ length bytes.now }
    ensures read { Reads bytes.now (λ n. n) result (count_at (items bytes.now from)) }
    ensures offset { IfOk result (λ x. (from < x.1) × (x.1 ≤ length bytes.now)) }
{
    let number = read_number(bytes, from)?;
    match number.value {
        Some(count) => Ok((count, number.end)),
        None => Err(CertFault::Syntax(number.start)),
    }
}

/// A line of this word and a number of 32 bits, and the line's end.
#[tactic(auto, using(crate::proofs::Parts::fails_first, crate::proofs::Parts::fails_after, crate::proofs::Parts::first_read), unfolding(crate::specs::Lines::stated, crate::specs::Lines::word_at))]
pub(crate) fn read_stated(bytes: &[u8], from: usize, name: &[u8]) -> Result<(u32, usize), CertFault>
    requires { from ≤ length bytes.now }
    ensures read { Reads bytes.now (λ n. n) result (stated name.now (items bytes.now from)) }
    ensures offset { IfOk result (λ x. (from < x.1) × (x.1 ≤ length bytes.now)) }
{
    let word = next_line(bytes, from)?;
    if !is_word(word.text, name) {
        return Err(CertFault::Syntax(word.start));
    }
    let (count, offset) = read_count(bytes, word.end)?;
    let end = end_of_line(bytes, offset)?;
    Ok((count, end))
}

/// A number that is a label.
fn label_of(value: Option<u32>) -> Option<u16>
    ensures { result ≡ label_of value }
{
    match value {
        Some(value) => {
            if 1 <= value && value <= u32::from(GREATEST) {
                Some(value as u16)
            } else {
                None
            }
        }
        None => None,
    }
}

/// A label.
#[tactic(auto, using(crate::proofs::Parts::fails_first, crate::proofs::Parts::fails_after, crate::proofs::Parts::first_read), unfolding(crate::specs::Lines::label_at))]
fn read_label(bytes: &[u8], from: usize) -> Result<(u16, usize), CertFault>
    requires { from ≤ length bytes.now }
    ensures read { Reads bytes.now (λ n. n) result (label_at (λ n. false) (items bytes.now from)) }
    ensures offset { IfOk result (λ x. (from < x.1) × (x.1 ≤ length bytes.now)) }
{
    let number = read_number(bytes, from)?;
    match label_of(number.value) {
        Some(label) => Ok((label, number.end)),
        None => Err(CertFault::Label(number.start)),
    }
}

/// A label that isn't among those that were seen, and is then.
#[tactic(auto, using(crate::proofs::Parts::fails_first, crate::proofs::Parts::fails_after, crate::proofs::Parts::first_read), unfolding(crate::specs::Lines::label_at))]
fn read_new_label(
    bytes: &[u8],
    from: usize,
    seen: &mut BTreeSet<u16>,
) -> Result<(u16, usize), CertFault>
    requires { from ≤ length bytes.now }
    ensures read { (before : ℕ → Bool) → ((n : ℕ) → contains nat_cmp seen.old n ≡ before n) →
        Reads bytes.now (λ n. n) result (label_at before (items bytes.now from)) }
    ensures seen { IfOk result (λ x. IsSeen (contains nat_cmp seen.old) x.0 (contains nat_cmp seen.new)) }
    ensures new { IfOk result (λ x. contains nat_cmp seen.old x.0 ≡ false) }
    ensures positive { IfOk result (λ x. 0 < x.0) }
    ensures offset { IfOk result (λ x. (from < x.1) × (x.1 ≤ length bytes.now)) }
{
    let number = read_number(bytes, from)?;
    let Some(label) = label_of(number.value) else {
        return Err(CertFault::Label(number.start));
    };
    if !seen.insert(label)? {
        return Err(CertFault::Label(number.start));
    }
    Ok((label, number.end))
}

/// The line of a flip.
#[tactic(auto, using(crate::proofs::Parts::line_read, crate::proofs::Parts::line_fails), unfolding(crate::specs::Lines::flip_line, crate::specs::Lines::counted))]
pub(crate) fn read_flip_line(bytes: &[u8], from: usize) -> Result<(Flip, usize), CertFault>
    requires { from ≤ length bytes.now }
    ensures read { (before : List Flip) → Reads bytes.now (λ f. f) result (flip_line before (items bytes.now from)) }
    ensures offset { IfOk result (λ x. (from < x.1) × (x.1 ≤ length bytes.now)) }
{
    match first_word(bytes, from) {
        Some(word) => {
            if !begins_with_digit(word.text) {
                return Err(CertFault::Count(word.start));
            }
            match read_flip(bytes, word.start, Labels::UpTo(GREATEST)) {
                Ok(read) => Ok(read),
                Err(e) => Err(CertFault::from(e)),
            }
        }
        None => Err(CertFault::Count(bytes.len())),
    }
}

/// The line of a pair whose numbers aren't among those that were seen in the same position, and are
/// then. The answer is at the line's end.
#[tactic(auto, unfolding(crate::specs::Lines::pair_line, crate::specs::Lines::counted))]
pub(crate) fn read_pair_line(
    bytes: &[u8],
    from: usize,
    firsts: &mut BTreeSet<u16>,
    seconds: &mut BTreeSet<u16>,
) -> Result<((u16, u16), usize), CertFault>
    requires { from ≤ length bytes.now }
    ensures read { (pairs : List (ℕ × ℕ)) → ((n : ℕ) → contains nat_cmp firsts.old n ≡ takes pairs n) →
        ((n : ℕ) → contains nat_cmp seconds.old n ≡ reaches pairs n) →
        Reads bytes.now (λ p. p) result (pair_line pairs (items bytes.now from)) }
    ensures firsts { IfOk result (λ x. IsSeen (contains nat_cmp firsts.old) x.0.0 (contains nat_cmp firsts.new)) }
    ensures seconds { IfOk result (λ x. IsSeen (contains nat_cmp seconds.old) x.0.1 (contains nat_cmp seconds.new)) }
    ensures new { IfOk result (λ x. (contains nat_cmp firsts.old x.0.0 ≡ false) × (contains nat_cmp seconds.old x.0.1 ≡ false)) }
    ensures positive { IfOk result (λ x. (0 < x.0.0) × (0 < x.0.1)) }
    ensures offset { IfOk result (λ x. (from < x.1) × (x.1 ≤ length bytes.now)) }
{
    match first_word(bytes, from) {
        Some(word) => {
            if !begins_with_digit(word.text) {
                return Err(CertFault::Count(word.start));
            }
            read_pair(bytes, word.start, firsts, seconds)
        }
        None => Err(CertFault::Count(bytes.len())),
    }
}

/// Two labels, and the line's end.
#[tactic(auto, using(crate::proofs::Parts::fails_first, crate::proofs::Parts::fails_after, crate::proofs::Parts::first_read), unfolding(crate::specs::Lines::pair_at))]
fn read_pair(
    bytes: &[u8],
    from: usize,
    firsts: &mut BTreeSet<u16>,
    seconds: &mut BTreeSet<u16>,
) -> Result<((u16, u16), usize), CertFault>
    requires { from ≤ length bytes.now }
    ensures read { (pairs : List (ℕ × ℕ)) → ((n : ℕ) → contains nat_cmp firsts.old n ≡ takes pairs n) →
        ((n : ℕ) → contains nat_cmp seconds.old n ≡ reaches pairs n) →
        Reads bytes.now (λ p. p) result (pair_at pairs (items bytes.now from)) }
    ensures firsts { IfOk result (λ x. IsSeen (contains nat_cmp firsts.old) x.0.0 (contains nat_cmp firsts.new)) }
    ensures seconds { IfOk result (λ x. IsSeen (contains nat_cmp seconds.old) x.0.1 (contains nat_cmp seconds.new)) }
    ensures new { IfOk result (λ x. (contains nat_cmp firsts.old x.0.0 ≡ false) × (contains nat_cmp seconds.old x.0.1 ≡ false)) }
    ensures positive { IfOk result (λ x. (0 < x.0.0) × (0 < x.0.1)) }
    ensures offset { IfOk result (λ x. (from < x.1) × (x.1 ≤ length bytes.now)) }
{
    let (first, offset) = read_new_label(bytes, from, firsts)?;
    let (second, offset) = read_new_label(bytes, offset, seconds)?;
    let end = end_of_line(bytes, offset)?;
    Ok(((first, second), end))
}

fn is_vertex(text: &[u8]) -> bool
    ensures { result ≡ is_vertex text.now }
{
    is_word(text, b"vertex")
}

/// The line of a vertex, and the line's end.
#[tactic(auto, using(crate::proofs::Parts::fails_first, crate::proofs::Parts::fails_after, crate::proofs::Parts::first_read), unfolding(crate::specs::Lines::counted, crate::specs::Lines::vertex_at, crate::specs::Lines::word_at))]
pub(crate) fn read_vertex_line(bytes: &[u8], from: usize) -> Result<(u16, usize), CertFault>
    requires { from ≤ length bytes.now }
    ensures read { Reads bytes.now (λ n. n) result (counted is_vertex vertex_at (line_start (items bytes.now from))) }
    ensures offset { IfOk result (λ x. (from < x.1) × (x.1 ≤ length bytes.now)) }
{
    match first_word(bytes, from) {
        Some(word) => {
            if !is_vertex(word.text) {
                return Err(CertFault::Count(word.start));
            }
            let (vertex, offset) = read_label(bytes, word.end)?;
            let end = end_of_line(bytes, offset)?;
            Ok((vertex, end))
        }
        None => Err(CertFault::Count(bytes.len())),
    }
}

/// No line may follow that begins with a digit.
#[tactic(auto, unfolding(crate::specs::Lines::none_more))]
pub(crate) fn no_more_numbers(bytes: &[u8], from: usize) -> Result<(), CertFault>
    requires { from ≤ length bytes.now }
    ensures { Gives (λ u. u) result (none_more begins_with_digit (line_start (items bytes.now from))) }
{
    match first_word(bytes, from) {
        Some(word) => {
            if begins_with_digit(word.text) {
                return Err(CertFault::Count(word.start));
            }
            Ok(())
        }
        None => Ok(()),
    }
}

/// No line of a vertex may follow.
#[tactic(auto, unfolding(crate::specs::Lines::none_more))]
pub(crate) fn no_more_vertices(bytes: &[u8], from: usize) -> Result<(), CertFault>
    requires { from ≤ length bytes.now }
    ensures { Gives (λ u. u) result (none_more is_vertex (line_start (items bytes.now from))) }
{
    match first_word(bytes, from) {
        Some(word) => {
            if is_vertex(word.text) {
                return Err(CertFault::Count(word.start));
            }
            Ok(())
        }
        None => Ok(()),
    }
}

/// Only blanks may follow.
#[tactic(auto, unfolding(crate::specs::Lines::nothing_left))]
pub(crate) fn nothing_left(bytes: &[u8], from: usize) -> Result<(), CertFault>
    requires { from ≤ length bytes.now }
    ensures { Gives (λ u. u) result (nothing_left (line_start (items bytes.now from))) }
{
    match first_word(bytes, from) {
        Some(word) => Err(CertFault::Syntax(word.start)),
        None => Ok(()),
    }
}
