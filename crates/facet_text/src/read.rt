//! The reader of complexes.

ghost use Rattle.std.specs.Prelude.{◌≡◌, ◌≤◌, ◌<◌, ◌+◌, ◌∷◌, ◌++◌, [], ℕ, List, length, IfOk, MatchResult, OnOk, true};
ghost use Rattle.std.specs.Option.{SomeIff};
ghost use Rattle.std.specs.Str.Parse.{digits_value};
ghost use Rattle.std.specs.List.{AllPass};
ghost use Rattle.complex_core.specs.Labels.{with};
ghost use Rattle.facet_text.specs.declared.token.Class.TheVariants.{Digit};
ghost use Rattle.facet_text.specs.Tokens.{has, tokens, view};
ghost use Rattle.facet_text.specs.Writing.{KeepsLimits};
ghost use Rattle.facet_text.specs.Grammar.{ArePure, Fails, Gives, GoesOn, Reading, after_facet, after_label, after_list, complex_at, complex_from, complex_of, facet_from, facet_then, is_label, is_pure, label_from, limits_then, list_end, list_from};

use crate::fault::TextFault;
use crate::token::{Token, TokenKind, next_token};
use complex_core::{Complex, ComplexFault, Face};
use std::alloc::{AllocError, Global};

/// How many labels a facet may have.
const MOST_IN_FACET: usize = 7;

/// How many distinct facets a text may have.
const MOST_FACETS: usize = 20_000;

/// How many distinct labels a text may have.
const MOST_LABELS: usize = 4_096;

/// The greatest label.
const GREATEST: u32 = 60_000;

/// A number that is no label, and as which each greater one is read.
const TOO_GREAT: u32 = 65_535;

/// Reads one complex from an offset on, and answers the offset after it: after the `;` that may stand
/// behind its list, or else after the list's `]`.
#[tactic(auto, unfolding(crate::specs::Grammar::after_list))]
pub fn read_complex(alloc: Global, bytes: &[u8], from: usize) -> Result<(Complex, usize), TextFault>
    requires { from ≤ length bytes.now }
    ensures read { Gives result (complex_at bytes.now from) }
    ensures limits { IfOk result (λ x. KeepsLimits x.0) }
    ensures offset { IfOk result (λ x. (from < x.1) × (x.1 ≤ length bytes.now)) }
{
    let offset = read_start(bytes, from)?;
    let mut facets = Vec::new(alloc);
    let offset = read_facets(bytes, offset, &mut facets)?;
    let complex = complex_of(alloc, &facets)?;
    keep_limits(complex, list_end(bytes, offset))
}

/// The token at or after an offset, or that the input ends too early.
fn token_at(bytes: &[u8], from: usize) -> Result<Token<'_>, TextFault>
    requires { from ≤ length bytes.now }
    ensures token { MatchResult result
        (λ t. tokens bytes.now from ≡ view t ∷ tokens bytes.now t.end)
        (λ e. (tokens bytes.now from ≡ []) × (e ≡ TextFault.Syntax (length bytes.now))) }
    ensures offset { IfOk result (λ t. (from < t.end) × (t.end ≤ length bytes.now)) }
    ensures end { IfOk result (λ t. t.end ≡ t.start + length t.text.now) }
    ensures digits { IfOk result (λ t. t.kind ≡ TokenKind.Label → AllPass (has Digit) t.text.now) }
{
    match next_token(bytes, from) {
        Some(token) => Ok(token),
        None => Err(TextFault::Syntax(bytes.len())),
    }
}

/// Reads a name with its assignment, if one stands there, and the list's `[`.
#[tactic(auto, unfolding(crate::specs::Grammar::complex_from, crate::specs::Grammar::assign_from, crate::specs::Grammar::list_from))]
fn read_start(bytes: &[u8], from: usize) -> Result<usize, TextFault>
    requires { from ≤ length bytes.now }
    ensures goes_on { GoesOn result
        (complex_from (length bytes.now) (tokens bytes.now from))
        (λ offset. facet_from (length bytes.now) [] (tokens bytes.now offset)) }
    ensures offset { IfOk result (λ offset. (from < offset) × (offset ≤ length bytes.now)) }
{
    let token = token_at(bytes, from)?;
    match token.kind {
        TokenKind::Name => {
            let assign = token_at(bytes, token.end)?;
            match assign.kind {
                TokenKind::Assign => read_open(bytes, assign.end),
                _ => Err(TextFault::Syntax(assign.start)),
            }
        }
        _ => read_open(bytes, from),
    }
}

/// Reads the list's `[`.
#[tactic(auto, unfolding(crate::specs::Grammar::list_from))]
fn read_open(bytes: &[u8], from: usize) -> Result<usize, TextFault>
    requires { from ≤ length bytes.now }
    ensures goes_on { GoesOn result
        (list_from (length bytes.now) (tokens bytes.now from))
        (λ offset. facet_from (length bytes.now) [] (tokens bytes.now offset)) }
    ensures offset { IfOk result (λ offset. (from < offset) × (offset ≤ length bytes.now)) }
{
    let token = token_at(bytes, from)?;
    match token.kind {
        TokenKind::Open => Ok(token.end),
        _ => Err(TextFault::Syntax(token.start)),
    }
}

/// Reads the facets after the list's `[`, and answers the offset after its `]`.
#[tactic(auto, unfolding(crate::specs::Grammar::facet_from, crate::specs::Grammar::after_facet))]
fn read_facets(bytes: &[u8], from: usize, facets: &mut Vec<Face>) -> Result<usize, TextFault>
    requires from { from ≤ length bytes.now }
    requires pure { ArePure facets.old.items }
    ensures goes_on { GoesOn result
        (facet_from (length bytes.now) facets.old.items (tokens bytes.now from))
        (λ offset. after_list offset facets.new.items (tokens bytes.now offset)) }
    ensures pure { OnOk result (ArePure facets.new.items) }
    ensures some { OnOk result (0 < length facets.new.items) }
    ensures offset { IfOk result (λ offset. (from < offset) × (offset ≤ length bytes.now)) }
{
    let mut offset = from;
    'facets: loop {
        let token = token_at(bytes, offset)?;
        match token.kind {
            TokenKind::Open => {}
            _ => return Err(TextFault::Syntax(token.start)),
        }
        offset = read_facet(bytes, token.start, token.end, facets)?;
        let token = token_at(bytes, offset)?;
        offset = token.end;
        match token.kind {
            TokenKind::Comma => {}
            TokenKind::Close => return Ok(offset),
            _ => return Err(TextFault::Syntax(token.start)),
        }
    }
}

/// Reads the labels of a facet that began at `start`, adds the facet, and answers the offset after
/// its `]`.
#[tactic(auto, unfolding(crate::specs::Grammar::after_label))]
fn read_facet(
    bytes: &[u8],
    start: usize,
    from: usize,
    facets: &mut Vec<Face>,
) -> Result<usize, TextFault>
    requires from { from ≤ length bytes.now }
    requires pure { ArePure facets.old.items }
    ensures goes_on { GoesOn result
        (label_from (length bytes.now) start [] facets.old.items (tokens bytes.now from))
        (λ offset. after_facet (length bytes.now) facets.new.items (tokens bytes.now offset)) }
    ensures pure { OnOk result (ArePure facets.new.items) }
    ensures some { OnOk result (0 < length facets.new.items) }
    ensures offset { IfOk result (λ offset. (from < offset) × (offset ≤ length bytes.now)) }
{
    let mut labels = Face::new();
    let mut offset = from;
    'labels: loop {
        offset = read_label(bytes, start, offset, &mut labels)?;
        let token = token_at(bytes, offset)?;
        offset = token.end;
        match token.kind {
            TokenKind::Comma => {}
            TokenKind::Close => {
                add_facet(start, labels, facets)?;
                return Ok(offset);
            }
            _ => return Err(TextFault::Syntax(token.start)),
        }
    }
}

/// Reads a label into the labels of a facet that began at `start`, and answers the offset after it.
#[tactic(auto, using(crate::proofs::ReadLaws::grown), unfolding(crate::specs::Grammar::label_from))]
fn read_label(
    bytes: &[u8],
    start: usize,
    from: usize,
    labels: &mut Face,
) -> Result<usize, TextFault>
    requires { from ≤ length bytes.now }
    ensures goes_on { (fs : List (List ℕ)) → GoesOn result
        (label_from (length bytes.now) start labels.old fs (tokens bytes.now from))
        (λ offset. after_label (length bytes.now) start labels.new fs (tokens bytes.now offset)) }
    ensures some { OnOk result ((0 < length labels.new) × (length labels.new ≤ 7)) }
    ensures offset { IfOk result (λ offset. (from < offset) × (offset ≤ length bytes.now)) }
{
    let token = token_at(bytes, from)?;
    match token.kind {
        TokenKind::Label => {
            let Some(label) = label_of(token.text) else {
                return Err(TextFault::Label(token.start));
            };
            if labels.contains(label) {
                return Err(TextFault::Twice(token.start));
            }
            let Some(more) = with_label(labels, label) else {
                return Err(TextFault::Size(start));
            };
            *labels = more;
            Ok(token.end)
        }
        _ => Err(TextFault::Syntax(token.start)),
    }
}

/// The labels with one more, unless they are more than a facet may have.
fn with_label(labels: &Face, label: u16) -> Option<Face>
    requires { 0 < label }
    ensures { SomeIff result (length (with labels.now label) ≤ 7) (with labels.now label) }
{
    let more = labels.with(label)?;
    if more.len() > MOST_IN_FACET {
        return None;
    }
    Some(more)
}

/// Whether a facet has as many labels as the first one.
fn is_pure(facets: &[Face], labels: &Face) -> bool
    ensures { result ≡ is_pure facets.now labels.now }
{
    match facets.first() {
        Some(first) => first.len() == labels.len(),
        None => true,
    }
}

/// Adds a facet that began at `start`, where it has a good size.
#[tactic(auto, using(crate::proofs::ReadLaws::pure_more))]
fn add_facet(start: usize, labels: Face, facets: &mut Vec<Face>) -> Result<(), TextFault>
    requires some { (0 < length labels) × (length labels ≤ 7) }
    requires pure { ArePure facets.old.items }
    ensures then { (next : Reading) → MatchResult result
        (λ _. facet_then start labels facets.old.items next ≡ next)
        (λ e. Fails e (facet_then start labels facets.old.items next)) }
    ensures added { OnOk result (facets.new.items ≡ facets.old.items ++ labels ∷ []) }
    ensures pure { OnOk result (ArePure facets.new.items) }
{
    if labels.len() == 1 {
        return Err(TextFault::Size(start));
    }
    if !is_pure(facets, &labels) {
        return Err(TextFault::NotPure(start));
    }
    facets.push(labels)?;
    Ok(())
}

/// The complex of these facets.
fn complex_of(alloc: Global, facets: &[Face]) -> Result<Complex, AllocError>
    requires some { 0 < length facets.now }
    requires pure { ArePure facets.now }
    ensures { IfOk result (λ k. k ≡ complex_of facets.now) }
{
    match Complex::from_facets(alloc, facets) {
        Ok(complex) => Ok(complex),
        Err(ComplexFault::Memory) => Err(AllocError),
        Err(ComplexFault::Empty | ComplexFault::Limit(_) | ComplexFault::Mixed(_)) =>
            unreachable!(),
    }
}

/// The complex and the offset after it, where it has few enough facets and labels.
fn keep_limits(complex: Complex, offset: usize) -> Result<(Complex, usize), TextFault>
    ensures read { Gives result (limits_then complex (Ok (complex, offset))) }
    ensures offset { IfOk result (λ x. x.1 ≡ offset) }
{
    if complex.facets().len() > MOST_FACETS {
        return Err(TextFault::TooManyFacets);
    }
    if complex.labels()?.len() > MOST_LABELS {
        return Err(TextFault::TooManyLabels);
    }
    Ok((complex, offset))
}

/// The offset after the complex whose list ended at an offset: a `;` may follow.
fn list_end(bytes: &[u8], from: usize) -> usize
    requires { from ≤ length bytes.now }
    ensures end { result ≡ list_end from (tokens bytes.now from) }
    ensures offset { (from ≤ result) × (result ≤ length bytes.now) }
{
    match next_token(bytes, from) {
        Some(token) => match token.kind {
            TokenKind::Semicolon => token.end,
            _ => from,
        },
        None => from,
    }
}

/// The value of a label's digits, where it is a label.
fn label_of(digits: &[u8]) -> Option<u16>
    requires { AllPass (has Digit) digits.now }
    ensures { SomeIff result (is_label (digits_value 10 digits.now) ≡ true) (digits_value 10 digits.now) }
{
    let mut value: u32 = 0;
    for digit in digits {
        value = (value * 10 + u32::from(*digit - b'0')).min(TOO_GREAT);
    }
    if 1 <= value && value <= GREATEST {
        Some(value as u16)
    } else {
        None
    }
}
