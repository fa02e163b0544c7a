//! The reader of certificates.

ghost use Rattle.std.specs.Prelude.{◌≡◌, ◌∷◌, ◌≤◌, ◌<◌, List, IfOk, length};
ghost use Rattle.facet_text.specs.Lines.{Item, items};
ghost use Rattle.cert_text.specs.Statements.{statement};
ghost use Rattle.cert_text.specs.Readings.{Gives, Passes, Reads};
ghost use Rattle.cert_text.specs.Grammar.{body_at, certificate_at, equal_at, header_at, kind_at, kind_of, manifold_at, sphere_at, target_at, version_at};

use crate::certificate::Certificate;
use crate::fault::CertFault;
use crate::line::{end_of_line, is_word, next_line, nothing_left, read_number};
use crate::part::{read_flips, read_map, read_vertices};
use complex_core::Complex;
use facet_text::{TextFault, read_complex};
use line_text::word_here;
use std::alloc::Global;

/// The kinds of certificates.
#[derive(Clone, Copy)]
enum Kind {
    Sphere,
    Equal,
    Manifold,
}

/// Reads the certificate that stands from an offset to the end of the input.
#[tactic(auto, using(crate::proofs::Parts::fails_first, crate::proofs::Parts::fails_after, crate::proofs::Parts::first_read), unfolding(crate::specs::Grammar::certificate_at, crate::specs::Grammar::body_at))]
pub fn read_certificate(alloc: Global, bytes: &[u8], from: usize) -> Result<Certificate, CertFault>
    requires { from ≤ length bytes.now }
    ensures read { Gives statement result (certificate_at bytes.now from) }
{
    let (kind, offset) = read_header(bytes, from)?;
    match kind {
        Kind::Sphere => read_sphere(alloc, bytes, offset),
        Kind::Equal => read_equal(alloc, bytes, offset),
        Kind::Manifold => read_manifold(alloc, bytes, offset),
    }
}

/// The first line, to its end.
#[tactic(auto, using(crate::proofs::Parts::fails_first, crate::proofs::Parts::fails_after, crate::proofs::Parts::first_read), unfolding(crate::specs::Grammar::header_at, crate::specs::Lines::word_at))]
fn read_header(bytes: &[u8], from: usize) -> Result<(Kind, usize), CertFault>
    requires { from ≤ length bytes.now }
    ensures read { Reads bytes.now (λ k. k) result (header_at (items bytes.now from)) }
    ensures end { IfOk result (λ x. (rest : List Item) × (items bytes.now x.1 ≡ Item.line_end x.1 ∷ rest)) }
    ensures offset { IfOk result (λ x. (from < x.1) × (x.1 ≤ length bytes.now)) }
{
    let word = next_line(bytes, from)?;
    if !is_word(word.text, b"bistellar") {
        return Err(CertFault::Syntax(word.start));
    }
    let offset = read_version(bytes, word.end)?;
    let (kind, offset) = read_kind(bytes, offset)?;
    let end = end_of_line(bytes, offset)?;
    Ok((kind, end))
}

/// The version, which is 1.
#[tactic(auto, using(crate::proofs::Parts::fails_first, crate::proofs::Parts::fails_after, crate::proofs::Parts::first_read), unfolding(crate::specs::Grammar::version_at))]
fn read_version(bytes: &[u8], from: usize) -> Result<usize, CertFault>
    requires { from ≤ length bytes.now }
    ensures read { Passes bytes.now result (version_at (items bytes.now from)) }
    ensures offset { IfOk result (λ offset. (from < offset) × (offset ≤ length bytes.now)) }
{
    let number = read_number(bytes, from)?;
    match number.value {
        Some(1) => Ok(number.end),
        _ => Err(CertFault::Syntax(number.start)),
    }
}

/// The kind that a word names.
fn kind_of(text: &[u8]) -> Option<Kind>
    ensures { result ≡ kind_of text.now }
{
    if is_word(text, b"sphere") {
        Some(Kind::Sphere)
    } else if is_word(text, b"equal") {
        Some(Kind::Equal)
    } else if is_word(text, b"manifold") {
        Some(Kind::Manifold)
    } else {
        None
    }
}

/// The word of a kind.
#[tactic(auto, unfolding(crate::specs::Grammar::kind_at))]
fn read_kind(bytes: &[u8], from: usize) -> Result<(Kind, usize), CertFault>
    requires { from ≤ length bytes.now }
    ensures read { Reads bytes.now (λ k. k) result (kind_at (items bytes.now from)) }
    ensures offset { IfOk result (λ x. (from < x.1) × (x.1 ≤ length bytes.now)) }
{
    let word = match word_here(bytes, from) {
        Ok(word) => word,
        Err(end) => return Err(CertFault::Syntax(end)),
    };
    match kind_of(word.text) {
        Some(kind) => Ok((kind, word.end)),
        None => Err(CertFault::Syntax(word.start)),
    }
}

/// Flips alone.
#[tactic(auto, using(crate::proofs::Parts::fails_first, crate::proofs::Parts::fails_after, crate::proofs::Parts::first_read), unfolding(crate::specs::Grammar::sphere_at))]
fn read_sphere(alloc: Global, bytes: &[u8], from: usize) -> Result<Certificate, CertFault>
    requires { from ≤ length bytes.now }
    ensures { Gives statement result (sphere_at (items bytes.now from)) }
{
    let (flips, offset) = read_flips(alloc, bytes, from)?;
    nothing_left(bytes, offset)?;
    Ok(Certificate::Sphere(flips))
}

/// The complex from a line's end on.
#[tactic(auto, using(crate::proofs::Parts::fails_first, crate::proofs::Parts::fails_after, crate::proofs::Parts::first_read), unfolding(crate::specs::Grammar::target_at))]
fn read_target(alloc: Global, bytes: &[u8], from: usize) -> Result<(Complex, usize), CertFault>
    requires from { from ≤ length bytes.now }
    requires end { (rest : List Item) × (items bytes.now from ≡ Item.line_end from ∷ rest) }
    ensures read { Reads bytes.now (λ k. k) result (target_at bytes.now (items bytes.now from)) }
    ensures offset { IfOk result (λ x. (from < x.1) × (x.1 ≤ length bytes.now)) }
{
    match read_complex(alloc, bytes, from) {
        Ok((target, offset)) => Ok((target, offset)),
        Err(TextFault::Memory) => Err(CertFault::Memory),
        Err(fault) => Err(CertFault::Target(fault)),
    }
}

/// A target, flips and a map.
#[tactic(auto, using(crate::proofs::Parts::fails_first, crate::proofs::Parts::fails_after, crate::proofs::Parts::first_read), unfolding(crate::specs::Grammar::equal_at))]
fn read_equal(alloc: Global, bytes: &[u8], from: usize) -> Result<Certificate, CertFault>
    requires from { from ≤ length bytes.now }
    requires end { (rest : List Item) × (items bytes.now from ≡ Item.line_end from ∷ rest) }
    ensures { Gives statement result (equal_at bytes.now (items bytes.now from)) }
{
    let (target, offset) = read_target(alloc, bytes, from)?;
    let (flips, offset) = read_flips(alloc, bytes, offset)?;
    let (map, offset) = read_map(alloc, bytes, offset)?;
    nothing_left(bytes, offset)?;
    Ok(Certificate::Equal { target, flips, map })
}

/// Vertices with flips.
#[tactic(auto, using(crate::proofs::Parts::fails_first, crate::proofs::Parts::fails_after, crate::proofs::Parts::first_read), unfolding(crate::specs::Grammar::manifold_at))]
fn read_manifold(alloc: Global, bytes: &[u8], from: usize) -> Result<Certificate, CertFault>
    requires { from ≤ length bytes.now }
    ensures { Gives statement result (manifold_at (items bytes.now from)) }
{
    let (vertices, offset) = read_vertices(alloc, bytes, from)?;
    nothing_left(bytes, offset)?;
    Ok(Certificate::Manifold(vertices))
}
