// Reads one complex, or two.
ghost use Rattle.std.specs.Prelude.{◌≤◌, IfOk, length};
ghost use Rattle.facet_text.specs.Grammar.{complex_at};
ghost use Rattle.facet_text.specs.Writing.{KeepsLimits};
ghost use Rattle.job_answer.specs.Alone.{alone, complex_of, complexes_of, GivesComplex, GivesTwo};

use crate::fault::Fault;
use complex_core::Complex;
use facet_text::{next_token, read_complex};
use std::alloc::Global;

// The complex from an offset on, behind which only blanks stand.
fn read_last(alloc: Global, bytes: &[u8], from: usize) -> Result<Complex, Fault>
    requires { from ≤ length bytes.now }
    ensures read { GivesComplex result (alone bytes.now (complex_at bytes.now from)) }
    ensures limits { IfOk result (λ k. KeepsLimits k) }
{
    let (complex, offset) = read_complex(alloc, bytes, from)?;
    match next_token(bytes, offset) {
        Some(token) => Err(Fault::Syntax(token.start)),
        None => Ok(complex),
    }
}

/// The complex of an input, behind which only blanks stand.
pub fn read_alone(alloc: Global, bytes: &[u8]) -> Result<Complex, Fault>
    ensures read { GivesComplex result (complex_of bytes.now) }
    ensures limits { IfOk result (λ k. KeepsLimits k) }
{
    read_last(alloc, bytes, 0)
}

/// The two complexes of an input, one behind the other, behind which only blanks stand.
pub fn read_two(alloc: Global, bytes: &[u8]) -> Result<(Complex, Complex), Fault>
    ensures read { GivesTwo result (complexes_of bytes.now) }
    ensures limits { IfOk result (λ ks. KeepsLimits ks.0 × KeepsLimits ks.1) }
{
    let (first, offset) = read_complex(alloc, bytes, 0)?;
    let second = read_last(alloc, bytes, offset)?;
    Ok((first, second))
}
