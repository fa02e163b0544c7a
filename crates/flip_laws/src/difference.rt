// A fact that flips keep and in which two complexes differ.
ghost use Rattle.std.specs.Prelude.{◌↔◌, IfOk, IfSome, IsTrue, MatchOption};
ghost use Rattle.complex_core.specs.Complexes.{IsComplex};
ghost use Rattle.orient_test.specs.Signs.{Orientable};
ghost use Rattle.flip_laws.specs.Differences.{Alike, IsDifference, LeadsToImage, ImageIsAlike};

use complex_core::Complex;
use face_counts::euler;
use orient_test::{Orientation, orient};
use std::alloc::{AllocError, Global};

/// A fact in which two complexes differ, with that of the first and that of the second.
#[derive(Clone, Copy, Debug, PartialEq, Eq)]
pub enum Differ {
    /// The dimensions.
    Dimension(u32, u32),
    /// The Euler characteristics.
    Euler(i64, i64),
    /// Whether the facets have signs that agree.
    Orientable(bool, bool),
}

// Whether the facets have signs that agree.
fn is_orientable(alloc: Global, complex: &Complex) -> Result<bool, AllocError>
    ensures { IfOk result (λ t. IsTrue t ↔ Orientable complex.now.facets) }
{
    match orient(alloc, complex)? {
        Orientation::Oriented(_) => Ok(true),
        Orientation::Clash(_) => Ok(false),
    }
}

// The first of the three facts in which the complexes differ.
fn first_difference(
    alloc: Global,
    first: &Complex,
    second: &Complex,
) -> Result<Option<Differ>, AllocError>
    ensures first { IfOk result (λ r. MatchOption r (Alike first.now second.now) (IsDifference first.now second.now)) }
    ensures complex { IsComplex first.now }
    ensures other { IsComplex second.now }
{
    let dims = (first.dim(), second.dim());
    if dims.0 != dims.1 {
        return Ok(Some(Differ::Dimension(dims.0, dims.1)));
    }
    let (here, there) = (euler(alloc, first)?, euler(alloc, second)?);
    if here != there {
        return Ok(Some(Differ::Euler(here, there)));
    }
    let (here, there) = (is_orientable(alloc, first)?, is_orientable(alloc, second)?);
    if here != there {
        return Ok(Some(Differ::Orientable(here, there)));
    }
    Ok(None)
}

/// The first of the three facts in which two complexes differ, in the order of the variants.
/// `None` exactly where they differ in none.
///
/// Flips and other names of the labels keep these facts. So where two complexes differ in one, no
/// legal flips lead from the first to an image of the second.
pub fn cannot_equal(
    alloc: Global,
    first: &Complex,
    second: &Complex,
) -> Result<Option<Differ>, AllocError>
    ensures first { IfOk result (λ r. MatchOption r (Alike first.now second.now) (IsDifference first.now second.now)) }
    ensures sound { IfOk result (λ r. IfSome r (λ d. LeadsToImage first.now second.now → ⊥)) }
{
    first_difference(alloc, first, second)
}

/// Complexes of which flips lead from one to an image of the other differ in none of the three
/// facts.
pub fn difference_law()
    ensures { ImageIsAlike }
{}
