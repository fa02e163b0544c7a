// The first fact of a sphere that a complex lacks.
ghost use Rattle.std.specs.Prelude.{◌≡◌, IfOk, IfSome, MatchOption};
ghost use lib.IntN.{pos, ◌+ℤ◌};
ghost use Rattle.complex_core.specs.Complexes.{IsComplex};
ghost use Rattle.face_counts.specs.Eulers.{power};
ghost use Rattle.flip_laws.specs.Obstacles.{LooksLikeSphere, IsObstacle, NeverReaches, BoundaryLooks, ReachingLooks};

use complex_core::Complex;
use face_counts::euler;
use orient_test::{Orientation, orient};
use pseudo_test::{Apart, Ridge, closed, strong};
use std::alloc::{AllocError, Global};

/// Why no legal flips lead from a complex to the boundary of a simplex.
#[derive(Clone, Copy, PartialEq, Eq)]
pub enum Obstacle {
    /// This ridge, the least one, doesn't lie in two facets.
    NotClosed(Ridge),
    /// No chain of facets joins these two.
    NotStrong(Apart),
    /// The Euler characteristic, which isn't 1 + (-1)^d.
    Euler(i64),
    /// The facets have no signs that agree.
    NotOrientable,
}

// The Euler characteristic of the sphere of this dimension, 1 + (-1)^d.
fn sphere_euler(dim: u32) -> i64
    ensures { result ≡ pos 1 +ℤ power dim }
{
    if dim % 2 == 0 { 2 } else { 0 }
}

// The first fact of the boundary of a simplex that the complex lacks.
fn first_obstacle(alloc: Global, complex: &Complex) -> Result<Option<Obstacle>, AllocError>
    ensures first { IfOk result (λ r. MatchOption r (LooksLikeSphere complex.now) (IsObstacle complex.now)) }
    ensures complex { IsComplex complex.now }
{
    let dim = complex.dim();
    if let Some(ridge) = closed(alloc, complex)? {
        return Ok(Some(Obstacle::NotClosed(ridge)));
    }
    if let Some(apart) = strong(alloc, complex)? {
        return Ok(Some(Obstacle::NotStrong(apart)));
    }
    let characteristic = euler(alloc, complex)?;
    if characteristic != sphere_euler(dim) {
        return Ok(Some(Obstacle::Euler(characteristic)));
    }
    match orient(alloc, complex)? {
        Orientation::Oriented(_) => Ok(None),
        Orientation::Clash(_) => Ok(Some(Obstacle::NotOrientable)),
    }
}

/// The first fact of the boundary of a simplex that a complex lacks, in the order of the variants.
/// `None` exactly where it has all four.
///
/// Flips keep these facts. So where a complex lacks one, no legal flips lead from it to the
/// boundary of a simplex.
pub fn cannot_reach(alloc: Global, complex: &Complex) -> Result<Option<Obstacle>, AllocError>
    ensures first { IfOk result (λ r. MatchOption r (LooksLikeSphere complex.now) (IsObstacle complex.now)) }
    ensures sound { IfOk result (λ r. IfSome r (λ o. NeverReaches complex.now)) }
{
    first_obstacle(alloc, complex)
}

/// The boundary of a simplex has the four facts, and so has every complex from which legal flips
/// lead to one.
pub fn obstacle_law()
    ensures boundary { BoundaryLooks }
    ensures reaching { ReachingLooks }
{}
