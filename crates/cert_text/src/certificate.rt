//! Certificates.

use complex_core::{Complex, VertexMap};
use flip_rules::Flip;

/// Flips that show something of a complex.
#[derive(Drop)]
pub enum Certificate {
    /// The flips end in the boundary of a simplex.
    Sphere(Vec<Flip>),
    /// The flips end in a complex that the map takes to the target.
    Equal {
        target: Complex,
        flips: Vec<Flip>,
        map: VertexMap,
    },
    /// For each vertex the flips end, from its link, in the boundary of a simplex.
    Manifold(Vec<(u16, Vec<Flip>)>),
}
