// The end of a certificate of a sphere: the boundary of a simplex.
ghost use Rattle.std.specs.Prelude.{◌↔◌, IsTrue};
ghost use Rattle.flip_rules.specs.Boundaries.{IsBoundary};

use crate::link::is_link;
use complex_core::{Complex, Face};

/// Whether the complex is the boundary of a simplex: its facets are all sets of d + 1 labels out of
/// some d + 2 labels. It is the least triangulation of the sphere of dimension d, at which a
/// certificate ends. It takes no memory.
pub fn is_simplex_boundary(complex: &Complex) -> bool
    ensures { IsTrue result ↔ IsBoundary complex.now }
{
    let facets = complex.facets();
    if facets.len() < 2 {
        return false;
    }
    let Some(labels) = facets[0].union(&facets[1]) else {
        return false;
    };
    labels.len() == complex.dim() as usize + 2 && is_link(facets, &Face::new(), &labels)
}
