// The link of a face.
ghost use Rattle.std.specs.Prelude.{◌≡◌, ◌≤◌, ◌<◌, IfOk, length, map, true};
ghost use Rattle.std.specs.Option.{SomeIff};
ghost use Rattle.complex_core.specs.Complexes.{is_face};
ghost use Rattle.complex_core.specs.Links.{less, link};

use crate::{Complex, Face};
use std::alloc::{AllocError, Global};

impl Complex {
    /// The link of a face that is no facet: the facets that contain it, less its labels. `None`
    /// exactly where the set is no face.
    pub fn link(&self, face: &Face) -> Result<Option<Complex>, AllocError>
        requires some { 0 < length face.now }
        requires proper { length face.now ≤ self.now.dim }
        ensures { IfOk result (λ k. SomeIff k (is_face self.now.facets face.now ≡ true) (link self.now face.now)) }
    {
        let around = self.over(face)?;
        if around.is_empty() {
            return Ok(None);
        }
        let dim = self.dim() - face.len() as u32;
        let facets = all_less(self.allocator(), &around, face)?;
        Ok(Some(Complex::sorted(dim, facets)))
    }
}

// The facets without the labels of a face.
fn all_less(alloc: Global, facets: &[Face], face: &Face) -> Result<Vec<Face>, AllocError>
    ensures { IfOk result (λ v. v.items ≡ map (λ f. less f face.now) facets.now) }
{
    facets.iter().map(|facet| facet.less(face)).collect(alloc)
}
