// The subsets of a face.
ghost use Rattle.std.specs.Prelude.{◌≡◌, ℕ, List, IfOk, IsTrue, ◌↔◌};
ghost use Rattle.std.specs.List.Sorted.{IsStrictlySortedBy};
ghost use Rattle.complex_core.specs.Labels.{face_cmp};
ghost use Rattle.complex_core.specs.Subsets.{IsSubset, lists, subsets_of};

use crate::Face;
use itertools::Itertools;
use std::alloc::{AllocError, Global};

impl Face {
    /// All subsets with so many labels, in rising order: the empty set alone for no labels, and
    /// none for more labels than the face has.
    pub fn subsets(&self, alloc: Global, size: usize) -> Result<Vec<Face>, AllocError>
        ensures subsets { IfOk result (λ v. v.items ≡ subsets_of size self.now) }
        ensures rising { IfOk result (λ v. IsStrictlySortedBy face_cmp v.items) }
        ensures each { IfOk result (λ v. (set : List ℕ) → IsTrue (lists v.items set) ↔ IsSubset self.now size set) }
    {
        let mut all = Vec::new(alloc);
        for labels in self.labels().iter().copied().combinations(alloc, size)? {
            let labels = labels?;
            let mut subset = Face::new();
            subset.extend(&labels);
            all.push(subset)?;
        }
        Ok(all)
    }
}
