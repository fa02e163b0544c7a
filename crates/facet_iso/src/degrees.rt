// In how many facets each label lies.
ghost use Rattle.std.specs.Prelude.{◌≡◌, ◌<◌, ◌+◌, ◌^◌, ℕ, IfOk, length, if◌then◌else◌};
ghost use Rattle.std.proofs.Common.{get_or};
ghost use Rattle.complex_core.specs.Labels.{has};
ghost use Rattle.facet_iso.specs.Degrees.{HasDegrees};

use complex_core::{Complex, Face};
use std::alloc::{AllocError, Global};

/// In how many facets each label lies, 0 at those that aren't used.
pub(crate) fn degrees(alloc: Global, complex: &Complex) -> Result<Vec<usize>, AllocError>
    ensures { IfOk result (λ v. HasDegrees complex.now.facets v.items) }
{
    let mut degrees = Vec::from_elem(alloc, 0, 65536)?;
    for facet in complex.facets() {
        count_labels(facet, &mut degrees);
    }
    Ok(degrees)
}

// Counts each label of a facet once more.
fn count_labels(facet: &Face, degrees: &mut Vec<usize>)
    requires all { length degrees.old.items ≡ 65536 }
    requires low { (x : ℕ) → get_or degrees.old.items x 0 < 2 ^ 63 }
    ensures all { length degrees.new.items ≡ 65536 }
    ensures counted { (x : ℕ) → get_or degrees.new.items x 0 ≡ get_or degrees.old.items x 0 + (if has facet.now x then 1 else 0) }
{
    for label in facet.labels().as_slice() {
        degrees[usize::from(*label)] += 1;
    }
}
