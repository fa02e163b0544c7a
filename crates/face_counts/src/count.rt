// The f-vector and the Euler characteristic.
ghost use Rattle.std.specs.Prelude.{◌≡◌, ◌+◌, ◌<◌, ◌^◌, ℕ, List, IfOk, EachIndex, length, slice_index};
ghost use Rattle.std.specs.List.{flat_map};
ghost use Rattle.complex_core.specs.Labels.{face_cmp};
ghost use Rattle.complex_core.specs.Rising.{rising};
ghost use Rattle.complex_core.specs.Complexes.{IsComplex};
ghost use Rattle.complex_core.specs.Subsets.{subsets_of};
ghost use Rattle.face_counts.specs.Faces.{faces, numbers};
ghost use Rattle.face_counts.specs.Eulers.{euler, odd, signed, alternating};

use complex_core::{Complex, Face};
use std::alloc::{AllocError, Global};

// How many sets of a size the facets contain, each counted once. The list of sets is only room,
// which the next size uses again.
fn count_sets(
    alloc: Global,
    facets: &[Face],
    size: usize,
    sets: &mut Vec<Face>,
) -> Result<u64, AllocError>
    ensures count { IfOk result (λ n. n ≡ length (rising face_cmp (flat_map (subsets_of size) facets.now))) }
    ensures small { IfOk result (λ n. n < 2 ^ 59) }
{
    sets.clear();
    for facet in facets {
        sets.extend_from_slice(&facet.subsets(alloc, size)?)?;
    }
    sets.sort_unstable();
    sets.dedup();
    Ok(sets.as_slice().len() as u64)
}

/// The numbers of faces with 1, 2, .., d + 1 labels: f_0, f_1, .., f_d. A face that several facets
/// contain counts once.
///
/// Each is below 2^59, since the faces of one size fit into memory at 16 bytes each.
pub fn counts(alloc: Global, complex: &Complex) -> Result<Vec<u64>, AllocError>
    ensures counts { IfOk result (λ v. v.items ≡ numbers (faces complex.now.facets) (complex.now.dim + 1)) }
    ensures small { IfOk result (λ v. EachIndex v.items (λ j. slice_index v.items j < 2 ^ 59)) }
    ensures complex { IsComplex complex.now }
{
    let mut all = Vec::new(alloc);
    let mut sets = Vec::new(alloc);
    for j in 0..complex.dim() as usize + 1 {
        all.push(count_sets(alloc, complex.facets(), j + 1, &mut sets)?)?;
    }
    Ok(all)
}

// The number with the sign (-1)^j.
fn signed(j: usize, number: u64) -> i64
    requires { number < 2 ^ 59 }
    ensures { result ≡ signed (odd j) number }
{
    if j % 2 == 0 {
        number as i64
    } else {
        -(number as i64)
    }
}

/// The Euler characteristic of a complex whose numbers of faces are these: the sum of (-1)^j f_j for j
/// from 0 to d.
///
/// It fits, since there are at most seven numbers, and each is below 2^59. It takes no memory.
pub fn euler_from(complex: &Complex, counts: &[u64]) -> i64
    requires counts { counts.now ≡ numbers (faces complex.now.facets) (complex.now.dim + 1) }
    requires small { EachIndex counts.now (λ j. slice_index counts.now j < 2 ^ 59) }
    ensures sum { result ≡ alternating (faces complex.now.facets) (complex.now.dim + 1) }
    ensures total { result ≡ euler complex.now.facets }
{
    // At most seven numbers: `dim` says so.
    let _ = complex.dim();
    let mut sum = 0;
    for (j, number) in counts.iter().enumerate() {
        sum += signed(j, *number);
    }
    sum
}

/// The Euler characteristic: the sum of (-1)^j f_j for j from 0 to d.
pub fn euler(alloc: Global, complex: &Complex) -> Result<i64, AllocError>
    ensures sum { IfOk result (λ z. z ≡ alternating (faces complex.now.facets) (complex.now.dim + 1)) }
    ensures total { IfOk result (λ z. z ≡ euler complex.now.facets) }
{
    let counts = counts(alloc, complex)?;
    Ok(euler_from(complex, &counts))
}
