//! The facets of the named complexes.

ghost use Rattle.std.specs.Prelude.{◌≡◌, ◌≤◌, ◌<◌, ◌+◌, ◌-◌, ◌*◌, ◌++◌, true, IfOk, OnOk, length, map};
ghost use Rattle.std.specs.List.{AllByRecursion};
ghost use Rattle.complex_core.specs.Labels.{IsFace, with, face_cmp};
ghost use Rattle.complex_core.specs.Rising.{rising};
ghost use Rattle.complex_core.specs.ComplexFaults.{CanMake, first_size};
ghost use Rattle.make_complex.specs.Kinds.{is_surface};
ghost use Rattle.make_complex.specs.Named.{labels_to, named_complex, one_of_each, simplex_facets};

use crate::Kind;
use complex_core::{Complex, ComplexFault, Face};
use std::alloc::{AllocError, Global};

const LABELS: [u16; 8] = [1, 2, 3, 4, 5, 6, 7, 8];

// {i, i + 1, i + 3} and {i, i + 2, i + 3}, modulo 7 with 7 for 0.
const TORUS: [[u16; 3]; 14] = [
    [1, 2, 4],
    [1, 2, 6],
    [1, 3, 4],
    [1, 3, 7],
    [1, 5, 6],
    [1, 5, 7],
    [2, 3, 5],
    [2, 3, 7],
    [2, 4, 5],
    [2, 6, 7],
    [3, 4, 6],
    [3, 5, 6],
    [4, 5, 7],
    [4, 6, 7],
];

const PLANE: [[u16; 3]; 10] = [
    [1, 2, 3],
    [1, 2, 6],
    [1, 3, 4],
    [1, 4, 5],
    [1, 5, 6],
    [2, 3, 5],
    [2, 4, 5],
    [2, 4, 6],
    [3, 4, 6],
    [3, 5, 6],
];

// The face of labels that rise.
fn face_of(labels: &[u16]) -> Face
    requires { IsFace labels.now }
    ensures { result ≡ labels.now }
{
    match Face::from_slice(labels) {
        Ok(face) => face,
        Err(_) => unreachable!(),
    }
}

// All sets of d + 1 labels out of 1 to d + 2.
fn simplex(alloc: Global, dim: u32) -> Result<Vec<Face>, AllocError>
    requires low { 1 ≤ dim }
    requires high { dim ≤ 6 }
    ensures { IfOk result (λ v. v.items ≡ simplex_facets dim) }
{
    let count = dim as usize + 2;
    let all = face_of(&LABELS[..count]).subsets(alloc, count - 1)?;
    Ok(all)
}

// Some sets of at most seven labels, each with one label more.
fn add_to_each(all: &mut Vec<Face>, sets: &[Face], label: u16) -> Result<(), AllocError>
    requires few { AllByRecursion (λ f. length f ≤ 7) sets.now }
    requires label { 0 < label }
    ensures { OnOk result (all.new.items ≡ all.old.items ++ map (λ f. with f label) sets.now) }
{
    for set in sets {
        let Some(more) = set.with(label) else {
            unreachable!()
        };
        all.push(more)?;
    }
    Ok(())
}

// All sets of one label of each antipodal pair.
fn cross(alloc: Global, dim: u32) -> Result<Vec<Face>, AllocError>
    requires { dim ≤ 6 }
    ensures { IfOk result (λ v. v.items ≡ one_of_each (2 * dim + 3) (dim + 1)) }
{
    let sum = 2 * dim as u16 + 3;
    let mut sets = Vec::new(alloc);
    sets.push(Face::new())?;
    for pair in 0..dim as u16 + 1 {
        let mut more = Vec::new(alloc);
        add_to_each(&mut more, &sets, pair + 1)?;
        add_to_each(&mut more, &sets, sum - (pair + 1))?;
        sets = more;
    }
    Ok(sets)
}

// The faces of rows of a table.
fn triangles(alloc: Global, rows: &[[u16; 3]]) -> Result<Vec<Face>, AllocError>
    requires { AllByRecursion IsFace rows.now }
    ensures { IfOk result (λ v. v.items ≡ rows.now) }
{
    let mut all = Vec::new(alloc);
    for row in rows {
        all.push(face_of(row))?;
    }
    Ok(all)
}

// The complex of these facets, which are some, and of one size.
fn complex_of(alloc: Global, dim: u32, facets: &[Face]) -> Result<Complex, AllocError>
    requires can { CanMake facets.now }
    requires size { first_size facets.now ≡ dim + 1 }
    ensures { IfOk result (λ k. k ≡ record { dim = dim; facets = rising face_cmp facets.now }) }
{
    match Complex::from_facets(alloc, facets) {
        Ok(complex) => Ok(complex),
        Err(ComplexFault::Memory) => Err(AllocError),
        Err(ComplexFault::Empty) => unreachable!(),
        Err(ComplexFault::Limit(_)) => unreachable!(),
        Err(ComplexFault::Mixed(_)) => unreachable!(),
    }
}

/// The named complex of a kind and a dimension.
pub fn named(alloc: Global, kind: Kind, dim: u32) -> Result<Complex, AllocError>
    requires low { 1 ≤ dim }
    requires high { dim ≤ 6 }
    requires surface { is_surface kind ≡ true → dim ≡ 2 }
    ensures { IfOk result (λ k. k ≡ named_complex kind dim) }
{
    match kind {
        Kind::Simplex => {
            let facets = simplex(alloc, dim)?;
            complex_of(alloc, dim, &facets)
        }
        Kind::Cross => {
            let facets = cross(alloc, dim)?;
            complex_of(alloc, dim, &facets)
        }
        Kind::Torus => {
            let facets = triangles(alloc, &TORUS)?;
            complex_of(alloc, dim, &facets)
        }
        Kind::Plane => {
            let facets = triangles(alloc, &PLANE)?;
            complex_of(alloc, dim, &facets)
        }
    }
}
