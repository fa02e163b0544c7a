// Complexes and flips for the tests.
use complex_core::{Complex, Face};
use flip_rules::Flip;
use std::alloc::Global;
use std::test::Fail;

// The boundary of the octahedron, in which 1 and 6, 2 and 5, 3 and 4 are opposite.
pub(crate) const OCTAHEDRON: [&[u16]; 8] = [
    &[1, 2, 3],
    &[1, 2, 4],
    &[1, 3, 5],
    &[1, 4, 5],
    &[2, 3, 6],
    &[2, 4, 6],
    &[3, 5, 6],
    &[4, 5, 6],
];

// The torus of seven vertices.
pub(crate) const TORUS: [&[u16]; 14] = [
    &[1, 2, 4],
    &[1, 2, 6],
    &[1, 3, 4],
    &[1, 3, 7],
    &[1, 5, 6],
    &[1, 5, 7],
    &[2, 3, 5],
    &[2, 3, 7],
    &[2, 4, 5],
    &[2, 6, 7],
    &[3, 4, 6],
    &[3, 5, 6],
    &[4, 5, 7],
    &[4, 6, 7],
];

pub(crate) const SQUARE: [&[u16]; 4] = [&[1, 2], &[1, 4], &[2, 3], &[3, 4]];

pub(crate) fn complex(alloc: Global, sets: &[&[u16]]) -> Result<Complex, Fail> {
    let mut facets = Vec::new(alloc);
    for set in sets {
        facets.push(Face::from_slice(set)?)?;
    }
    Ok(Complex::from_facets(alloc, &facets)?)
}

pub(crate) fn flip(a: &[u16], b: &[u16]) -> Result<Flip, Fail> {
    Ok(Flip {
        a: Face::from_slice(a)?,
        b: Face::from_slice(b)?,
    })
}
