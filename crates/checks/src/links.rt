// The least bad faces of complexes that were worked out by hand.
use crate::samples::{OCTAHEDRON, complex};
use complex_core::Face;
use link_check::{LinkFact, bad_link};
use pseudo_test::Apart;
use std::alloc::Global;
use std::test::Fail;

// The suspension of the torus of seven vertices, with the ends 8 and 9.
const SUSPENDED_TORUS: [&[u16]; 28] = [
    &[1, 2, 4, 8],
    &[1, 2, 6, 8],
    &[1, 3, 4, 8],
    &[1, 3, 7, 8],
    &[1, 5, 6, 8],
    &[1, 5, 7, 8],
    &[2, 3, 5, 8],
    &[2, 3, 7, 8],
    &[2, 4, 5, 8],
    &[2, 6, 7, 8],
    &[3, 4, 6, 8],
    &[3, 5, 6, 8],
    &[4, 5, 7, 8],
    &[4, 6, 7, 8],
    &[1, 2, 4, 9],
    &[1, 2, 6, 9],
    &[1, 3, 4, 9],
    &[1, 3, 7, 9],
    &[1, 5, 6, 9],
    &[1, 5, 7, 9],
    &[2, 3, 5, 9],
    &[2, 3, 7, 9],
    &[2, 4, 5, 9],
    &[2, 6, 7, 9],
    &[3, 4, 6, 9],
    &[3, 5, 6, 9],
    &[4, 5, 7, 9],
    &[4, 6, 7, 9],
];

// Two tetrahedra that share the vertex 1.
const PINCHED: [&[u16]; 8] = [
    &[1, 2, 3],
    &[1, 2, 4],
    &[1, 3, 4],
    &[2, 3, 4],
    &[1, 5, 6],
    &[1, 5, 7],
    &[1, 6, 7],
    &[5, 6, 7],
];

// Each vertex has a good link, and the edge 1 2 lies in three facets.
const TRIPLE_EDGE: [&[u16]; 10] = [
    &[1, 2, 3],
    &[1, 2, 5],
    &[1, 2, 6],
    &[1, 3, 4],
    &[1, 4, 6],
    &[2, 3, 5],
    &[2, 4, 5],
    &[3, 4, 6],
    &[3, 5, 6],
    &[4, 5, 6],
];

// The projective plane of six vertices.
const PROJECTIVE_PLANE: [&[u16]; 10] = [
    &[1, 2, 3],
    &[1, 2, 4],
    &[1, 3, 5],
    &[1, 4, 6],
    &[1, 5, 6],
    &[2, 3, 6],
    &[2, 4, 5],
    &[2, 5, 6],
    &[3, 4, 5],
    &[3, 4, 6],
];

// Whether this face is the least bad one, for this reason, or where no reason is given, none is bad.
fn finds(
    alloc: Global,
    sets: &[&[u16]],
    labels: &[u16],
    fact: Option<LinkFact>,
) -> Result<bool, Fail> {
    let face = Face::from_slice(labels)?;
    let complex = complex(alloc, sets)?;
    match bad_link(alloc, &complex)? {
        Some(bad) => Ok(bad.face == face && Some(bad.fact) == fact),
        None => Ok(fact.is_none()),
    }
}

#[test]
fn a_pinched_vertex_splits(rt: HostRuntime) -> Result<(), Fail> {
    let apart = LinkFact::Split(Apart {
        first: Face::from_slice(&[2, 3])?,
        other: Face::from_slice(&[5, 6])?,
    });
    assert!(rt; finds(rt.alloc(), &PINCHED, &[1], Some(apart))?);
    Ok(())
}

#[test]
fn the_euler_characteristic_tells_first(rt: HostRuntime) -> Result<(), Fail> {
    assert!(rt; finds(rt.alloc(), &SUSPENDED_TORUS, &[8], Some(LinkFact::Euler(0)))?);
    // The link of 1 is two arcs: it splits as well, but its characteristic is judged before that.
    let arcs: [&[u16]; 2] = [&[1, 2, 3], &[1, 4, 5]];
    assert!(rt; finds(rt.alloc(), &arcs, &[1], Some(LinkFact::Euler(2)))?);
    Ok(())
}

#[test]
fn larger_faces_are_looked_at(rt: HostRuntime) -> Result<(), Fail> {
    assert!(rt; finds(rt.alloc(), &TRIPLE_EDGE, &[1, 2], Some(LinkFact::Euler(3)))?);
    Ok(())
}

#[test]
fn surfaces_have_none(rt: HostRuntime) -> Result<(), Fail> {
    assert!(rt; finds(rt.alloc(), &OCTAHEDRON, &[], None)?);
    assert!(rt; finds(rt.alloc(), &PROJECTIVE_PLANE, &[], None)?);
    // Points have no face with a link.
    let three_points: [&[u16]; 3] = [&[1], &[2], &[3]];
    assert!(rt; finds(rt.alloc(), &three_points, &[], None)?);
    Ok(())
}
