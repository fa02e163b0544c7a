// Flips on complexes, what they keep, and flips in other labels.
use crate::samples::{OCTAHEDRON, SQUARE, TORUS, complex, flip};
use complex_core::VertexMap;
use flip_laws::{Differ, cannot_equal, flip_keeping};
use flip_names::{named_flip, named_flips};
use flip_options::Descended;
use pseudo_test::thin;
use std::alloc::Global;
use std::test::Fail;

#[test]
fn three_flips_lead_the_octahedron_to_a_boundary(rt: HostRuntime) -> Result<(), Fail> {
    let mut sphere = complex(rt.alloc(), &OCTAHEDRON)?;
    let rows: [(&[u16], &[u16], usize); 3] = [
        (&[1, 2], &[3, 4], 8),
        (&[1], &[3, 4, 5], 6),
        (&[2], &[3, 4, 6], 4),
    ];
    for (a, b, facets) in rows {
        let flip = flip(a, b)?;
        assert!(rt; flip_keeping(&mut sphere, &flip) == Ok(()));
        assert!(rt; sphere.facets().len() == facets);
    }
    Ok(())
}

fn difference(alloc: Global, first: &[&[u16]], other: &[&[u16]]) -> Result<Option<Differ>, Fail> {
    let first = complex(alloc, first)?;
    let other = complex(alloc, other)?;
    Ok(cannot_equal(alloc, &first, &other)?)
}

#[test]
fn the_first_difference_of_two_complexes_is_named(rt: HostRuntime) -> Result<(), Fail> {
    let first = difference(rt.alloc(), &SQUARE, &OCTAHEDRON)?;
    assert!(rt; first == Some(Differ::Dimension(1, 2)));
    let second = difference(rt.alloc(), &TORUS, &OCTAHEDRON)?;
    assert!(rt; second == Some(Differ::Euler(0, 2)));
    assert!(rt; difference(rt.alloc(), &SQUARE, &SQUARE)?.is_none());
    Ok(())
}

fn is_thin(alloc: Global, sets: &[&[u16]]) -> Result<bool, Fail> {
    let complex = complex(alloc, sets)?;
    Ok(thin(alloc, &complex)?)
}

#[test]
fn a_ridge_of_three_facets_is_not_thin(rt: HostRuntime) -> Result<(), Fail> {
    assert!(rt; is_thin(rt.alloc(), &[&[1, 2, 3], &[1, 2, 4]])?);
    assert!(rt; !is_thin(rt.alloc(), &[&[1, 2, 3], &[1, 2, 4], &[1, 2, 5]])?);
    Ok(())
}

#[test]
fn a_flip_gets_other_labels(rt: HostRuntime) -> Result<(), Fail> {
    let flip_here = flip(&[1, 2], &[5, 6])?;
    let wanted = flip(&[4, 9], &[1, 70])?;
    let names = VertexMap::from_pairs(rt.alloc(), &[(1, 9), (2, 4), (5, 1), (6, 70)])?;
    assert!(rt; named_flip(&flip_here, &names).is_some());
    let mut flips = Vec::new(rt.alloc());
    flips.push(flip_here)?;
    let named = named_flips(rt.alloc(), &flips, &names)?;
    assert!(rt; named.as_slice() == [wanted].as_slice());
    Ok(())
}

#[test]
fn a_descent_runs_on_places_with_names(rt: HostRuntime) -> Result<(), Fail> {
    let wanted = flip(&[1], &[2, 4])?;
    let input = complex(rt.alloc(), &[&[10, 20], &[20, 30], &[30, 40], &[10, 40]])?;
    let labels = input.labels()?;
    assert!(rt; !labels.is_empty());
    assert!(rt; labels[labels.len() - 1] < 60_000);
    let done = Descended::of(rt.alloc(), input, 1)?;
    assert!(rt; done.names().get(4) == Some(40) && done.names().get(5) == Some(41));
    assert!(rt; done.flips() == [wanted].as_slice() && done.end().facets().len() == 3);
    Ok(())
}
