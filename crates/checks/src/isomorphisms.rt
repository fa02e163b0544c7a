// The least map from one complex to another.
use crate::samples::{OCTAHEDRON, TORUS, complex};
use facet_iso::{IsoFault, isomorphism};
use std::alloc::Global;
use std::test::Fail;

// The octahedron in which 1 and 2, 3 and 4, 5 and 6 are opposite.
const OTHER_OCTAHEDRON: [&[u16]; 8] = [
    &[1, 3, 5],
    &[1, 3, 6],
    &[1, 4, 5],
    &[1, 4, 6],
    &[2, 3, 5],
    &[2, 3, 6],
    &[2, 4, 5],
    &[2, 4, 6],
];

// The tetrahedron, stacked twice: as many facets and labels as the octahedron has.
const STACKED: [&[u16]; 8] = [
    &[1, 2, 3],
    &[1, 2, 4],
    &[1, 3, 4],
    &[2, 3, 5],
    &[2, 4, 5],
    &[3, 4, 6],
    &[3, 5, 6],
    &[4, 5, 6],
];

fn is_least(
    alloc: Global,
    first: &[&[u16]],
    second: &[&[u16]],
    pairs: &[(u16, u16)],
) -> Result<bool, Fail> {
    let first = complex(alloc, first)?;
    let second = complex(alloc, second)?;
    match isomorphism(alloc, &first, &second) {
        Ok(Some(map)) => Ok(map.pairs() == pairs),
        _ => Ok(false),
    }
}

fn is_none(alloc: Global, first: &[&[u16]], second: &[&[u16]]) -> Result<bool, Fail> {
    let first = complex(alloc, first)?;
    let second = complex(alloc, second)?;
    match isomorphism(alloc, &first, &second) {
        Ok(map) => Ok(map.is_none()),
        Err(_) => Ok(false),
    }
}

fn unfit(alloc: Global, first: &[&[u16]], second: &[&[u16]]) -> Result<u32, Fail> {
    let first = complex(alloc, first)?;
    let second = complex(alloc, second)?;
    match isomorphism(alloc, &first, &second) {
        Err(IsoFault::Unfit(which)) => Ok(which),
        _ => Ok(0),
    }
}

#[test]
fn the_least_map_is_found(rt: HostRuntime) -> Result<(), Fail> {
    let opposite = [(1, 1), (2, 3), (3, 5), (4, 6), (5, 4), (6, 2)];
    assert!(rt; is_least(rt.alloc(), &OCTAHEDRON, &OTHER_OCTAHEDRON, &opposite)?);
    // The end 1 goes to the end 7, since 5 is in the middle.
    let turned = [(1, 7), (2, 5), (3, 9)];
    assert!(rt;
        is_least(
            rt.alloc(),
            &[&[1, 2], &[2, 3]],
            &[&[5, 7], &[5, 9]],
            &turned
        )?
    );
    Ok(())
}

#[test]
fn no_map_leads_to_another_complex(rt: HostRuntime) -> Result<(), Fail> {
    assert!(rt; is_none(rt.alloc(), &OCTAHEDRON, &STACKED)?);
    assert!(rt; is_none(rt.alloc(), &OCTAHEDRON, &TORUS)?);
    assert!(rt;
        is_none(
            rt.alloc(),
            &[&[1, 2], &[2, 3], &[3, 4]],
            &[&[1, 2], &[1, 3], &[2, 3]]
        )?
    );
    Ok(())
}

#[test]
fn the_first_unfit_complex_is_named(rt: HostRuntime) -> Result<(), Fail> {
    let apart: [&[u16]; 2] = [&[1, 2, 3], &[4, 5, 6]];
    let thick: [&[u16]; 3] = [&[1, 2, 3], &[1, 2, 4], &[1, 2, 5]];
    assert!(rt; unfit(rt.alloc(), &apart, &OCTAHEDRON)? == 1);
    assert!(rt; unfit(rt.alloc(), &OCTAHEDRON, &thick)? == 2);
    assert!(rt; unfit(rt.alloc(), &thick, &apart)? == 1);
    assert!(rt; unfit(rt.alloc(), &OCTAHEDRON, &STACKED)? == 0);
    Ok(())
}
