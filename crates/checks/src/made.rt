// Named complexes, and what draws make of them. The words of the draws were worked out from the rules of PCG, and the
// draws by hand from the words.
ghost use Rattle.std.specs.Prelude.{◌≤◌};

use crate::samples::{OCTAHEDRON, TORUS, complex};
use make_complex::{Kind, make};
use std::alloc::Global;
use std::test::Fail;

const TETRAHEDRON: [&[u16]; 4] = [&[1, 2, 3], &[1, 2, 4], &[1, 3, 4], &[2, 3, 4]];

const PLANE: [&[u16]; 10] = [
    &[1, 2, 3],
    &[1, 2, 6],
    &[1, 3, 4],
    &[1, 4, 5],
    &[1, 5, 6],
    &[2, 3, 5],
    &[2, 4, 5],
    &[2, 4, 6],
    &[3, 4, 6],
    &[3, 5, 6],
];

// The second draw of seed 0 takes the triangle 123 out for the new label 5.
const DRAWN_TWICE: [&[u16]; 6] = [
    &[1, 2, 4],
    &[1, 2, 5],
    &[1, 3, 4],
    &[1, 3, 5],
    &[2, 3, 4],
    &[2, 3, 5],
];

// The third one takes the edge 12 out for 45. The next two are passed over: no flip takes 4 out, and 45 is an edge. The
// sixth takes 235 out for the new label 6.
const DRAWN_SIX_TIMES: [&[u16]; 8] = [
    &[1, 3, 4],
    &[1, 3, 5],
    &[1, 4, 5],
    &[2, 3, 4],
    &[2, 3, 6],
    &[2, 4, 5],
    &[2, 5, 6],
    &[3, 5, 6],
];

fn makes(alloc: Global, kind: Kind, draws: u32, facets: &[&[u16]]) -> Result<bool, Fail>
    requires { draws ≤ 100000 }
{
    let made = make(alloc, kind, 2, draws, 0)?;
    Ok(made.facets() == complex(alloc, facets)?.facets())
}

#[test]
fn named_complexes_are_those_of_the_tables(rt: HostRuntime) -> Result<(), Fail> {
    let alloc = rt.alloc();
    assert!(rt; makes(alloc, Kind::Simplex, 0, &TETRAHEDRON)?);
    assert!(rt; makes(alloc, Kind::Cross, 0, &OCTAHEDRON)?);
    assert!(rt; makes(alloc, Kind::Torus, 0, &TORUS)?);
    assert!(rt; makes(alloc, Kind::Plane, 0, &PLANE)?);
    Ok(())
}

#[test]
fn draws_are_those_of_the_words(rt: HostRuntime) -> Result<(), Fail> {
    let alloc = rt.alloc();
    assert!(rt; makes(alloc, Kind::Simplex, 1, &TETRAHEDRON)?);
    assert!(rt; makes(alloc, Kind::Simplex, 2, &DRAWN_TWICE)?);
    assert!(rt; makes(alloc, Kind::Simplex, 6, &DRAWN_SIX_TIMES)?);
    Ok(())
}
