// A flip on the stars of its own labels, made and taken back.
ghost use Rattle.std.specs.Prelude.{IfOk};
ghost use Rattle.complex_core.specs.Complexes.{ComplexView};
ghost use Rattle.stars.specs.StarViews.{AreStarsOf, EachAtMost, HasLabels, counts, rooms, shown};

use crate::samples::{OCTAHEDRON, complex, flip};
use complex_core::Face;
use flip_rules::Flip;
use stars::{Star, StarMap, flip_here, has_labels, undo_here};
use std::alloc::Global;
use std::test::Fail;

// The rows of the stars of 1 to 4, before the flip and after it.
const BEFORE: [&[&[u16]]; 4] = [
    &[&[1, 2, 3], &[1, 2, 4], &[1, 3, 5], &[1, 4, 5]],
    &[&[1, 2, 3], &[1, 2, 4], &[2, 3, 6], &[2, 4, 6]],
    &[&[1, 2, 3], &[1, 3, 5], &[2, 3, 6], &[3, 5, 6]],
    &[&[1, 2, 4], &[1, 4, 5], &[2, 4, 6], &[4, 5, 6]],
];

const AFTER: [&[&[u16]]; 4] = [
    &[&[1, 3, 4], &[1, 3, 5], &[1, 4, 5]],
    &[&[2, 3, 4], &[2, 3, 6], &[2, 4, 6]],
    &[&[1, 3, 4], &[1, 3, 5], &[2, 3, 4], &[2, 3, 6], &[3, 5, 6]],
    &[&[1, 3, 4], &[1, 4, 5], &[2, 3, 4], &[2, 4, 6], &[4, 5, 6]],
];

fn octahedron_stars(alloc: Global) -> Result<Vec<Star>, Fail>
    ensures { IfOk result (λ stars. (k : ComplexView) × AreStarsOf k (shown stars.items)) }
{
    let octahedron = complex(alloc, &OCTAHEDRON)?;
    if !StarMap::can_hold(&octahedron, 6) {
        return Err(Fail::new("the octahedron has other labels"));
    }
    Ok(StarMap::of(alloc, &octahedron, 6)?.into_stars())
}

// Whether the first stars have these rows.
fn are_rows(stars: &[Star], rows: &[&[&[u16]]]) -> bool {
    stars.len() >= rows.len()
        && stars
            .iter()
            .zip(rows)
            .all(|(star, rows)| has_rows(star, rows))
}

fn has_rows(star: &Star, rows: &[&[u16]]) -> bool {
    star.count() == rows.len()
        && star
            .rows()
            .iter()
            .zip(rows)
            .all(|(row, labels)| is_row(row, labels))
}

fn is_row(row: &Face, labels: &[u16]) -> bool {
    row.labels().as_slice() == labels
}

// All stars have room for their facets.
fn know_rooms(near: &[Star])
    ensures { EachAtMost (counts (shown near.now)) (rooms near.now) }
{
    for star in near {
        let _room = star.room();
    }
}

// Makes a flip and takes it back. Whether the first stars have these rows in between.
fn make_and_undo(near: &mut [Star], flip: &Flip, rows: &[&[&[u16]]]) -> bool
    requires stars { (k : ComplexView) × AreStarsOf k (shown near.old) }
    requires held { HasLabels (shown near.old) flip.now }
{
    know_rooms(near);
    if let Err(_) = flip_here(near, flip) {
        return false;
    }
    let made = are_rows(near, rows);
    undo_here(near, flip);
    made
}

#[test]
fn a_flip_is_made_on_stars_and_taken_back(rt: HostRuntime) -> Result<(), Fail> {
    let flip = flip(&[1, 2], &[3, 4])?;
    let mut stars = octahedron_stars(rt.alloc())?;
    assert!(rt; has_labels(&stars, &flip) && are_rows(&stars, &BEFORE));
    assert!(rt; make_and_undo(&mut stars, &flip, &AFTER));
    assert!(rt; are_rows(&stars, &BEFORE));
    Ok(())
}

#[test]
fn a_star_lends_its_rows_over_a_face(rt: HostRuntime) -> Result<(), Fail> {
    let stars = octahedron_stars(rt.alloc())?;
    assert!(rt; !stars.is_empty());
    let copy = stars[0].copy(rt.alloc())?;
    assert!(rt; has_rows(&copy, BEFORE[0]) && copy.room() >= 4);
    let mut rows = copy.over(&Face::from_slice(&[1, 2])?);
    assert!(rt; rows.next() == Some(&Face::from_slice(&[1, 2, 3])?));
    assert!(rt; rows.next() == Some(&Face::from_slice(&[1, 2, 4])?));
    assert!(rt; rows.next().is_none());
    Ok(())
}
