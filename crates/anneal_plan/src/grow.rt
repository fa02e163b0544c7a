//! The flips that take out the faces of a star which have its vertex, in rising order of the faces.

ghost use Rattle.std.specs.Prelude.{◌≡◌, ◌+◌, ◌≤◌, ◌<◌, ◌^◌, length, fold};
ghost use Rattle.std.specs.List.Sorted.{IsStrictlySortedBy};
ghost use Rattle.complex_core.specs.Labels.{face_cmp};
ghost use Rattle.anneal_plan.specs.Faces.{AreRows, flips_at};
ghost use Rattle.anneal_plan.specs.Growth.{grown};
ghost use Rattle.anneal_plan.specs.Paging.{added, page_of};
ghost use Rattle.stars.specs.Candidates.{faces_at};

use crate::nearest::Nearest;
use crate::page::Page;
use complex_core::Face;
use stars::{Star, flip_at};

// The vertex of a star, and the dimension.
#[derive(Clone, Copy)]
pub(crate) struct Centre {
    pub(crate) vertex: u16,
    pub(crate) dim: u32,
}

// Adds the flips that take out a face with so many labels more, which are above the last one. Each
// step passes over the facets once, and keeps those with one label more for the steps behind it.
fn grow(centre: Centre, rows: &[Face], face: &Face, last: u16, others: usize, page: &mut Page)
    requires dim { centre.dim ≤ 6 }
    requires rising { IsStrictlySortedBy face_cmp rows.now }
    requires rows { AreRows centre.vertex rows.now }
    requires small { length face.now + others ≤ 8 }
    requires few { page.old.count + length (flips_at centre.dim rows.now (grown rows.now centre.vertex others last face.now)) < 2 ^ 64 }
    ensures { page.new ≡ fold added page.old (flips_at centre.dim rows.now (grown rows.now centre.vertex others last face.now)) }
{
    if others == 0 {
        if let Some(flip) = flip_at(centre.dim, rows, face) {
            page.add(flip);
        }
        return;
    }
    let mut near = Nearest::new();
    let mut before = last;
    while let Some(label) = near.next(rows, face, centre.vertex, before) {
        let more = face.with(label).unwrap();
        grow(centre, near.rows(rows), &more, label, others - 1, page);
        before = label;
    }
}

// A page of the flips that take out a face with the vertex and so many other labels.
fn flips_in(centre: Centre, rows: &[Face], others: usize, from: usize) -> Page
    requires dim { centre.dim ≤ 6 }
    requires rising { IsStrictlySortedBy face_cmp rows.now }
    requires rows { AreRows centre.vertex rows.now }
    requires small { others ≤ 6 }
    ensures { result ≡ page_of (flips_at centre.dim rows.now (faces_at rows.now centre.vertex (others + 1))) from }
{
    let mut page = Page::new(from);
    let face = Face::new().with(centre.vertex).unwrap();
    grow(centre, rows, &face, 0, others, &mut page);
    page
}

/// A page of the flips that take out a face of a star with its vertex and so many other labels. It
/// takes no memory.
pub(crate) fn flips_of(star: &Star, others: usize, from: usize) -> Page
    requires { others ≤ 6 }
    ensures { result ≡ page_of (flips_at star.now.star.dim star.now.star.rows (faces_at star.now.star.rows star.now.star.vertex (others + 1))) from }
{
    let centre = Centre {
        vertex: star.vertex(),
        dim: star.dim(),
    };
    flips_in(centre, star.rows(), others, from)
}
