//! The faces of a star that flips take out, gathered in one walk over the star. It takes memory.

ghost use Rattle.std.specs.Prelude.{◌≡◌, ◌+◌, ◌≤◌, ◌++◌, [], ◌∷◌, length, filter, IfOk, OnOk};
ghost use Rattle.std.specs.List.Sorted.{IsStrictlySortedBy};
ghost use Rattle.std.specs.Ordering.{nat_cmp};
ghost use Rattle.complex_core.specs.Complexes.{over};
ghost use Rattle.complex_core.specs.Labels.{has, face_cmp};
ghost use Rattle.complex_core.specs.Maps.{used};
ghost use Rattle.complex_core.specs.Rising.{rising};
ghost use Rattle.anneal_plan.specs.Faces.{AreRows, faces_out};
ghost use Rattle.anneal_plan.specs.Growth.{comes_next, grown};
ghost use Rattle.stars.specs.Candidates.{faces_at};

use crate::grow::Centre;
use complex_core::Face;
use stars::{Star, flip_at};
use std::alloc::{AllocError, Global};

// Adds the labels of a facet that may come next.
fn add_labels(all: &mut Vec<u16>, row: &Face, vertex: u16, last: u16) -> Result<(), AllocError>
    ensures { OnOk result (all.new.items ≡ all.old.items ++ filter (comes_next vertex last) row.now) }
{
    for label in row.labels().as_slice() {
        if last < *label && *label != vertex {
            all.push(*label)?;
        }
    }
    Ok(())
}

// Sorts labels, and keeps each once.
fn sort_labels(labels: &mut Vec<u16>)
    ensures { labels.new.items ≡ rising nat_cmp labels.old.items }
{
    labels.sort_unstable();
    labels.dedup();
}

// The labels of some facets that may come next, rising.
fn labels_next(alloc: Global, rows: &[Face], vertex: u16, last: u16) -> Result<Vec<u16>, AllocError>
    ensures { IfOk result (λ v. v.items ≡ filter (comes_next vertex last) (used rows.now)) }
{
    let mut all = Vec::new(alloc);
    for row in rows {
        add_labels(&mut all, row, vertex, last)?;
    }
    sort_labels(&mut all);
    Ok(all)
}

// The facets that have a label.
fn rows_with(alloc: Global, rows: &[Face], label: u16) -> Result<Vec<Face>, AllocError>
    ensures { IfOk result (λ v. v.items ≡ filter (λ r. has r label) rows.now) }
{
    let mut all = Vec::new(alloc);
    for row in rows {
        if row.contains(label) {
            all.push(*row)?;
        }
    }
    Ok(all)
}

// Adds a face over which these facets are all, if a flip takes it out. The flip takes out a facet for
// each label of its B, and nearly all faces have more.
fn add_face(
    centre: Centre,
    rows: &[Face],
    face: &Face,
    all: &mut Vec<Face>,
) -> Result<(), AllocError>
    requires dim { centre.dim ≤ 6 }
    requires rising { IsStrictlySortedBy face_cmp rows.now }
    requires over { over rows.now face.now ≡ rows.now }
    ensures { OnOk result (all.new.items ≡ all.old.items ++ faces_out centre.dim rows.now (face.now ∷ [])) }
{
    if rows.len() + face.len() > centre.dim as usize + 2 {
        return Ok(());
    }
    if flip_at(centre.dim, rows, face).is_some() {
        all.push(*face)?;
    }
    Ok(())
}

// Adds the faces that flips take out with so many labels more, which are above the last one. Each label
// more leaves those facets that have it.
fn gather(
    alloc: Global,
    centre: Centre,
    rows: &[Face],
    face: &Face,
    last: u16,
    others: usize,
    all: &mut Vec<Face>,
) -> Result<(), AllocError>
    requires dim { centre.dim ≤ 6 }
    requires rising { IsStrictlySortedBy face_cmp rows.now }
    requires rows { AreRows centre.vertex rows.now }
    requires over { over rows.now face.now ≡ rows.now }
    requires small { length face.now + others ≤ 8 }
    ensures { OnOk result (all.new.items ≡ all.old.items ++ faces_out centre.dim rows.now (grown rows.now centre.vertex others last face.now)) }
{
    if others == 0 {
        return add_face(centre, rows, face, all);
    }
    let labels = labels_next(alloc, rows, centre.vertex, last)?;
    for label in labels.as_slice() {
        let near = rows_with(alloc, rows, *label)?;
        let more = face.with(*label).unwrap();
        gather(alloc, centre, &near, &more, *label, others - 1, all)?;
    }
    Ok(())
}

/// The faces of a star with its vertex and so many other labels that flips take out, rising.
pub(crate) fn faces_out(alloc: Global, star: &Star, others: usize) -> Result<Vec<Face>, AllocError>
    requires { others ≤ 6 }
    ensures { IfOk result (λ v. v.items ≡ faces_out star.now.star.dim star.now.star.rows (faces_at star.now.star.rows star.now.star.vertex (others + 1))) }
{
    let centre = Centre {
        vertex: star.vertex(),
        dim: star.dim(),
    };
    let face = Face::new().with(centre.vertex).unwrap();
    let mut all = Vec::new(alloc);
    gather(alloc, centre, star.rows(), &face, 0, others, &mut all)?;
    Ok(all)
}
