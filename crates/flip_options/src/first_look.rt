// Looks for the first time at the faces of a complex, each once.
ghost use Rattle.std.specs.Prelude.{◌≡◌, ◌+◌, ◌<◌, ◌≤◌, ◌++◌, length, filter, nat_lt, IfOk, OnOk};
ghost use Rattle.std.specs.List.{AllByRecursion, flat_map};
ghost use Rattle.std.specs.Ordering.{nat_cmp};
ghost use Rattle.complex_core.specs.Labels.{has};
ghost use Rattle.complex_core.specs.Rising.{rising};
ghost use Rattle.complex_core.specs.Complexes.{ComplexView, over};
ghost use Rattle.stars.specs.StarViews.{IsStarListOf, places_in};
ghost use Rattle.flip_options.specs.Candidates.{FirstLook, IsGrown, IsPartAt};

use crate::candidates::{Candidates, refresh};
use crate::refresh::most_labels;
use complex_core::Face;
use stars::StarMap;
use std::alloc::{AllocError, Global};

// Adds the labels of a facet that are above another one.
fn add_labels(all: &mut Vec<u16>, row: &Face, last: u16) -> Result<(), AllocError>
    ensures { OnOk result (all.new.items ≡ all.old.items ++ filter (nat_lt last) row.now) }
{
    for label in row.labels().as_slice() {
        if last < *label {
            all.push(*label)?;
        }
    }
    Ok(())
}

// Sorts labels, and keeps each once.
fn sort_labels(labels: &mut Vec<u16>)
    ensures { labels.new.items ≡ rising nat_cmp labels.old.items }
{
    labels.sort_unstable();
    labels.dedup();
}

// The labels of some facets that are above another one, rising.
fn labels_above(alloc: Global, rows: &[Face], last: u16) -> Result<Vec<u16>, AllocError>
    ensures { IfOk result (λ v. v.items ≡ rising nat_cmp (flat_map (filter (nat_lt last)) rows.now)) }
{
    let mut all = Vec::new(alloc);
    for row in rows {
        add_labels(&mut all, row, last)?;
    }
    sort_labels(&mut all);
    Ok(all)
}

// The facets that have a label.
fn rows_with(alloc: Global, rows: &[Face], label: u16) -> Result<Vec<Face>, AllocError>
    ensures { IfOk result (λ v. v.items ≡ filter (λ r. has r label) rows.now) }
{
    let mut all = Vec::new(alloc);
    for row in rows {
        if row.contains(label) {
            all.push(*row)?;
        }
    }
    Ok(all)
}

// Looks at a face over which these facets are all. A flip takes out a facet for each label of B, and
// nearly all faces have more.
fn look(
    candidates: &mut Candidates,
    stars: &StarMap,
    rows: &[Face],
    face: &Face,
) -> Result<(), AllocError>
    requires stars { (k : ComplexView) × IsStarListOf k stars.now }
    requires rows { (k : ComplexView) → IsStarListOf k stars.now → rows.now ≡ over k.facets face.now }
    ensures { OnOk result (FirstLook stars.now candidates.old candidates.new (λ k a. a ≡ face.now)) }
{
    if rows.len() + face.len() != stars.dim() as usize + 2 {
        return Ok(());
    }
    refresh(candidates, stars, face)
}

// Looks at a face over which these facets are all, and at those that it becomes with some of so many
// labels more, which are above its last one.
fn look_from(
    alloc: Global,
    candidates: &mut Candidates,
    stars: &StarMap,
    rows: &[Face],
    face: &Face,
    last: u16,
    others: usize,
) -> Result<(), AllocError>
    requires stars { (k : ComplexView) × IsStarListOf k stars.now }
    requires rows { (k : ComplexView) → IsStarListOf k stars.now → rows.now ≡ over k.facets face.now }
    requires last { AllByRecursion (λ x. x ≤ last) face.now }
    requires small { length face.now + others ≤ 8 }
    ensures { OnOk result (FirstLook stars.now candidates.old candidates.new (λ k a. IsGrown k face.now last others a)) }
{
    look(candidates, stars, rows, face)?;
    if others == 0 {
        return Ok(());
    }
    let labels = labels_above(alloc, rows, last)?;
    for label in labels.as_slice() {
        let near = rows_with(alloc, rows, *label)?;
        let more = face.with(*label).unwrap();
        look_from(alloc, candidates, stars, &near, &more, *label, others - 1)?;
    }
    Ok(())
}

/// Looks at the faces whose least label is this place and that may be the A of a candidate.
pub(crate) fn look_at_place(
    alloc: Global,
    candidates: &mut Candidates,
    stars: &StarMap,
    place: u16,
) -> Result<(), AllocError>
    requires stars { (k : ComplexView) × IsStarListOf k stars.now }
    requires low { 0 < place }
    requires high { place ≤ places_in stars.now }
    ensures { OnOk result (FirstLook stars.now candidates.old candidates.new (λ k a. IsPartAt k place a)) }
{
    let most = most_labels(stars);
    if most == 0 {
        return Ok(());
    }
    let face = Face::new().with(place).unwrap();
    look_from(
        alloc,
        candidates,
        stars,
        stars.star(place).rows(),
        &face,
        place,
        most - 1,
    )
}
