//! The candidates that a star keeps as a list: found once, and told from it again.

ghost use Rattle.std.specs.Prelude.{◌≡◌, ◌<◌, ◌≤◌, ℕ, length, slice_get, true, IfOk};
ghost use Rattle.complex_core.specs.Complexes.{over};
ghost use Rattle.stars.specs.StarViews.{IsStar};
ghost use Rattle.stars.specs.Candidates.{IsListOf, candidate_faces, flip_of, opposite};
ghost use Rattle.anneal_plan.specs.Listed.{IsListed, TellsTwo};
ghost use Rattle.anneal_plan.specs.Proposals.{chosen, inner};

use crate::gather::faces_out;
use complex_core::Face;
use flip_rules::Flip;
use stars::Star;
use std::alloc::{AllocError, Global};

// The labels of the first two facets over a face.
fn two_over(rows: &[Face], face: &Face) -> Option<Face>
    ensures { TellsTwo (over rows.now face.now) result }
{
    let mut first: Option<Face> = None;
    for row in rows {
        if row.holds(face) {
            match first {
                None => first = Some(*row),
                Some(one) => return one.union(row),
            }
        }
    }
    None
}

// The flip that takes out a candidate, which the first two facets over it tell.
fn flip_out(star: &Star, face: &Face) -> Flip
    requires { IsStar star.now.star → IsListed star.now.star face.now }
    ensures { result ≡ flip_of face.now (opposite star.now.star.rows face.now) }
{
    let Some(labels) = two_over(star.rows(), face) else {
        unreachable!()
    };
    Flip {
        a: *face,
        b: labels.less(face),
    }
}

// The face at a place.
fn face_at(faces: &[Face], place: usize) -> Option<Face>
    ensures { result ≡ slice_get faces.now place }
{
    faces.get(place).copied()
}

// The flip at a place of the list of an index.
fn flip_at_place(star: &Star, faces: &[Face], place: usize) -> Option<Flip>
    requires { (index : ℕ) × IsListOf star.now.star index faces.now }
    ensures { (index : ℕ) → IsListOf star.now.star index faces.now → result ≡ slice_get (inner star.now.star index) place }
{
    let face = face_at(faces, place)?;
    Some(flip_out(star, &face))
}

/// The candidate that a word chooses from the list of an index. It takes no memory.
pub(crate) fn listed_flip(star: &Star, faces: &[Face], word: u32) -> Option<Flip>
    requires { (index : ℕ) × IsListOf star.now.star index faces.now }
    ensures { (index : ℕ) → IsListOf star.now.star index faces.now → result ≡ chosen (inner star.now.star index) word }
{
    let count = faces.len();
    if count == 0 {
        return None;
    }
    flip_at_place(star, faces, word as usize % count)
}

// The candidates of an index.
fn faces_of(alloc: Global, star: &Star, index: u32) -> Result<Vec<Face>, AllocError>
    requires low { 1 ≤ index }
    requires high { index ≤ star.now.star.dim }
    ensures { IfOk result (λ v. v.items ≡ candidate_faces star.now.star index) }
{
    let others = (star.dim() - index) as usize;
    faces_out(alloc, star, others)
}

/// Lets a star keep the candidates of an index, unless memory is short.
pub(crate) fn find_list(alloc: Global, star: &mut Star, index: u32)
    requires { index ≤ star.old.star.dim }
    ensures { star.new ≡ star.old }
{
    if index == 0 || star.candidates(index).is_some() {
        return;
    }
    if let Ok(faces) = faces_of(alloc, star, index) {
        star.keep_candidates(index, faces);
    }
}

/// Whether a star knows a candidate of an index.
pub(crate) fn knows_one(star: &Star, index: u32) -> bool
    ensures { result ≡ true → 0 < length (candidate_faces star.now.star index) }
{
    match star.candidates(index) {
        Some(faces) => !faces.is_empty(),
        None => false,
    }
}
