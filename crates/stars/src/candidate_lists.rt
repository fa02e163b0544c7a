// Lists of candidates, which a star keeps.
ghost use Rattle.std.specs.Prelude.{◌≡◌, ◌+◌, ◌-◌, ◌≤◌, ◌++◌, length, map, filter, IfOk, IfSome, OnOk};
ghost use Rattle.std.specs.List.Sorted.{IsStrictlySortedBy};
ghost use Rattle.std.specs.Ordering.{nat_cmp};
ghost use Rattle.complex_core.specs.Labels.{IsRising, face_cmp};
ghost use Rattle.complex_core.specs.Subsets.{subsets_of};
ghost use Rattle.stars.specs.StarViews.{VertexStar, IsStar};
ghost use Rattle.stars.specs.Candidates.{IsListOf, is_candidate};
ghost use Rattle.stars.specs.CandidateLists.{AreLists, ChangedWithin, belongs, candidates_within, list_after, not_within};

use crate::linked::flip_at;
use crate::star::Star;
use complex_core::{Face, put_all_in};
use std::alloc::{AllocError, Global};
use std::marker::Model;

// The faces that are candidates of an index.
#[derive(Drop)]
pub(crate) struct Candidates {
    pub(crate) index: u32,
    pub(crate) faces: Vec<Face>,
}

impl Model for Candidates {
    ghost use Rattle.stars.specs.CandidateLists.{CandidateList};

    ghost Value = { CandidateList };

    ghost view = { λ l. record { index = l.index; faces = l.faces.items } };
}

impl Candidates {
    // The same list once more.
    fn copy(&self, alloc: Global) -> Result<Candidates, AllocError>
        ensures { IfOk result (λ l. l ≡ self.now) }
    {
        Ok(Candidates {
            index: self.index,
            faces: Vec::from_slice(alloc, &self.faces)?,
        })
    }

    // Exchanges the faces within some labels for those that are candidates of a star now.
    fn decide(&mut self, star: &Star, labels: &Face) -> Result<(), AllocError>
        requires low { 1 ≤ self.old.index }
        requires high { self.old.index ≤ star.now.star.dim }
        requires rising { IsStrictlySortedBy face_cmp self.old.faces }
        ensures star { IsStar star.now.star }
        ensures index { self.new.index ≡ self.old.index }
        ensures faces { OnOk result (self.new.faces ≡ list_after self.old.faces star.now.star self.old.index labels.now) }
    {
        let more = candidates_within(*self.faces.allocator(), star, self.index, labels)?;
        leave_out(&mut self.faces, labels);
        self.faces.reserve(more.len())?;
        put_all_in(&mut self.faces, &more);
        Ok(())
    }
}

// Whether a face of the size of an index is a candidate of it.
fn is_candidate(star: &Star, face: &Face) -> bool
    requires some { 1 ≤ length face.now }
    requires small { length face.now ≤ star.now.star.dim }
    ensures { result ≡ is_candidate star.now.star.rows (star.now.star.dim + 2 - length face.now) face.now }
{
    flip_at(star.dim(), star.rows(), face).is_some()
}

// Whether a set is a candidate of an index.
fn belongs(star: &Star, index: u32, face: &Face) -> bool
    requires low { 1 ≤ index }
    requires high { index ≤ star.now.star.dim }
    ensures { result ≡ belongs star.now.star index face.now }
{
    let size = (star.dim() + 1 - index) as usize;
    if face.len() != size {
        return false;
    }
    if !face.contains(star.vertex()) {
        return false;
    }
    is_candidate(star, face)
}

// Adds the candidates of an index among the sets of a face and so many of some labels, which are above
// those of the face.
fn add_candidates(
    star: &Star,
    index: u32,
    face: &Face,
    labels: &[u16],
    others: usize,
    all: &mut Vec<Face>,
) -> Result<(), AllocError>
    requires low { 1 ≤ index }
    requires high { index ≤ star.now.star.dim }
    requires face { IsRising (face.now ++ labels.now) }
    requires few { length face.now + others ≤ 8 }
    ensures { OnOk result (all.new.items ≡ all.old.items ++ filter (belongs star.now.star index) (map (λ s. face.now ++ s) (subsets_of others labels.now))) }
{
    if others == 0 {
        if belongs(star, index, face) {
            all.push(*face)?;
        }
        return Ok(());
    }
    let Some((label, rest)) = labels.split_first() else {
        return Ok(());
    };
    let more = face.with(*label).unwrap();
    add_candidates(star, index, &more, rest, others - 1, all)?;
    add_candidates(star, index, face, rest, others, all)
}

// The subsets of some labels that are candidates of an index.
fn candidates_within(
    alloc: Global,
    star: &Star,
    index: u32,
    labels: &Face,
) -> Result<Vec<Face>, AllocError>
    requires low { 1 ≤ index }
    requires high { index ≤ star.now.star.dim }
    ensures star { IsStar star.now.star }
    ensures all { IfOk result (λ v. v.items ≡ candidates_within star.now.star index labels.now) }
{
    let size = (star.dim() + 1 - index) as usize;
    let mut all = Vec::new(alloc);
    add_candidates(star, index, &Face::new(), &labels.labels(), size, &mut all)?;
    Ok(all)
}

// Leaves out the sets that have no label beside some labels.
fn leave_out(sets: &mut Vec<Face>, labels: &Face)
    requires { IsStrictlySortedBy face_cmp sets.old.items }
    ensures items { sets.new.items ≡ not_within labels.now sets.old.items }
    ensures rising { IsStrictlySortedBy face_cmp sets.new.items }
{
    sets.retain(|face| !labels.holds(face));
}

// The lists of a star that changed within some labels, from those before. There are none where memory
// is short.
pub(crate) fn decided_again(
    mut lists: Vec<Candidates>,
    star: &Star,
    labels: &Face,
) -> Vec<Candidates>
    requires labels { IsStrictlySortedBy nat_cmp labels.now }
    requires lists { (old : VertexStar) × IsStar old × AreLists old lists.items × ChangedWithin labels.now old star.now.star }
    ensures { AreLists star.now.star result.items }
{
    for place in 0..lists.len() {
        if lists[place].decide(star, labels).is_err() {
            lists.clear();
            return lists;
        }
    }
    lists
}

// The list of an index, if it is there.
pub(crate) fn find_list(lists: &[Candidates], index: u32) -> Option<&[Face]>
    ensures { (s : VertexStar) → AreLists s lists.now → IfSome result (λ faces. IsListOf s index faces.now) }
{
    for list in lists {
        if list.index == index {
            return Some(&list.faces);
        }
    }
    None
}

// The same lists once more.
fn copy_all(alloc: Global, lists: &[Candidates]) -> Result<Vec<Candidates>, AllocError>
    ensures { IfOk result (λ v. v.items ≡ lists.now) }
{
    let mut all = Vec::new(alloc);
    for list in lists {
        all.push(list.copy(alloc)?)?;
    }
    Ok(all)
}

// The same lists once more, or none where memory is short.
pub(crate) fn copies_of(alloc: Global, lists: &[Candidates]) -> Vec<Candidates>
    ensures { (s : VertexStar) → AreLists s lists.now → AreLists s result.items }
{
    match copy_all(alloc, lists) {
        Ok(all) => all,
        Err(AllocError) => Vec::new(alloc),
    }
}
