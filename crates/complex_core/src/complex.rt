// Pure simplicial complexes, as rising lists of facets.
ghost use Rattle.std.specs.Prelude.{◌≡◌, [], ◌∷◌, ◌+◌, take, vec_len, vec_capacity, ◌-◌, ◌≤◌, ◌<◌, ◌++◌, IfOk, OnOk, OnErr, IfErr, length};
ghost use Rattle.std.specs.List.{AllByRecursion, flat_map};
ghost use Rattle.std.specs.List.Sorted.{IsStrictlySortedBy};
ghost use Rattle.std.specs.Ordering.{nat_cmp};
ghost use Rattle.complex_core.specs.Labels.{face_cmp};
ghost use Rattle.complex_core.specs.Rising.{put, rising};
ghost use Rattle.complex_core.specs.Complexes.{IsComplex, IsFacet, over, staying, is_face, is_held, is_facet};
ghost use Rattle.complex_core.specs.ComplexFaults.{FacetsRefused, CanMake, first_size};
ghost use Rattle.complex_core.specs.declared.complex.ComplexFault.TheVariants.{Memory};

use crate::Face;
use std::alloc::{AllocError, Global};
use std::marker::Model;

/// A pure simplicial complex of dimension 0 to 6: distinct facets, each with one label more
/// than the dimension, in rising order. It has at least one facet.
#[derive(Drop)]
pub struct Complex {
    dim: u32,
    facets: Vec<Face>,
}

impl Model for Complex {
    ghost use Rattle.complex_core.specs.Complexes.{ComplexView, IsComplex};

    ghost Value = { ComplexView };

    ghost view = { λ k. record { dim = k.dim; facets = k.facets.items } };

    ghost invariant = { λ k. IsComplex (record { dim = k.dim; facets = k.facets.items }) };
}

/// Why sets of labels are not the facets of one complex.
#[derive(Clone, Copy, Debug, PartialEq, Eq)]
pub enum ComplexFault {
    /// There is none.
    Empty,
    /// The first has this many labels, which is 0 or 8.
    Limit(usize),
    /// The one at this position, from 0, is the first of another size than the first one's.
    Mixed(usize),
    /// There is no memory left.
    Memory,
}

impl From<AllocError> for ComplexFault {
    ghost from_gives = { λ _ e. e ≡ Memory };

    fn from(_: AllocError) -> Self {
        ComplexFault::Memory
    }
}

// The labels of all facets, one facet after another.
fn all_labels(alloc: Global, facets: &[Face]) -> Result<Vec<u16>, AllocError>
    ensures { IfOk result (λ v. v.items ≡ flat_map (λ f. f) facets.now) }
{
    let mut all = Vec::new(alloc);
    for facet in facets {
        all.extend_from_slice(&facet.labels())?;
    }
    Ok(all)
}

// Sorts labels, and keeps each once.
fn sort_labels(labels: &mut Vec<u16>)
    ensures { labels.new.items ≡ rising nat_cmp labels.old.items }
{
    labels.sort_unstable();
    labels.dedup();
}

// Sorts sets of labels, and keeps each once.
fn sort_sets(sets: &mut Vec<Face>)
    ensures { sets.new.items ≡ rising face_cmp sets.old.items }
{
    sets.sort_unstable();
    sets.dedup();
}

// Whether some facet contains the set.
fn any_holds(facets: &[Face], set: &Face) -> bool
    ensures { result ≡ is_held facets.now set.now }
{
    facets.iter().any(|facet| facet.holds(set))
}

// Takes a set out of a rising list, if it is there.
fn take_out(sets: &mut Vec<Face>, set: &Face)
    requires { IsStrictlySortedBy face_cmp sets.old.items }
    ensures items { sets.new.items ≡ staying sets.old.items (set.now ∷ []) }
    ensures len { vec_len sets.new ≤ vec_len sets.old }
    ensures capacity { vec_capacity sets.new ≡ vec_capacity sets.old }
{
    if let Ok(position) = sets.binary_search(set) {
        sets.remove(position);
    }
}

/// Takes each of some sets out of a rising list.
pub fn take_all_out(sets: &mut Vec<Face>, out: &[Face])
    requires { IsStrictlySortedBy face_cmp sets.old.items }
    ensures items { sets.new.items ≡ staying sets.old.items out.now }
    ensures rising { IsStrictlySortedBy face_cmp sets.new.items }
    ensures len { vec_len sets.new ≤ vec_len sets.old }
    ensures capacity { vec_capacity sets.new ≡ vec_capacity sets.old }
{
    for set in out {
        take_out(sets, set);
    }
}

// Puts a set into its place in a rising list, unless it is there.
fn put_in(sets: &mut Vec<Face>, set: &Face)
    requires rising { IsStrictlySortedBy face_cmp sets.old.items }
    requires room { length (put face_cmp set.now sets.old.items) ≤ vec_capacity sets.old }
    ensures items { sets.new.items ≡ put face_cmp set.now sets.old.items }
    ensures capacity { vec_capacity sets.new ≡ vec_capacity sets.old }
{
    if let Err(position) = sets.binary_search(set) {
        sets.insert(position, *set).unwrap();
    }
}

/// Puts each of some sets into its place in a rising list that has room for what it becomes.
pub fn put_all_in(sets: &mut Vec<Face>, more: &[Face])
    requires rising { IsStrictlySortedBy face_cmp sets.old.items }
    requires room { length (rising face_cmp (sets.old.items ++ more.now)) ≤ vec_capacity sets.old }
    ensures items { sets.new.items ≡ rising face_cmp (sets.old.items ++ more.now) }
    ensures capacity { vec_capacity sets.new ≡ vec_capacity sets.old }
{
    for set in more {
        put_in(sets, set);
    }
}

impl Complex {
    /// The complex of these facets, in whatever order; a facet that stands there twice counts
    /// once.
    ///
    /// `Empty`, `Limit` and `Mixed` are answered in this order, each exactly where it holds.
    pub fn from_facets(alloc: Global, facets: &[Face]) -> Result<Complex, ComplexFault>
        ensures facets { IfOk result (λ k. k.facets ≡ rising face_cmp facets.now) }
        ensures dim { IfOk result (λ k. k.dim ≡ first_size facets.now - 1) }
        ensures can { OnOk result (CanMake facets.now) }
        ensures own { IsStrictlySortedBy face_cmp facets.now → IfOk result (λ k. k.facets ≡ facets.now) }
        ensures err { IfErr result (FacetsRefused facets.now) }
    {
        let Some(first) = facets.first() else {
            return Err(ComplexFault::Empty);
        };
        let size = first.len();
        if size == 0 || size == 8 {
            return Err(ComplexFault::Limit(size));
        }
        for (position, facet) in facets.iter().enumerate() {
            if facet.len() != size {
                return Err(ComplexFault::Mixed(position));
            }
        }
        let mut all = Vec::from_slice(alloc, facets)?;
        sort_sets(&mut all);
        Ok(Complex {
            dim: size as u32 - 1,
            facets: all,
        })
    }

    // The complex of facets that all have one label more than the dimension.
    pub(crate) fn sorted(dim: u32, mut facets: Vec<Face>) -> Complex
        requires low { dim ≤ 6 }
        requires some { 0 < length facets.items }
        requires pure { AllByRecursion (IsFacet dim) facets.items }
        ensures { result ≡ record { dim = dim; facets = rising face_cmp facets.items } }
    {
        sort_sets(&mut facets);
        Complex { dim, facets }
    }

    // Where its memory comes from.
    pub(crate) fn allocator(&self) -> Global {
        *self.facets.allocator()
    }

    /// The dimension: one less than the number of labels of a facet.
    pub fn dim(&self) -> u32
        ensures dim { result ≡ self.now.dim }
        ensures complex { IsComplex self.now }
    {
        self.dim
    }

    /// The facets, rising.
    pub fn facets(&self) -> &[Face]
        ensures facets { result.now ≡ self.now.facets }
        ensures complex { IsComplex self.now }
    {
        &self.facets
    }

    /// Whether the set is a face: it isn't empty, and some facet contains it.
    pub fn is_face(&self, face: &Face) -> bool
        ensures { result ≡ is_face self.now.facets face.now }
    {
        !face.is_empty() && self.is_held(face)
    }

    /// Whether some facet contains the set, as every facet does the empty one.
    pub fn is_held(&self, face: &Face) -> bool
        ensures { result ≡ is_held self.now.facets face.now }
    {
        any_holds(self.around(face), face)
    }

    /// Whether the set is a facet.
    pub fn is_facet(&self, set: &Face) -> bool
        ensures { result ≡ is_facet self.now.facets set.now }
    {
        self.facets.binary_search(set).is_ok()
    }

    /// A run of the facets, from the first on, in which all those lie that contain the set.
    ///
    /// A facet that contains the set begins with a label up to the set's least one, so the run
    /// ends where facets begin with greater labels. It is found by a binary search.
    pub fn around(&self, set: &Face) -> &[Face]
        ensures over { over result.now set.now ≡ over self.now.facets set.now }
        ensures rising { IsStrictlySortedBy face_cmp result.now }
        ensures begins { result.now ≡ take (length result.now) self.now.facets }
    {
        if set.is_empty() {
            return &self.facets;
        }
        let first = set.first();
        let end = self.facets.partition_point(|facet| facet.first() <= first);
        &self.facets[..end]
    }

    /// The facets that contain the set, rising.
    pub fn over(&self, face: &Face) -> Result<Vec<Face>, AllocError>
        ensures { IfOk result (λ v. v.items ≡ over self.now.facets face.now) }
    {
        let alloc = *self.facets.allocator();
        self.around(face)
            .iter()
            .copied()
            .filter(|facet| facet.holds(face))
            .collect(alloc)
    }

    /// The labels that are used, rising.
    pub fn labels(&self) -> Result<Vec<u16>, AllocError>
        ensures { IfOk result (λ v. v.items ≡ rising nat_cmp (flat_map (λ f. f) self.now.facets)) }
    {
        let alloc = *self.facets.allocator();
        let mut all = all_labels(alloc, &self.facets)?;
        sort_labels(&mut all);
        Ok(all)
    }

    /// Takes some facets out, and puts others in, in place: the sets of `out` that are no facets
    /// and the sets of `more` that stay facets change nothing.
    ///
    /// At least one set is put in, so that some facet is left, and each has the complex's size.
    /// Without memory for `more` the complex stays as it is.
    pub fn exchange(&mut self, out: &[Face], more: &[Face]) -> Result<(), AllocError>
        requires some { 0 < length more.now }
        requires pure { AllByRecursion (IsFacet self.old.dim) more.now }
        ensures ok { OnOk result (self.new ≡ record self.old { facets = rising face_cmp (staying self.old.facets out.now ++ more.now) }) }
        ensures err { OnErr result (self.new ≡ self.old) }
    {
        // Room first, so that nothing is changed where there is none.
        self.facets.reserve(more.len())?;
        take_all_out(&mut self.facets, out);
        put_all_in(&mut self.facets, more);
        Ok(())
    }

    /// The same complex once more.
    pub fn copy(&self) -> Result<Complex, AllocError>
        ensures { IfOk result (λ k. k ≡ self.now) }
    {
        Ok(Complex {
            dim: self.dim,
            facets: Vec::from_slice(*self.facets.allocator(), &self.facets)?,
        })
    }
}
