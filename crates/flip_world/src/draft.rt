// The pending flips of a worker.
ghost use Rattle.std.specs.Prelude.{◌≡◌, ◌+◌, ◌≤◌, ◌<◌, [], ◌∷◌, ◌++◌, length, filter, IfOk, OnOk, OnErr, IsSome};
ghost use Rattle.std.specs.List.Sorted.{IsStrictlySortedBy};
ghost use Rattle.complex_core.specs.Labels.{face_cmp};
ghost use Rattle.complex_core.specs.Rising.{rising};
ghost use Rattle.complex_core.specs.Complexes.{IsComplex, over, staying, is_facet};
ghost use Rattle.flip_rules.specs.Flips.{replay};
ghost use Rattle.core_laws.specs.Cores.{after};
ghost use Rattle.flip_world.specs.Drafts.{SeenOver};

use complex_core::{Complex, Face, put_all_in, take_all_out};
use flip_rules::{FewFaces, Flip};
use std::alloc::{AllocError, Global};
use std::marker::Model;

/// Flips that a worker has made and not committed. Contracts see their list.
///
/// Beside them it keeps the facets that they take out and those that they put in, so that what they make of a
/// complex is seen without making it.
#[derive(Drop)]
pub(crate) struct Draft {
    flips: Vec<Flip>,
    out: Vec<Face>,
    more: Vec<Face>,
}

impl Model for Draft {
    ghost use Rattle.std.specs.Prelude.{List};
    ghost use Rattle.flip_rules.specs.declared.flip.Flip.{Flip};
    ghost use Rattle.flip_world.specs.Drafts.{IsDraft};

    ghost Value = { List Flip };

    ghost view = { λ d. d.flips.items };

    ghost invariant = { λ d. IsDraft d.flips.items d.out.items d.more.items };
}

// The sets of both lists, rising, each once.
fn joined(alloc: Global, first: &[Face], second: &[Face]) -> Result<Vec<Face>, AllocError>
    ensures { IfOk result (λ v. v.items ≡ rising face_cmp (first.now ++ second.now)) }
{
    let mut all = Vec::from_slice(alloc, first)?;
    all.extend_from_slice(second)?;
    all.sort_unstable();
    all.dedup();
    Ok(all)
}

// Whether a set is one of these.
fn is_among(sets: &[Face], set: &Face) -> bool
    requires { IsStrictlySortedBy face_cmp sets.now }
    ensures { result ≡ is_facet sets.now set.now }
{
    sets.binary_search(set).is_ok()
}

// The sets that aren't among others, which rise.
fn keep_apart(alloc: Global, sets: &[Face], out: &[Face]) -> Result<Vec<Face>, AllocError>
    requires { IsStrictlySortedBy face_cmp out.now }
    ensures { IfOk result (λ v. v.items ≡ staying sets.now out.now) }
{
    sets.iter()
        .copied()
        .filter(|set| !is_among(out, set))
        .collect(alloc)
}

// The sets that contain one.
fn keep_over(alloc: Global, sets: &[Face], set: &Face) -> Result<Vec<Face>, AllocError>
    ensures { IfOk result (λ v. v.items ≡ over sets.now set.now) }
{
    sets.iter()
        .copied()
        .filter(|facet| facet.holds(set))
        .collect(alloc)
}

impl Draft {
    /// A draft without flips.
    pub(crate) fn new(alloc: Global) -> Draft
        ensures { result ≡ [] }
    {
        Draft {
            flips: Vec::new(alloc),
            out: Vec::new(alloc),
            more: Vec::new(alloc),
        }
    }

    /// The flips, in the order in which they were made.
    pub(crate) fn flips(&self) -> &[Flip]
        ensures { result.now ≡ self.now }
    {
        &self.flips
    }

    /// The facets over a set after the flips, from a run that has all those before them.
    pub(crate) fn near(&self, run: &[Face], set: &Face) -> Result<Vec<Face>, AllocError>
        ensures over { IfOk result (λ v. SeenOver self.now run.now set.now v.items) }
        ensures rising { IfOk result (λ v. IsStrictlySortedBy face_cmp v.items) }
    {
        let alloc = *self.flips.allocator();
        let held = keep_over(alloc, run, set)?;
        let left = keep_apart(alloc, &held, &self.out)?;
        let added = keep_over(alloc, &self.more, set)?;
        let near = joined(alloc, &left, &added)?;
        Ok(near)
    }

    /// Adds a flip behind the others, or leaves them as they are.
    pub(crate) fn push(&mut self, flip: &Flip) -> Result<(), AllocError>
        requires { length flip.now.a + length flip.now.b ≤ 8 }
        ensures ok { OnOk result (self.new ≡ self.old ++ flip.now ∷ []) }
        ensures err { OnErr result (self.new ≡ self.old) }
    {
        // The sides are a flip's where its labels are in order: `labels` says so.
        let _first = flip.a.labels();
        let _second = flip.b.labels();
        let old_sides = FewFaces::join_boundary(&flip.a, &flip.b);
        let new_sides = FewFaces::join_boundary(&flip.b, &flip.a);
        let out = old_sides.as_slice();
        let more = new_sides.as_slice();
        // Room first, so that nothing is changed where there is none.
        self.out.reserve(out.len())?;
        self.more.reserve(more.len())?;
        self.flips.push(*flip)?;
        put_all_in(&mut self.out, out);
        take_all_out(&mut self.more, out);
        put_all_in(&mut self.more, more);
        Ok(())
    }

    /// Makes the flips on a complex on which they replay, or leaves it as it is.
    pub(crate) fn make(&self, complex: &mut Complex) -> Result<(), AllocError>
        requires replays { IsSome (replay complex.old self.now) }
        requires some { 0 < length self.now }
        ensures ok { OnOk result (complex.new ≡ after complex.old self.now) }
        ensures err { OnErr result (complex.new ≡ complex.old) }
    {
        let _facets = complex.facets();
        match complex.exchange(&self.out, &self.more) {
            Ok(()) => Ok(()),
            Err(fault) => Err(fault),
        }
    }

    /// Drops the flips.
    pub(crate) fn clear(&mut self)
        ensures { self.new ≡ [] }
    {
        self.flips.clear();
        self.out.clear();
        self.more.clear();
    }
}
