// The star of a vertex.
ghost use Rattle.std.specs.Prelude.{◌≡◌, ◌+◌, ◌<◌, ◌≤◌, ◌==◌, [], length, IfOk, IfSome, OnOk};
ghost use Rattle.std.specs.List.{AllByRecursion};
ghost use Rattle.complex_core.specs.Complexes.{over, IsFacet};
ghost use Rattle.stars.specs.StarViews.{VertexStar, KeptStar, IsStar};
ghost use Rattle.stars.specs.Changes.{star_changed, IsWithin};
ghost use Rattle.stars.specs.Building.{with_row};
ghost use Rattle.stars.specs.Candidates.{IsListOf};
ghost use Rattle.stars.specs.CandidateLists.{AreLists};

use crate::candidate_lists::{Candidates, copies_of, decided_again, find_list};
use crate::over::Over;
use complex_core::{Face, put_all_in, take_all_out};
use flip_rules::FewFaces;
use std::alloc::{AllocError, Global};
use std::marker::Model;

/// The star of a vertex: the facets that contain it, in rising order. It may be empty.
///
/// Contracts see the vertex, which is at least 1, the dimension, which is at most 6, the facets, and for
/// how many facets there is room: at least for those that it has.
#[derive(Drop)]
pub struct Star {
    vertex: u16,
    dim: u32,
    rows: Vec<Face>,
    // The candidates of those indices for which they were found and kept.
    lists: Vec<Candidates>,
}

impl Model for Star {
    ghost use Rattle.std.specs.Prelude.{vec_capacity};
    ghost use Rattle.stars.specs.StarViews.{KeptStar, IsStar};
    ghost use Rattle.stars.specs.CandidateLists.{AreLists};

    ghost Value = { KeptStar };

    ghost view = { λ s. record { star = record { vertex = s.vertex; dim = s.dim; rows = s.rows.items }; room = vec_capacity s.rows } };

    ghost invariant = { λ s. IsStar (record { vertex = s.vertex; dim = s.dim; rows = s.rows.items }) × AreLists (record { vertex = s.vertex; dim = s.dim; rows = s.rows.items }) s.lists.items };
}

impl Star {
    /// The star of a vertex that no facet contains. It takes no memory.
    pub fn empty(alloc: Global, vertex: u16, dim: u32) -> Star
        requires vertex { 0 < vertex }
        requires low { dim ≤ 6 }
        ensures { result.star ≡ record { vertex = vertex; dim = dim; rows = [] } }
    {
        Star {
            vertex,
            dim,
            rows: Vec::new(alloc),
            lists: Vec::new(alloc),
        }
    }

    /// The vertex, from 1.
    pub fn vertex(&self) -> u16
        ensures vertex { result ≡ self.now.star.vertex }
        ensures star { IsStar self.now.star }
    {
        self.vertex
    }

    /// The dimension of the complex: one less than the number of labels of a facet.
    pub fn dim(&self) -> u32
        ensures dim { result ≡ self.now.star.dim }
        ensures star { IsStar self.now.star }
    {
        self.dim
    }

    /// Whether no facet contains the vertex.
    pub fn is_empty(&self) -> bool
        ensures { result ≡ (length self.now.star.rows == 0) }
    {
        self.rows.is_empty()
    }

    /// How many facets contain the vertex.
    pub fn count(&self) -> usize
        ensures { result ≡ length self.now.star.rows }
    {
        self.rows.len()
    }

    /// How many facets the star can have without more memory: at least those that it has.
    pub fn room(&self) -> usize
        ensures room { result ≡ self.now.room }
        ensures enough { length self.now.star.rows ≤ self.now.room }
    {
        self.rows.capacity()
    }

    /// The facets that contain the vertex, rising.
    pub fn rows(&self) -> &[Face]
        ensures rows { result.now ≡ self.now.star.rows }
        ensures star { IsStar self.now.star }
    {
        &self.rows
    }

    /// Lends the facets of the star that contain a face, in order. It takes no memory.
    pub fn over(&self, face: &Face) -> Over<'_>
        ensures { result ≡ over self.now.star.rows face.now }
    {
        Over::new(&self.rows, face)
    }

    /// The faces that are candidates of an index, rising, where the star knows them.
    pub fn candidates(&self, index: u32) -> Option<&[Face]>
        ensures { IfSome result (λ faces. IsListOf self.now.star index faces.now) }
    {
        find_list(&self.lists, index)
    }

    /// Keeps the faces that are candidates of an index, unless memory is short.
    pub fn keep_candidates(&mut self, index: u32, faces: Vec<Face>)
        requires { IsListOf self.old.star index faces.items }
        ensures { self.new ≡ self.old }
    {
        let _unless_memory_is_short = self.lists.push(Candidates { index, faces });
    }

    /// The same star once more.
    pub fn copy(&self, alloc: Global) -> Result<Star, AllocError>
        ensures { IfOk result (λ s. s.star ≡ self.now.star) }
    {
        Ok(Star {
            vertex: self.vertex,
            dim: self.dim,
            rows: Vec::from_slice(alloc, &self.rows)?,
            lists: copies_of(alloc, &self.lists),
        })
    }

    // Puts a facet behind the others.
    pub(crate) fn push(&mut self, facet: &Face) -> Result<(), AllocError>
        requires { IsStar (with_row facet.now self.old.star) }
        ensures { OnOk result (self.new.star ≡ with_row facet.now self.old.star) }
    {
        self.rows.push(*facet)?;
        self.lists.clear();
        Ok(())
    }

    // Makes room for so many more facets.
    pub(crate) fn reserve(&mut self, more: usize) -> Result<(), AllocError>
        ensures star { self.new.star ≡ self.old.star }
        ensures room { self.old.room ≤ self.new.room }
        ensures enough { OnOk result (length self.old.star.rows + more ≤ self.new.room) }
    {
        self.rows.reserve(more)
    }

    // Takes some of its facets out, and puts others in, for which there is room. In the lists of
    // candidates the sets within the labels `joined` of the change are decided again.
    pub(crate) fn change(&mut self, joined: &Face, out: &[Face], more: &[Face])
        requires few { length more.now ≤ 8 }
        requires pure { AllByRecursion (IsFacet self.old.star.dim) more.now }
        requires within { IsWithin joined.now out.now more.now }
        requires room { length (star_changed out.now more.now self.old.star).rows ≤ self.old.room }
        ensures { self.new ≡ record { star = star_changed out.now more.now self.old.star; room = self.old.room } }
    {
        let alloc = *self.rows.allocator();
        let lists = std::mem::replace(&mut self.lists, Vec::new(alloc));
        let more_here = FewFaces::holding(more, self.vertex);
        take_all_out(&mut self.rows, out);
        put_all_in(&mut self.rows, more_here.as_slice());
        self.lists = decided_again(lists, self, joined);
    }
}
