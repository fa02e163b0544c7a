// A star for each place.
ghost use Rattle.std.specs.Prelude.{◌≡◌, ◌<◌, ◌≤◌, ◌-◌, ◌++◌, ◌∷◌, [], ◌^◌, Ok, Err, length, map, IfOk, OnOk, OnErr, IfErr, IsTrue, ◌↔◌};
ghost use Rattle.std.specs.List.{AllByRecursion, flat_map};
ghost use Rattle.complex_core.specs.Complexes.{ComplexView, IsComplex};
ghost use Rattle.flip_rules.specs.Flips.{broken_rule, flipped, FlipRefused, OfFaces};
ghost use Rattle.flip_rules.specs.declared.flip.Illegal.{Illegal};
ghost use Rattle.stars.specs.StarViews.{StarList, IsStar, shown, places_in, star_at, all_stars, AreNumbered, UsesUpTo, IsStarListOf, OnPlaces};

use crate::build::{add_facet, add_first_rows, are_up_to, complex_of, empty_stars, is_up_to};
use crate::local::{flip_here, local_check};
use crate::star::Star;
use complex_core::Complex;
use flip_rules::{Flip, FlipFault, Illegal};
use std::alloc::{AllocError, Global};
use std::marker::Model;

/// A star for each place from 1 on. Contracts see the dimension and the list of the stars' facets.
#[derive(Drop)]
pub struct StarMap {
    dim: u32,
    stars: Vec<Star>,
}

impl Model for StarMap {
    ghost use Rattle.std.specs.Prelude.{map, length, ◌<◌, ◌^◌};
    ghost use Rattle.stars.specs.StarViews.{StarList, AreNumbered, shown};

    ghost Value = { StarList };

    ghost view = { λ m. record { dim = m.dim; stars = map (λ s. s.rows) (shown m.stars.items) } };

    ghost invariant = { λ m. (length m.stars.items < 2 ^ 16) × AreNumbered m.dim (shown m.stars.items) };
}

impl StarMap {
    /// Whether the labels of a complex are all among the places from 1 to `places`.
    pub fn can_hold(complex: &Complex, places: u16) -> bool
        ensures { IsTrue result ↔ UsesUpTo complex.now places }
    {
        are_up_to(complex.facets(), places)
    }

    /// The stars of a complex at the places from 1 to `places`, in one pass over its facets.
    pub fn of(alloc: Global, complex: &Complex, places: u16) -> Result<StarMap, AllocError>
        requires { UsesUpTo complex.now places }
        ensures stars { IfOk result (IsStarListOf complex.now) }
        ensures places { IfOk result (λ m. places_in m ≡ places) }
    {
        let dim = complex.dim();
        let mut stars = empty_stars(alloc, dim, places)?;
        for facet in complex.facets() {
            add_facet(&mut stars, facet)?;
        }
        Ok(StarMap { dim, stars })
    }

    /// The map of these stars, which are those of the places from 1 on, in this dimension.
    pub fn from_stars(dim: u32, stars: Vec<Star>) -> StarMap
        requires few { length stars.items < 2 ^ 16 }
        requires numbered { AreNumbered dim (shown stars.items) }
        ensures dim { result.dim ≡ dim }
        ensures stars { all_stars result ≡ shown stars.items }
    {
        StarMap { dim, stars }
    }

    /// The stars, in the order of their places.
    pub fn into_stars(self) -> Vec<Star>
        ensures { shown result.items ≡ all_stars self }
    {
        self.stars
    }

    /// The stars, in the order of their places.
    pub fn stars(&self) -> &[Star]
        ensures { shown result.now ≡ all_stars self.now }
    {
        &self.stars
    }

    /// How many places there are.
    pub fn places(&self) -> u16
        ensures { result ≡ places_in self.now }
    {
        self.stars.len() as u16
    }

    /// The dimension of the complex.
    pub fn dim(&self) -> u32
        ensures { result ≡ self.now.dim }
    {
        self.dim
    }

    /// The star of a place.
    pub fn star(&self, place: u16) -> &Star
        requires low { 0 < place }
        requires high { place ≤ places_in self.now }
        ensures { result.now.star ≡ record { vertex = place; dim = self.now.dim; rows = star_at self.now place } }
    {
        &self.stars[place as usize - 1]
    }

    /// Whether the labels of a flip are all places.
    pub fn has_labels(&self, flip: &Flip) -> bool
        ensures { IsTrue result ↔ OnPlaces self.now flip.now }
    {
        let places = self.places();
        is_up_to(&flip.a, places) && is_up_to(&flip.b, places)
    }

    /// The complex whose stars these are.
    pub fn complex(&self, alloc: Global) -> Result<Complex, AllocError>
        requires { (k : ComplexView) × IsStarListOf k self.now }
        ensures { IfOk result (λ c. (k : ComplexView) → IsStarListOf k self.now → c ≡ k) }
    {
        let mut facets = Vec::new(alloc);
        for star in &self.stars {
            add_first_rows(&mut facets, star)?;
        }
        complex_of(alloc, &facets)
    }

    /// Tells the first rule that a flip breaks on the complex whose stars these are. It takes no
    /// memory, and looks at two stars.
    pub fn check(&self, flip: &Flip) -> Result<(), Illegal>
        requires stars { (k : ComplexView) × IsStarListOf k self.now }
        requires places { OnPlaces self.now flip.now }
        ensures broken_rule { (k : ComplexView) → IsStarListOf k self.now → result ≡ broken_rule k flip.now.a flip.now.b }
        ensures faces { OfFaces flip.now }
    {
        // They are labels of faces, and so from 1.
        let _first = flip.a.len();
        let _second = flip.b.len();
        local_check(&self.stars, flip)
    }

    /// Makes a flip on the complex whose stars these are, or leaves the map as it is: exactly where the
    /// flip breaks a rule, or for want of memory. It costs the stars of the flip's labels.
    pub fn flip(&mut self, flip: &Flip) -> Result<(), FlipFault>
        requires stars { (k : ComplexView) × IsStarListOf k self.old }
        requires places { OnPlaces self.old flip.now }
        ensures legal { (k : ComplexView) → IsStarListOf k self.old → OnOk result (broken_rule k flip.now.a flip.now.b ≡ Ok tt) }
        ensures stars { (k : ComplexView) → IsStarListOf k self.old →
            OnOk result (IsStarListOf (flipped k flip.now.a flip.now.b) self.new) }
        ensures places { places_in self.new ≡ places_in self.old }
        ensures err { OnErr result (self.new ≡ self.old) }
        ensures broken_rule { (k : ComplexView) → IsStarListOf k self.old →
            IfErr result (FlipRefused (broken_rule k flip.now.a flip.now.b)) }

        // A flip that breaks a rule is always told which, also where memory is short.
        ensures told { (k : ComplexView) (e : Illegal) → IsStarListOf k self.old →
            broken_rule k flip.now.a flip.now.b ≡ Err e → result ≡ Err (FlipFault.Illegal e) }

        ensures faces { OfFaces flip.now }
    {
        // They are labels of faces, and so from 1.
        let _first = flip.a.len();
        let _second = flip.b.len();
        flip_here(&mut self.stars, flip)
    }
}
