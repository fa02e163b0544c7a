// The candidates for a descent, kept up to date after each flip.
ghost use Rattle.std.specs.Prelude.{◌≡◌, ◌∷◌, None, IsSome, IfSome, IfOk, OnOk, OnErr, MatchOption, slice_get};
ghost use Rattle.complex_core.specs.Complexes.{ComplexView};
ghost use Rattle.flip_rules.specs.Flips.{flipped};
ghost use Rattle.stars.specs.StarViews.{IsStarListOf};
ghost use Rattle.descent_laws.specs.Descents.{IsMinimal, IsBest};
ghost use Rattle.flip_options.specs.OptionViews.{AreOptions, IsStep};

use crate::candidates::{Candidates, first_flip};
use crate::first_look::look_at_place;
use crate::refresh::{refresh_parts, refresh_side};
use flip_rules::Flip;
use stars::StarMap;
use std::alloc::{AllocError, Global};
use std::collections::BTreeMap;
use std::marker::Model;

/// The candidates for a descent of a complex: all legal flips of an index above d/2.
///
/// Contracts see their list, best first, or nothing once they are given up for want of memory.
#[derive(Drop)]
pub struct Options {
    alloc: Global,
    candidates: Option<Candidates>,
}

impl Model for Options {
    ghost use Rattle.std.specs.Prelude.{◌≡◌, true, List, Option};
    ghost use Rattle.flip_rules.specs.declared.flip.Flip.{Flip};
    ghost use Rattle.flip_options.specs.OptionViews.{found_flips, has_sizes};

    ghost Value = { Option (List Flip) };

    ghost view = { λ o. found_flips o.candidates };

    ghost invariant = { λ o. has_sizes o.candidates ≡ true };
}

impl Options {
    /// The options of the complex whose stars these are. Each face is looked at once.
    pub fn of(alloc: Global, stars: &StarMap) -> Result<Options, AllocError>
        requires { (k : ComplexView) × IsStarListOf k stars.now }
        ensures { (k : ComplexView) → IsStarListOf k stars.now → IfOk result (AreOptions k) }
    {
        let mut candidates = BTreeMap::new(alloc);
        for place in 0..stars.places() {
            look_at_place(alloc, &mut candidates, stars, place + 1)?;
        }
        let _ordered = candidates.len();
        Ok(Options {
            alloc,
            candidates: Some(candidates),
        })
    }

    /// The options after a legal flip: those that [`Options::of`] gives of the stars after it.
    ///
    /// Only the parts of the flip's labels are looked at, and what is linked with one of its sides: no
    /// other flip comes or goes. That costs the stars of these labels, and not the size of the complex.
    /// Without memory the options are given up.
    pub fn after(&mut self, stars: &StarMap, flip: &Flip) -> Result<(), AllocError>
        requires { (k : ComplexView) × IsStep k self.old stars.now flip.now }
        ensures ok { (k : ComplexView) → IsStep k self.old stars.now flip.now →
            OnOk result (AreOptions (flipped k flip.now.a flip.now.b) self.new) }
        ensures err { OnErr result (self.new ≡ None) }
    {
        let alloc = self.alloc;
        let Some(mut candidates) = self.candidates.take() else {
            unreachable!()
        };
        let Some(all) = flip.a.union(&flip.b) else {
            unreachable!()
        };
        refresh_parts(alloc, &mut candidates, stars, &all)?;
        refresh_side(&mut candidates, stars, &flip.a)?;
        refresh_side(&mut candidates, stars, &flip.b)?;
        let _ordered = candidates.len();
        self.candidates = Some(candidates);
        Ok(())
    }

    /// The best option: the flip with the greatest index, and among these the one with the least A.
    /// `None` exactly where there is none. It takes no memory.
    pub fn best(&self) -> Option<Flip>
        requires { IsSome self.now }
        ensures first { IfSome self.now (λ flips. result ≡ slice_get flips 0) }
        ensures best { (k : ComplexView) → AreOptions k self.now → MatchOption result (IsMinimal k) (IsBest k) }
    {
        let Some(candidates) = &self.candidates else {
            unreachable!()
        };
        first_flip(candidates)
    }
}
