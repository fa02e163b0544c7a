// What is to be made.
ghost use Rattle.std.specs.Prelude.{◌≡◌, ◌≤◌, true, IfOk};
ghost use Rattle.make_complex.specs.Kinds.{is_surface};
ghost use Rattle.facet_text.specs.Writing.{KeepsLimits};
ghost use Rattle.job_make.specs.Recipes.{LooksNamed, made, recipe};

use complex_core::Complex;
use make_complex::{Kind, make};
use std::alloc::{AllocError, Global};
use std::marker::Model;

/// A kind, a dimension, a number of draws and a seed, from which the generator makes a complex. The
/// dimension is from 1 to 6, and that of a surface is 2; there are at most 100,000 draws. Contracts see
/// the record of the four.
#[derive(Clone, Copy, Debug, PartialEq, Eq)]
pub struct Recipe {
    kind: Kind,
    dim: u32,
    draws: u32,
    seed: u32,
}

impl Model for Recipe {
    ghost use Rattle.job_make.specs.Recipes.{CanMake, Recipe as View, recipe};

    ghost Value = { View };

    ghost view = { λ r. recipe r.kind r.dim r.draws r.seed };

    ghost invariant = { λ r. CanMake (recipe r.kind r.dim r.draws r.seed) };

    ghost inverse = { λ v. record { kind = v.kind; dim = v.dim; draws = v.draws; seed = v.seed } };
}

impl Recipe {
    /// These four.
    pub fn new(kind: Kind, dim: u32, draws: u32, seed: u32) -> Recipe
        requires low { 1 ≤ dim }
        requires high { dim ≤ 6 }
        requires surface { is_surface kind ≡ true → dim ≡ 2 }
        requires draws { draws ≤ 100000 }
        ensures { result ≡ recipe kind dim draws seed }
    {
        Recipe {
            kind,
            dim,
            draws,
            seed,
        }
    }

    /// The complex that the generator makes, which keeps the limits of an input and has the facts of its
    /// kind.
    ///
    /// # Errors
    ///
    /// `AllocError` for want of memory.
    pub fn make(&self, alloc: Global) -> Result<Complex, AllocError>
        ensures made { IfOk result (λ k. k ≡ made self.now) }
        ensures limits { IfOk result (λ k. KeepsLimits k) }
        ensures looks { IfOk result (λ _. LooksNamed self.now) }
    {
        let complex = make(alloc, self.kind, self.dim, self.draws, self.seed)?;
        // It is a complex: `dim` says so.
        let _dim = complex.dim();
        Ok(complex)
    }
}
