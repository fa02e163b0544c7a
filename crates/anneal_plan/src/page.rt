//! A page of flips that come one after another.

ghost use Rattle.std.specs.Prelude.{◌≡◌, ◌+◌, ◌-◌, ◌<◌, ◌≤◌, ◌^◌, ◌++◌, map, slice_get, OnOk};
ghost use Rattle.anneal_plan.specs.Paging.{no_flips, added};

use arrayvec::ArrayVec;
use complex_core::Face;
use flip_rules::Flip;
use std::alloc::AllocError;
use std::marker::Model;

/// Counts flips as they come, and keeps up to 64 of them from a place on. It takes no memory.
#[derive(Drop)]
pub(crate) struct Page {
    from: usize,
    count: usize,
    kept: ArrayVec<Flip, 64>,
}

impl Model for Page {
    ghost use Rattle.anneal_plan.specs.Paging.{Flips};

    ghost Value = { Flips };

    ghost view = { λ p. record { from = p.from; count = p.count; kept = p.kept.items } };
}

impl Page {
    /// Before the first flip; the page begins at a place, from 0.
    pub(crate) fn new(from: usize) -> Page
        ensures { result ≡ no_flips from }
    {
        Page {
            from,
            count: 0,
            kept: ArrayVec::new(),
        }
    }

    /// One more flip comes.
    pub(crate) fn add(&mut self, flip: Flip)
        requires { self.old.count + 1 < 2 ^ 64 }
        ensures { self.new ≡ added self.old flip }
    {
        if self.from <= self.count && self.kept.len() < 64 {
            self.kept.push(flip);
        }
        self.count += 1;
    }

    /// How many flips have come.
    pub(crate) fn count(&self) -> usize
        ensures { result ≡ self.now.count }
    {
        self.count
    }

    /// The flip at a place, from 0 at the begin of the page, if it was kept.
    pub(crate) fn get(&self, place: usize) -> Option<Flip>
        ensures { result ≡ slice_get self.now.kept place }
    {
        self.kept.get(place).copied()
    }
}
