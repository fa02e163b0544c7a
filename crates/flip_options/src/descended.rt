// A complex with its descent, on places with names.
ghost use Rattle.std.specs.Prelude.{◌≡◌, ◌+◌, ◌≤◌, IfOk};
ghost use Rattle.complex_core.specs.Maps.{greatest, used};
ghost use Rattle.flip_options.specs.DescentViews.{IsDescentOf};

use crate::descent::descend;
use complex_core::{Complex, VertexMap};
use flip_rules::Flip;
use std::alloc::{AllocError, Global};
use std::marker::Model;

/// A complex with its descent. The descent runs on the places from 1, which stand for the labels.
///
/// Contracts see the complex, the map of names, the flips on the places, and the complex after them.
#[derive(Drop)]
pub struct Descended {
    input: Complex,
    names: VertexMap,
    flips: Vec<Flip>,
    end: Complex,
}

impl Model for Descended {
    ghost use Rattle.flip_options.specs.DescentViews.{DescentView};

    ghost Value = { DescentView };

    ghost view = { λ d. record { input = d.input; names = d.names; flips = d.flips.items; end = d.end } };
}

impl Descended {
    /// The descent of a complex. Its k-th used label, rising, becomes place k, and there is room for so
    /// many places more, which stand for the labels after the greatest one.
    pub fn of(alloc: Global, input: Complex, room: u16) -> Result<Descended, AllocError>
        requires { greatest (used input.facets) + room ≤ 65535 }
        ensures { IfOk result (IsDescentOf input room) }
    {
        let (dense, names) = input.dense(room)?;
        let (flips, end) = descend(alloc, &dense)?;
        Ok(Descended {
            input,
            names,
            flips,
            end,
        })
    }

    /// The complex as it was given.
    pub fn input(&self) -> &Complex
        ensures { result.now ≡ self.now.input }
    {
        &self.input
    }

    /// The labels that the places stand for.
    pub fn names(&self) -> &VertexMap
        ensures { result.now ≡ self.now.names }
    {
        &self.names
    }

    /// The flips on the places, in the order in which they are made.
    pub fn flips(&self) -> &[Flip]
        ensures { result.now ≡ self.now.flips }
    {
        &self.flips
    }

    /// The complex on the places after the flips.
    pub fn end(&self) -> &Complex
        ensures { result.now ≡ self.now.end }
    {
        &self.end
    }
}
