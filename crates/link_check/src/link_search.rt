// The steps of searches of the links of all vertices.
ghost use Rattle.std.specs.Prelude.{◌≡◌, IfOk, OnOk};
ghost use Rattle.complex_core.specs.Complexes.{ComplexView};
ghost use Rattle.link_check.specs.Vertices.{vertex_link};
ghost use Rattle.link_check.specs.LinkSearches.{HasFlags, Files, Ends};

use crate::bad::link_at;
use crate::flags::{Flag, flags_at};
use complex_core::{Complex, Face};
use flip_rules::Flip;
use sphere_search::Searched;
use std::alloc::{AllocError, Global};

/// What searches of the links of all vertices come to.
#[derive(Drop)]
pub enum Links<T> {
    /// For each vertex, rising, flips that lead its link to the boundary of a simplex.
    Manifold(Vec<(u16, Vec<Flip>)>),
    /// For some vertices, rising, the record of a search that found no flips. The links of all others
    /// have flips.
    Open(Vec<(u16, T)>),
}

/// The link of a vertex, by the flags of all vertices.
pub fn link_of(alloc: Global, flags: &[Flag], vertex: u16) -> Result<Complex, AllocError>
    requires { (k : ComplexView) × HasFlags k vertex flags.now }
    ensures { IfOk result (λ l. (k : ComplexView) → HasFlags k vertex flags.now → l ≡ vertex_link k vertex) }
{
    // A label is at least 1.
    let Some(face) = Face::new().with(vertex) else {
        unreachable!();
    };
    link_at(alloc, flags_at(flags, &face), &face)
}

/// Puts what came of a vertex behind the lists or behind the records.
pub fn file<T: Drop>(
    vertex: u16,
    searched: Searched<T>,
    lists: &mut Vec<(u16, Vec<Flip>)>,
    left: &mut Vec<(u16, T)>,
) -> Result<(), AllocError>
    ensures { OnOk result (Files vertex searched lists.old.items lists.new.items left.old.items left.new.items) }
{
    match searched {
        Searched::Found(flips) => lists.push((vertex, flips))?,
        Searched::Gave(record) => left.push((vertex, record))?,
    }
    Ok(())
}

/// The lists, where no record is left, and else the records.
pub fn links_of<T: Drop>(lists: Vec<(u16, Vec<Flip>)>, left: Vec<(u16, T)>) -> Links<T>
    ensures { Ends lists.items left.items result }
{
    if left.is_empty() {
        Links::Manifold(lists)
    } else {
        Links::Open(left)
    }
}
