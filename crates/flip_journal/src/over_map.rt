// Flips carried over a map.
ghost use Rattle.std.specs.Prelude.{◌≡◌, IfOk};
ghost use Rattle.complex_core.specs.Maps.{renamed};
ghost use Rattle.flip_journal.specs.Carried.{NamesLabels, IsLegalList, LeadsTo, carried_over, map_at_end};

use crate::names::Names;
use complex_core::{Complex, VertexMap};
use flip_rules::Flip;
use std::alloc::{AllocError, Global};

/// Tells flips on the image of a complex in the labels of the complex itself, and answers them with
/// the map that takes their end to the end of the given flips.
///
/// The map's first numbers are exactly the labels of the complex, and the flips are legal in order on
/// its image. A label that a flip brings gets the least number from 1 that is then no first number
/// of the map, and a label that a flip takes out leaves the map.
pub fn carry(
    alloc: Global,
    from: &Complex,
    map: &VertexMap,
    flips: &[Flip],
) -> Result<(Vec<Flip>, VertexMap), AllocError>
    requires labels { NamesLabels map.now from.now }
    requires legal { IsLegalList (renamed from.now map.now) flips.now }
    ensures flips { IfOk result (λ r. r.0.items ≡ carried_over map.now flips.now) }
    ensures map { IfOk result (λ r. r.1 ≡ map_at_end map.now flips.now) }

    // The flips lead from the complex to one that the map takes to the end of the given flips.
    ensures leads { IfOk result (λ r. LeadsTo from.now map.now flips.now r.0.items r.1) }
{
    // What the laws of carrying ask of the complex and of the map: `facets` and `pairs` say so.
    let _ = from.facets();
    let _ = map.pairs();
    let mut names = Names::of_image(alloc, from, map)?;
    let mut carried = Vec::new(alloc);
    for flip in flips {
        names = names.with_labels(&flip.b)?;
        match names.flip(flip) {
            Some(named) => carried.push(named)?,
            None => unreachable!(),
        }
        names = names.without_vanished(&flip.a);
    }
    let map = names.map_back(alloc)?;
    Ok((carried, map))
}
