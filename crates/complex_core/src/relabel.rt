// Complexes under other labels, and on dense ones.
ghost use Rattle.std.specs.Prelude.{◌≡◌, ◌≤◌, ◌+◌, ◌++◌, ℕ, IfOk, OnOk, MatchOption, true, false};
ghost use Rattle.std.specs.List.{list_all};
ghost use Rattle.std.specs.Option.{SomeIff};
ghost use Rattle.complex_core.specs.Labels.{IsFace};
ghost use Rattle.complex_core.specs.Maps.{takes, takes_all, face_image, face_images, renamed, names_of, used, greatest, next_after, turned};

use crate::{Complex, Face, VertexMap};
use std::alloc::{AllocError, Global};

impl Complex {
    /// The complex with each label replaced by the one that it becomes. `None` exactly where a
    /// used label has no pair.
    pub fn relabel(&self, map: &VertexMap) -> Result<Option<Complex>, AllocError>
        ensures { IfOk result (λ k. SomeIff k (takes_all map.now self.now.facets ≡ true) (renamed self.now map.now)) }
    {
        // A map takes no two labels to the same one: `pairs` says so.
        let _ = map.pairs();
        match images(self.allocator(), map, self.facets())? {
            Some(facets) => Ok(Some(Complex::sorted(self.dim(), facets))),
            None => Ok(None),
        }
    }

    /// The complex on the labels from 1 on, and the map that names its places by the labels
    /// here: the k-th used label, rising, becomes k, and the places after these name the labels
    /// above the greatest one, as many as there is room for.
    pub fn dense(&self, room: u16) -> Result<(Complex, VertexMap), AllocError>
        requires { greatest (used self.now.facets) + room ≤ 65535 }
        ensures names { IfOk result (λ r. r.1 ≡ names_of self.now.facets room) }
        ensures dense { IfOk result (λ r. r.0 ≡ renamed self.now (turned r.1)) }

        // Under the map the dense complex is this one again.
        ensures taken { IfOk result (λ r. takes_all r.1 r.0.facets ≡ true) }
        ensures back { IfOk result (λ r. renamed r.0 r.1 ≡ self.now) }
    {
        // Labels are from 1: `facets` says so.
        let _ = self.facets();
        let mut labels = self.labels()?;
        let greatest = greatest_of(&labels);
        add_spare(&mut labels, greatest, room)?;
        let names = VertexMap::numbering(self.allocator(), &labels)?;
        let places = names.inverse()?;
        match self.relabel(&places)? {
            Some(dense) => Ok((dense, names)),
            None => unreachable!(),
        }
    }
}

/// What a face becomes under a map, rising. `None` exactly where a label has no pair. It takes no memory.
pub fn image_of(map: &VertexMap, face: &Face) -> Option<Face>
    ensures image { SomeIff result (list_all (takes map.now) face.now ≡ true) (face_image map.now face.now) }
    ensures face { IsFace face.now }
{
    let mut image = Face::new();
    for label in face.labels().as_slice() {
        image = image.with(map.get(*label)?)?;
    }
    Some(image)
}

// What facets become, in their order, where each label has a pair.
fn images(alloc: Global, map: &VertexMap, facets: &[Face]) -> Result<Option<Vec<Face>>, AllocError>
    ensures { IfOk result (λ r. MatchOption r (takes_all map.now facets.now ≡ false)
        (λ v. (takes_all map.now facets.now ≡ true) × (v.items ≡ face_images map.now facets.now))) }
{
    let mut all = Vec::new(alloc);
    for facet in facets {
        let Some(image) = image_of(map, facet) else {
            return Ok(None);
        };
        all.push(image)?;
    }
    Ok(Some(all))
}

// The last of rising labels, or 0.
fn greatest_of(labels: &[u16]) -> u16
    ensures { result ≡ greatest labels.now }
{
    labels.last().copied().unwrap_or(0)
}

// Adds the next labels after the greatest one.
fn add_spare(labels: &mut Vec<u16>, greatest: u16, room: u16) -> Result<(), AllocError>
    requires { greatest + room ≤ 65535 }
    ensures { OnOk result (labels.new.items ≡ labels.old.items ++ next_after greatest room) }
{
    for more in 0..room {
        labels.push(greatest + more + 1)?;
    }
    Ok(())
}
