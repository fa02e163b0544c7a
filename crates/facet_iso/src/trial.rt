// What the ordered image of the least facet makes of a map.
ghost use Rattle.std.specs.Prelude.{◌≡◌, ◌<◌, ℕ, Bool, true, false, List, [], ◌+◌, ◌↔◌, IsTrue, is_some, IfNone, IfOk, IfSome, OnOk, length, map, MatchOption, Some, None};
ghost use Rattle.std.specs.BTreeMap.{get};
ghost use Rattle.std.specs.Ordering.{nat_cmp};
ghost use Rattle.std.specs.List.{AllByRecursion};
ghost use Rattle.std.specs.List.Sorted.{IsStrictlySortedBy};
ghost use Rattle.complex_core.specs.Rising.{rising};
ghost use Rattle.complex_core.specs.Labels.{has};
ghost use Rattle.complex_core.specs.Complexes.{ComplexView, is_facet};
ghost use Rattle.complex_core.specs.Maps.{renamed, takes_all};
ghost use Rattle.pseudo_test.specs.Incidences.{incidence_cmp, run_of};
ghost use Rattle.facet_iso.specs.Trials.{Agrees, AreImages, ArePositive, image_in, IsAcross, IsGiven, IsOrdered, IsSpread, IsNext, NoneOrdered};
ghost use Rattle.facet_iso.specs.Searches.{alike, IsSearch, IsSound};

use crate::search::Search;
use crate::walk::Step;
use complex_core::{Complex, Face, MapFault, VertexMap};
use pseudo_test::over;
use std::alloc::{AllocError, Global};
use std::collections::BTreeMap;

/// The map that takes the first complex to the second and the labels of its least facet to these,
/// which are those of a facet in some order.
pub(crate) fn map_of(
    alloc: Global,
    first: &Complex,
    second: &Complex,
    search: &Search,
    facet: &Face,
    order: &[u16],
) -> Result<Option<VertexMap>, AllocError>
    requires search { IsSearch first.now second.now search.now }
    requires facet { is_facet second.now.facets facet.now ≡ true }
    requires order { rising nat_cmp order.now ≡ facet.now }
    requires long { length search.now.least ≡ length order.now }
    ensures { IfOk result (λ r. MatchOption r (NoneOrdered first.now second.now order.now) (IsOrdered first.now second.now order.now)) }
{
    let Some(images) = spread(alloc, search, facet, order)? else {
        return Ok(None);
    };
    let pairs = pairs_of(alloc, &first.labels()?, &images)?;
    match VertexMap::from_pairs(alloc, &pairs) {
        Ok(map) => if_takes(first, second, map),
        Err(MapFault::Twice(_)) => Ok(None),
        Err(MapFault::Memory) => Err(AllocError),
    }
}

// The map, if it takes the first complex to the second.
fn if_takes(
    first: &Complex,
    second: &Complex,
    map: VertexMap,
) -> Result<Option<VertexMap>, AllocError>
    ensures none { IfOk result (λ r. IfNone r (takes_all map first.now.facets ≡ true → renamed first.now map ≡ second.now → ⊥)) }
    ensures some { IfOk result (λ r. IfSome r (λ m. (m ≡ map) × (takes_all map first.now.facets ≡ true) × (renamed first.now map ≡ second.now))) }
{
    let Some(image) = first.relabel(&map)? else {
        return Ok(None);
    };
    if !same(&image, second) {
        return Ok(None);
    }
    Ok(Some(map))
}

// Whether two complexes are one.
fn same(first: &Complex, second: &Complex) -> bool
    ensures { IsTrue result ↔ (first.now ≡ second.now) }
{
    first.dim() == second.dim() && first.facets() == second.facets()
}

// Each label with its image.
fn pairs_of(
    alloc: Global,
    labels: &[u16],
    images: &BTreeMap<u16, u16>,
) -> Result<Vec<(u16, u16)>, AllocError>
    requires { AllByRecursion (λ x. is_some (get nat_cmp images.now x) ≡ true) labels.now }
    ensures { IfOk result (λ v. v.items ≡ map (λ x. (x, image_in (get nat_cmp images.now) x)) labels.now) }
{
    let mut pairs = Vec::new(alloc);
    for label in labels {
        let Some(image) = images.get(label) else {
            unreachable!();
        };
        pairs.push((*label, *image))?;
    }
    Ok(pairs)
}

// The images of all labels, by the steps of the walk. `None` where one can't be made.
fn spread(
    alloc: Global,
    search: &Search,
    facet: &Face,
    order: &[u16],
) -> Result<Option<BTreeMap<u16, u16>>, AllocError>
    requires sound { IsSound search.now }
    requires long { length search.now.least ≡ length order.now }
    ensures { IfOk result (λ r. (k l : ComplexView) → IsSearch k l search.now → is_facet l.facets facet.now ≡ true → rising nat_cmp order.now ≡ facet.now → MatchOption r (NoneOrdered k l order.now) (λ t. AreImages k l order.now (get nat_cmp t))) }
{
    let mut images = begin(alloc, &search.least, order)?;
    let mut faces = Vec::new(alloc);
    faces.push(*facet)?;
    for step in &search.steps {
        if !take_step(search, step, &mut images, &mut faces)? {
            return Ok(None);
        }
    }
    Ok(Some(images))
}

// The labels of the least facet with their images.
fn begin(alloc: Global, least: &Face, order: &[u16]) -> Result<BTreeMap<u16, u16>, AllocError>
    requires { length least.now ≡ length order.now }
    ensures order { IfOk result (λ t. map (image_in (get nat_cmp t)) least.now ≡ order.now) }
    ensures known { IfOk result (λ t. (x : ℕ) → is_some (get nat_cmp t x) ≡ has least.now x) }
{
    let mut images = BTreeMap::new(alloc);
    for (position, label) in least.labels().as_slice().iter().enumerate() {
        images.insert(*label, order[position])?;
    }
    Ok(images)
}

// The image of the next facet, over the image of the ridge. Whether it can be made.
fn take_step(
    search: &Search,
    step: &Step,
    images: &mut BTreeMap<u16, u16>,
    faces: &mut Vec<Face>,
) -> Result<bool, AllocError>
    requires sound { IsSound search.now }
    requires from { step.now.from < length faces.old.items }
    ensures long { IfOk result (λ made. made ≡ true → length faces.new.items ≡ length faces.old.items + 1) }
    ensures made { IfOk result (λ made. made ≡ true → (k l : ComplexView) (order : List ℕ) (reached : List (List ℕ)) → IsSearch k l search.now → IsNext k reached faces.old.items step.now → IsSpread k l order reached (length faces.old.items) (get nat_cmp images.old) faces.old.items → IsSpread k l order reached (length faces.new.items) (get nat_cmp images.new) faces.new.items) }
    ensures none { IfOk result (λ made. made ≡ false → (k l : ComplexView) (order : List ℕ) (reached : List (List ℕ)) → IsSearch k l search.now → IsNext k reached faces.old.items step.now → IsSpread k l order reached (length faces.old.items) (get nat_cmp images.old) faces.old.items → NoneOrdered k l order) }
{
    let Some(left) = images.get(&step.left).copied() else {
        return Ok(false);
    };
    let ridge = faces[step.from].without(left);
    let Some(taken) = across(&search.incidences, &ridge, left) else {
        return Ok(false);
    };
    let Some(face) = ridge.with(taken) else {
        return Ok(false);
    };
    if !agree(search, step.taken, taken, images)? {
        return Ok(false);
    }
    faces.push(face)?;
    Ok(true)
}

// A label other than this one that makes a facet of a ridge.
fn across(incidences: &[(Face, u16)], ridge: &Face, label: u16) -> Option<u16>
    requires { IsStrictlySortedBy incidence_cmp incidences.now }
    ensures { IsAcross (run_of incidences.now ridge.now) label result }
{
    for incidence in over(incidences, ridge) {
        if incidence.1 != label {
            return Some(incidence.1);
        }
    }
    None
}

// Gives a label its image. Whether it had none, and has its image's degree, or had this one.
fn agree(
    search: &Search,
    label: u16,
    image: u16,
    images: &mut BTreeMap<u16, u16>,
) -> Result<bool, AllocError>
    requires { IsSound search.now }
    ensures given { IfOk result (λ agreed. agreed ≡ true → IsGiven (get nat_cmp images.old) label image (get nat_cmp images.new)) }
    ensures refused { IfOk result (λ agreed. agreed ≡ false → (h : ℕ → ℕ) → Agrees h (get nat_cmp images.old) → h label ≡ image → alike search.now label (h label) ≡ false) }
    ensures again { IfOk result (λ agreed. agreed ≡ true → IfSome (get nat_cmp images.old label) (λ known. known ≡ image)) }
{
    if let Some(known) = images.get(&label) {
        return Ok(*known == image);
    }
    if !search.alike(label, image) {
        return Ok(false);
    }
    images.insert(label, image)?;
    Ok(true)
}
