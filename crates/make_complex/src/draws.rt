//! One draw of the generator.

ghost use Rattle.std.specs.Prelude.{◌≡◌, ◌≤◌, ◌<◌, ◌+◌, ◌-◌, ◌%◌, ℕ, [], ◌∷◌, Ok, true, IfOk, OnOk, IsTrue, MatchOption, length, nat_le};
ghost use Rattle.complex_core.specs.Complexes.{ComplexView, IsFacet};
ghost use Rattle.complex_core.specs.Subsets.{subsets_of};
ghost use Rattle.flip_rules.specs.Flips.{OfFaces, broken_rule, flipped};
ghost use Rattle.stars.specs.StarViews.{IsStarListOf, OnPlaces, places_in};
ghost use Rattle.make_complex.specs.Choices.{IsSubfacet};
ghost use Rattle.make_complex.specs.Draws.{after_choice, after_draw, chosen, first_of, flipped_within, least_unused};

use crate::words::DrawWords;
use complex_core::{Complex, Face};
use flip_rules::{FewFaces, Flip, FlipFault};
use stars::{StarMap, flip_at};
use std::alloc::{AllocError, Global};

/// How many labels a made complex has at most.
pub const MOST_LABELS: u16 = 4096;

// How many facets a made complex has at most.
const MOST_FACETS: usize = 20_000;

// The member of some sets that a word chooses.
fn choose(sets: &[Face], word: u32) -> Face
    requires { 0 < length sets.now }
    ensures { result ≡ chosen sets.now word }
{
    sets[word as usize % sets.len()]
}

// The facet that a word chooses.
fn choose_facet(complex: &Complex, word: u32) -> Face
    ensures facet { result ≡ chosen complex.now.facets word }
    ensures size { IsFacet complex.now.dim result }
{
    choose(complex.facets(), word)
}

// The subset of so many labels that a word chooses.
fn choose_subset(alloc: Global, facet: &Face, size: usize, word: u32) -> Result<Face, AllocError>
    requires { size ≤ length facet.now }
    ensures { IfOk result (λ f. f ≡ chosen (subsets_of size facet.now) word) }
{
    let subsets = facet.subsets(alloc, size)?;
    Ok(choose(&subsets, word))
}

// The least place whose label isn't used.
fn least_unused(stars: &StarMap) -> Option<u16>
    ensures { (k : ComplexView) → IsStarListOf k stars.now →
        MatchOption result (places_in stars.now < least_unused k.facets) (λ x. (x ≡ least_unused k.facets) × (x ≤ places_in stars.now)) }
{
    for before in 0..stars.places() {
        if stars.star(before + 1).is_empty() {
            return Some(before + 1);
        }
    }
    None
}

// The face of one label.
fn single(label: u16) -> Face
    requires { 0 < label }
    ensures { result ≡ label ∷ [] }
{
    let Some(face) = Face::new().with(label) else {
        unreachable!()
    };
    face
}

// The flip of an index whose A was chosen, as far as the facets over A tell.
fn flip_of(stars: &StarMap, index: u32, first: &Face) -> Option<Flip>
    requires stars { (k : ComplexView) × IsStarListOf k stars.now × (1 ≤ k.dim) × IsSubfacet k index first.now }
    requires places { places_in stars.now ≡ 4096 }
    ensures { (k : ComplexView) → IsStarListOf k stars.now → 1 ≤ k.dim → IsSubfacet k index first.now →
        MatchOption result (after_choice k index first.now ≡ k) (λ f. OnPlaces stars.now f × (after_choice k index first.now ≡ flipped_within k f.a f.b)) }
{
    if index == 0 {
        let label = least_unused(stars)?;
        return Some(Flip {
            a: *first,
            b: single(label),
        });
    }
    let near = stars.star(first.label(0));
    flip_at(stars.dim(), near.rows(), first)
}

// Makes a legal flip on a complex and its stars.
fn make_flip(complex: &mut Complex, stars: &mut StarMap, flip: &Flip) -> Result<(), AllocError>
    requires stars { IsStarListOf complex.old stars.old }
    requires places { OnPlaces stars.old flip.now }
    requires legal { broken_rule complex.old flip.now.a flip.now.b ≡ Ok tt }
    ensures made { OnOk result (complex.new ≡ flipped complex.old flip.now.a flip.now.b) }
    ensures stars { OnOk result (IsStarListOf complex.new stars.new) }
    ensures places { places_in stars.new ≡ places_in stars.old }
{
    match stars.flip(flip) {
        Ok(()) => {
            let out = FewFaces::join_boundary(&flip.a, &flip.b);
            let more = FewFaces::join_boundary(&flip.b, &flip.a);
            complex.exchange(out.as_slice(), more.as_slice())
        }
        Err(FlipFault::Memory) => Err(AllocError),
        Err(FlipFault::Illegal(_)) => unreachable!(),
    }
}

// Makes a legal flip if it leaves the complex within its limits.
fn make_within(complex: &mut Complex, stars: &mut StarMap, flip: &Flip) -> Result<(), AllocError>
    requires stars { IsStarListOf complex.old stars.old }
    requires places { OnPlaces stars.old flip.now }
    requires room { places_in stars.old ≡ 4096 }
    requires legal { broken_rule complex.old flip.now.a flip.now.b ≡ Ok tt }
    ensures made { OnOk result (complex.new ≡ flipped_within complex.old flip.now.a flip.now.b) }
    ensures stars { OnOk result (IsStarListOf complex.new stars.new) }
    ensures places { places_in stars.new ≡ places_in stars.old }
{
    // A flip takes out a facet for each label of B, and puts in one for each label of A. It uses no labels but
    // places, so that these aren't too many.
    if complex.facets().len() + flip.a.len() > MOST_FACETS + flip.b.len() {
        return Ok(());
    }
    make_flip(complex, stars, flip)
}

// Makes a flip if it is legal and leaves the complex within its limits.
fn flip_within(complex: &mut Complex, stars: &mut StarMap, flip: &Flip) -> Result<(), AllocError>
    requires stars { IsStarListOf complex.old stars.old }
    requires places { OnPlaces stars.old flip.now }
    requires room { places_in stars.old ≡ 4096 }
    ensures made { OnOk result (complex.new ≡ flipped_within complex.old flip.now.a flip.now.b) }
    ensures stars { OnOk result (IsStarListOf complex.new stars.new) }
    ensures places { places_in stars.new ≡ places_in stars.old }
{
    match stars.check(flip) {
        Ok(()) => make_within(complex, stars, flip),
        Err(_) => Ok(()),
    }
}

/// Makes the draw of three words on a complex and its stars.
pub fn draw(
    alloc: Global,
    complex: &mut Complex,
    stars: &mut StarMap,
    words: DrawWords,
) -> Result<(), AllocError>
    requires stars { IsStarListOf complex.old stars.old }
    requires places { places_in stars.old ≡ 4096 }
    requires low { 1 ≤ complex.old.dim }
    ensures made { OnOk result (complex.new ≡ after_draw complex.old words.facet words.index words.subset) }
    ensures stars { OnOk result (IsStarListOf complex.new stars.new) }
    ensures places { places_in stars.new ≡ places_in stars.old }
{
    let index = words.index % (complex.dim() + 1);
    let facet = choose_facet(complex, words.facet);
    let size = (complex.dim() + 1 - index) as usize;
    let first = choose_subset(alloc, &facet, size, words.subset)?;
    match flip_of(stars, index, &first) {
        Some(flip) => flip_within(complex, stars, &flip),
        None => Ok(()),
    }
}
