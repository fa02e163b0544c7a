// What the labels of an image are called in the labels of the complex itself, while flips change both.
ghost use Rattle.std.specs.Prelude.{◌≡◌, ◌<◌, ◌≤◌, ◌+◌, not, nat_eq, true, false, filter, IfOk, OnOk, length, ℕ};
ghost use Rattle.std.specs.List.{list_all};
ghost use Rattle.std.specs.List.Sorted.{IsStrictlySortedBy};
ghost use Rattle.std.specs.Ordering.{nat_cmp};
ghost use Rattle.std.specs.Option.{SomeIff};
ghost use Rattle.complex_core.specs.Labels.{IsFace, IsRising, with, without};
ghost use Rattle.complex_core.specs.Rising.{put};
ghost use Rattle.complex_core.specs.Maps.{IsMap, pair_cmp, takes, at, face_image, turned};
ghost use Rattle.flip_names.specs.Names.{named_flip, takes_flip};
ghost use Rattle.flip_names.specs.Laws.{map_back};
ghost use Rattle.flip_rules.specs.Flips.{OfFaces};
ghost use Rattle.flip_journal.specs.Carried.{NamesLabels, first_gap, least_unused, vanishes, with_label, with_labels};

use complex_core::{Complex, Face, MapFault, VertexMap};
use flip_rules::Flip;
use std::alloc::{AllocError, Global};
use std::marker::Model;

// Pairs of a label and its name, and the names, both rising. Contracts see the pairs.
#[derive(Drop)]
pub(crate) struct Names {
    pairs: Vec<(u16, u16)>,
    given: Vec<u16>,
}

impl Model for Names {
    ghost use Rattle.std.specs.Prelude.{List, ℕ};
    ghost use Rattle.flip_journal.specs.Carried.{AreNames};

    ghost Value = { List (ℕ × ℕ) };

    ghost view = { λ n. n.pairs.items };

    ghost invariant = { λ n. AreNames n.pairs.items n.given.items };
}

// The first number from 1 on that rising numbers from 1 on leave out: each number before it stands
// at its own position, and none behind it does.
fn gap(numbers: &[u16]) -> usize
    requires { IsRising numbers.now }
    ensures gap { result ≡ first_gap 1 numbers.now }
    ensures few { result ≤ length numbers.now + 1 }
{
    let mut low = 0;
    let mut high = numbers.len();
    while low < high {
        let middle = low + (high - low) / 2;
        if numbers[middle] as usize == middle + 1 {
            low = middle + 1;
        } else {
            high = middle;
        }
    }
    low + 1
}

// Adds a pair to rising ones, in its place.
fn put_pair(pairs: &mut Vec<(u16, u16)>, pair: (u16, u16)) -> Result<(), AllocError>
    requires { IsStrictlySortedBy pair_cmp pairs.old.items }
    ensures { OnOk result (pairs.new.items ≡ put pair_cmp pair pairs.old.items) }
{
    if let Err(position) = pairs.binary_search(&pair) {
        pairs.insert(position, pair)?;
    }
    Ok(())
}

// Adds a name to rising ones, in its place.
fn put_name(names: &mut Vec<u16>, name: u16) -> Result<(), AllocError>
    requires { IsStrictlySortedBy nat_cmp names.old.items }
    ensures { OnOk result (names.new.items ≡ with names.old.items name) }
{
    if let Err(position) = names.binary_search(&name) {
        names.insert(position, name)?;
    }
    Ok(())
}

// Takes the pair of a label out of those of a map, if there is one.
fn take_pair(pairs: &mut Vec<(u16, u16)>, label: u16)
    requires { IsMap pairs.old.items }
    ensures { pairs.new.items ≡ filter (λ p. not (nat_eq p.0 label)) pairs.old.items }
{
    if let Ok(position) = pairs.binary_search_by_key(&label, |pair| pair.0) {
        pairs.remove(position);
    }
}

// Takes a name out of rising ones, if it is there.
fn take_name(names: &mut Vec<u16>, name: u16)
    requires { IsStrictlySortedBy nat_cmp names.old.items }
    ensures { names.new.items ≡ without names.old.items name }
{
    if let Ok(position) = names.binary_search(&name) {
        names.remove(position);
    }
}

fn turned(alloc: Global, pairs: &[(u16, u16)]) -> Result<Vec<(u16, u16)>, AllocError>
    ensures { IfOk result (λ v. v.items ≡ turned pairs.now) }
{
    pairs.iter().map(|pair| (pair.1, pair.0)).collect(alloc)
}

impl Names {
    // Of the image of a complex: the pairs of the map turned round.
    pub(crate) fn of_image(
        alloc: Global,
        from: &Complex,
        map: &VertexMap,
    ) -> Result<Names, AllocError>
        requires { NamesLabels map.now from.now }
        ensures { IfOk result (λ n. n ≡ map_back map.now) }
    {
        let given = from.labels()?;
        let back = map.inverse()?;
        let pairs = Vec::from_slice(alloc, back.pairs())?;
        Ok(Names { pairs, given })
    }

    // The name of a label. `None` exactly where it has none.
    fn get(&self, label: u16) -> Option<u16>
        ensures get { SomeIff result (takes self.now label ≡ true) (at self.now label) }
        ensures map { IsMap self.now }
    {
        match self.pairs.binary_search_by_key(&label, |pair| pair.0) {
            Ok(position) => Some(self.pairs[position].1),
            Err(_) => None,
        }
    }

    // A face in the names. `None` exactly where a label has none.
    fn face(&self, face: &Face) -> Option<Face>
        ensures image { SomeIff result (list_all (takes self.now) face.now ≡ true) (face_image self.now face.now) }
        ensures face { IsFace face.now }
    {
        let mut image = Face::new();
        for label in face.labels().as_slice() {
            image = image.with(self.get(*label)?)?;
        }
        Some(image)
    }

    // A flip in the names. `None` exactly where a label has none.
    pub(crate) fn flip(&self, flip: &Flip) -> Option<Flip>
        ensures named { SomeIff result (takes_flip self.now flip.now ≡ true) (named_flip self.now flip.now) }
        ensures faces { OfFaces flip.now }
    {
        let a = self.face(&flip.a);
        let b = self.face(&flip.b);
        Some(Flip { a: a?, b: b? })
    }

    // A number that no label is above: as each label it is at most 65,535.
    fn greatest(&self) -> u16
        ensures { (x : ℕ) → takes self.now x ≡ true → x ≤ result }
    {
        match self.pairs.last() {
            Some(pair) => pair.0,
            None => 0,
        }
    }

    // The name that a new label gets, the least unused one. There is one among the numbers up to 65,535:
    // there are fewer names than labels up to there, and `greatest` says that no label is above.
    fn new_name(&self, label: u16) -> u16
        requires low { 0 < label }
        requires new { takes self.now label ≡ false }
        ensures { result ≡ least_unused self.now }
    {
        let _ = self.greatest();
        gap(&self.given) as u16
    }

    // With a label, which gets the least unused name unless it has one.
    fn with_label(mut self, label: u16) -> Result<Names, AllocError>
        requires { 0 < label }
        ensures { IfOk result (λ n. n ≡ with_label self label) }
    {
        if self.get(label).is_none() {
            let name = self.new_name(label);
            put_pair(&mut self.pairs, (label, name))?;
            put_name(&mut self.given, name)?;
        }
        Ok(self)
    }

    // With the labels of a face, one after another.
    pub(crate) fn with_labels(self, face: &Face) -> Result<Names, AllocError>
        ensures { IfOk result (λ n. n ≡ with_labels self face.now) }
    {
        let mut names = self;
        for label in face.labels().as_slice() {
            names = names.with_label(*label)?;
        }
        Ok(names)
    }

    // Without the label that a flip of this A takes out of a complex.
    pub(crate) fn without_vanished(mut self, a: &Face) -> Names
        ensures { result ≡ filter (λ p. not (vanishes a.now p.0)) self }
    {
        if a.len() == 1 {
            let label = a.label(0);
            if let Some(name) = self.get(label) {
                take_pair(&mut self.pairs, label);
                take_name(&mut self.given, name);
            }
        }
        self
    }

    // The map from the names to the labels.
    pub(crate) fn map_back(&self, alloc: Global) -> Result<VertexMap, AllocError>
        ensures { IfOk result (λ m. m ≡ map_back self.now) }
    {
        let turned = turned(alloc, &self.pairs)?;
        match VertexMap::from_pairs(alloc, &turned) {
            Ok(map) => Ok(map),
            Err(MapFault::Memory) => Err(AllocError),
            Err(MapFault::Twice(_)) => unreachable!(),
        }
    }
}
