// Maps of labels that take no two to the same one.
ghost use Rattle.std.specs.Prelude.{◌≡◌, ℕ, ◌<◌, IfOk, OnOk, IfErr, MatchOption, length, map, true};
ghost use Rattle.std.specs.Option.{SomeIff};
ghost use Rattle.complex_core.specs.Rising.{rising};
ghost use Rattle.complex_core.specs.Maps.{IsMap, ArePositive, Differ, pair_cmp, turned, takes, at, numbered};
ghost use Rattle.complex_core.specs.Labels.{IsRising};
ghost use Rattle.complex_core.specs.MapFaults.{PairsRefused, IsFirstTwice};
ghost use Rattle.complex_core.specs.declared.map.MapFault.TheVariants.{Memory};

use std::alloc::{AllocError, Global};
use std::collections::BTreeSet;
use std::marker::Model;

/// A map of labels that takes no two to the same one, as its pairs, rising in the first numbers.
#[derive(Drop)]
pub struct VertexMap {
    pairs: Vec<(u16, u16)>,
}

impl Model for VertexMap {
    ghost use Rattle.std.specs.Prelude.{List, ℕ};
    ghost use Rattle.complex_core.specs.Maps.{IsMap};

    ghost Value = { List (ℕ × ℕ) };

    ghost view = { λ m. m.pairs.items };

    ghost invariant = { λ m. IsMap m.pairs.items };
}

/// Why pairs of numbers are no map.
#[derive(Clone, Copy, Debug, PartialEq, Eq)]
pub enum MapFault {
    /// The pair at this position, from 0, is the first with the first or the second number of an
    /// earlier pair.
    Twice(usize),
    /// There is no memory left.
    Memory,
}

impl From<AllocError> for MapFault {
    ghost from_gives = { λ _ e. e ≡ Memory };

    fn from(_: AllocError) -> Self {
        MapFault::Memory
    }
}

impl VertexMap {
    /// The map of these pairs, in whatever order. All numbers are at least 1.
    pub fn from_pairs(alloc: Global, pairs: &[(u16, u16)]) -> Result<VertexMap, MapFault>
        requires { ArePositive pairs.now }
        ensures pairs { IfOk result (λ m. m ≡ rising pair_cmp pairs.now) }
        ensures can { OnOk result (Differ pairs.now) }
        ensures err { IfErr result (PairsRefused pairs.now) }
    {
        if let Some(position) = first_twice(alloc, pairs)? {
            return Err(MapFault::Twice(position));
        }
        Ok(VertexMap::sorted(Vec::from_slice(alloc, pairs)?))
    }

    // The map of pairs that share no numbers.
    fn sorted(mut pairs: Vec<(u16, u16)>) -> VertexMap
        requires positive { ArePositive pairs.items }
        requires differ { Differ pairs.items }
        ensures { result ≡ rising pair_cmp pairs.items }
    {
        sort_pairs(&mut pairs);
        VertexMap { pairs }
    }

    // The map that takes the places from 1 on to these labels.
    pub(crate) fn numbering(alloc: Global, labels: &[u16]) -> Result<VertexMap, AllocError>
        requires { IsRising labels.now }
        ensures { IfOk result (λ m. m ≡ numbered 1 labels.now) }
    {
        let mut pairs = Vec::new(alloc);
        for (position, label) in labels.iter().enumerate() {
            pairs.push((position as u16 + 1, *label))?;
        }
        Ok(VertexMap { pairs })
    }

    /// The number that a label becomes. `None` exactly where it has no pair.
    pub fn get(&self, label: u16) -> Option<u16>
        ensures get { SomeIff result (takes self.now label ≡ true) (at self.now label) }
        ensures map { IsMap self.now }
    {
        match self.pairs.binary_search_by_key(&label, |pair| pair.0) {
            Ok(position) => Some(self.pairs[position].1),
            Err(_) => None,
        }
    }

    /// The pairs, rising.
    pub fn pairs(&self) -> &[(u16, u16)]
        ensures pairs { result.now ≡ self.now }
        ensures map { IsMap self.now }
    {
        &self.pairs
    }

    /// The map back: each pair turned round.
    pub fn inverse(&self) -> Result<VertexMap, AllocError>
        ensures { IfOk result (λ m. m ≡ rising pair_cmp (turned self.now)) }
    {
        let alloc = *self.pairs.allocator();
        let pairs = turned_pairs(alloc, &self.pairs)?;
        Ok(VertexMap::sorted(pairs))
    }
}

// The first position whose pair has the first or the second number of an earlier pair.
fn first_twice(alloc: Global, pairs: &[(u16, u16)]) -> Result<Option<usize>, AllocError>
    ensures { IfOk result (λ position. MatchOption position (Differ pairs.now) (IsFirstTwice pairs.now)) }
{
    let mut firsts = BTreeSet::new(alloc);
    let mut seconds = BTreeSet::new(alloc);
    for (position, pair) in pairs.iter().enumerate() {
        if !firsts.insert(pair.0)? {
            return Ok(Some(position));
        }
        if !seconds.insert(pair.1)? {
            return Ok(Some(position));
        }
    }
    Ok(None)
}

// Sorts pairs, and keeps each once.
fn sort_pairs(pairs: &mut Vec<(u16, u16)>)
    ensures { pairs.new.items ≡ rising pair_cmp pairs.old.items }
{
    pairs.sort_unstable();
    pairs.dedup();
}

fn turned_pairs(alloc: Global, pairs: &[(u16, u16)]) -> Result<Vec<(u16, u16)>, AllocError>
    ensures { IfOk result (λ v. v.items ≡ turned pairs.now) }
{
    pairs.iter().map(|pair| (pair.1, pair.0)).collect(alloc)
}
