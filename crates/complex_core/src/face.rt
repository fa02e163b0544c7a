// Faces: small sets of labels.
ghost use Rattle.std.specs.Prelude.{◌≡◌, ℕ, ◌+◌, ◌≤◌, ◌<◌, ◌↔◌, List, [], ◌∷◌, ◌++◌, length, Some, IfSome, IfNone, IfOk, OnOk, IfErr, IsTrue, nat_eq, refl, ◌==◌, slice_index, take, drop, ◌-◌};
ghost use Rattle.std.specs.Option.{SomeIff};
ghost use Rattle.std.specs.Ordering.{nat_cmp};
ghost use Rattle.std.specs.Cmp.{on_po, partial_equiv_from_equiv};
ghost use Rattle.std.specs.Cmp.Lexicographic.{pointwise, slice_cmp, nat_list_eq_equiv, nat_list_cmp_total, texts_po, texts_ties};
ghost use Rattle.std.specs.Hash as fed;
ghost use Rattle.std.specs.List.{insert, remove};
ghost use Rattle.complex_core.specs.Labels.{IsFace, padded, has, holds, with, without, union};
ghost use Rattle.complex_core.specs.Packed.{pack};
ghost use Rattle.complex_core.specs.Links.{less};
ghost use Rattle.complex_core.specs.FaceFaults.{FaceRefused};

use crate::Labels;
use std::cmp::Ordering;
use std::hash::{Hash, Hasher};
use std::marker::Model;
use std::simd::prelude::*;

/// A set of up to eight labels from 1, in one number of 16 bytes. Faces are compared label by
/// label, and a proper prefix is less.
#[derive(Clone, Copy)]
pub struct Face {
    // The label at position k, from 0, stands in the bits from 112 - 16k on, and zeros behind the
    // last one. So the order of faces is that of their numbers.
    bits: u128,
}

impl Model for Face {
    ghost use Rattle.std.specs.Prelude.{List, ℕ};
    ghost use Rattle.complex_core.specs.Packed.{pack, unpack, IsPacked};
    ghost use Rattle.complex_core.specs.Packing.{bits_back};

    ghost Value = { List ℕ };

    ghost view = { λ f. unpack 8 f.bits };

    ghost invariant = { λ f. IsPacked f.bits };

    ghost inverse = { λ xs. record { bits = pack 8 xs } };

    ghost inverse_ok = { λ f h i. record { bits = bits_back f.bits h i } };
}

/// Why a list of labels is no face.
#[derive(Clone, Copy, Debug, PartialEq, Eq)]
pub enum FaceFault {
    /// There are this many, more than eight.
    TooMany(usize),
    /// The one at this position, from 0, is the first that isn't above the one before it; before
    /// the first one stands 0.
    NotRising(usize),
}

impl Face {
    /// The face of these labels, which rise and are at most eight.
    ///
    /// `TooMany` is answered before `NotRising`, each exactly where it holds.
    pub fn from_slice(labels: &[u16]) -> Result<Face, FaceFault>
        ensures ok { IfOk result (λ f. f ≡ labels.now) }
        ensures face { OnOk result (IsFace labels.now) }
        ensures err { IfErr result (FaceRefused labels.now) }
    {
        if labels.len() > 8 {
            return Err(FaceFault::TooMany(labels.len()));
        }
        let mut all = Face::new();
        let mut before = 0;
        for (position, label) in labels.iter().enumerate() {
            if *label <= before {
                return Err(FaceFault::NotRising(position));
            }
            all.push(*label);
            before = *label;
        }
        Ok(all)
    }

    /// The face without labels, which is in every face.
    pub fn new() -> Face
        ensures { result ≡ [] }
    {
        Face { bits: 0 }
    }

    // Adds a label behind the others.
    fn push(&mut self, label: u16)
        requires { IsFace (self.old ++ label ∷ []) }
        ensures { self.new ≡ self.old ++ label ∷ [] }
    {
        let shift = 112 - 16 * self.len();
        self.bits += (label as u128) << shift;
    }

    // Adds labels behind the others.
    pub(crate) fn extend(&mut self, labels: &[u16])
        requires { IsFace (self.old ++ labels.now) }
        ensures { self.new ≡ self.old ++ labels.now }
    {
        for label in labels {
            self.push(*label);
        }
    }

    /// How many labels there are.
    pub fn len(&self) -> usize
        ensures len { result ≡ length self.now }
        ensures face { IsFace self.now }
    {
        8 - self.bits.trailing_zeros() as usize / 16
    }

    /// Whether there is no label.
    pub fn is_empty(&self) -> bool
        ensures { result ≡ (length self.now == 0) }
    {
        self.bits == 0
    }

    /// Whether it has this label.
    pub fn contains(&self, label: u16) -> bool
        ensures { result ≡ has self.now label }
    {
        let lanes = self.lanes();
        label != 0 && lanes.simd_eq(u16x8::splat(label)).any()
    }

    /// Whether each label of the other face is in it.
    pub fn holds(&self, other: &Face) -> bool
        ensures { result ≡ holds self.now other.now }
    {
        for position in 0..other.len() {
            if !self.contains(other.label(position)) {
                return false;
            }
        }
        true
    }

    /// The label at this position, from 0.
    pub fn label(&self, position: usize) -> u16
        requires { position < length self.now }
        ensures label { result ≡ slice_index self.now position }
        ensures face { IsFace self.now }
    {
        ((self.bits >> (112 - 16 * position)) % 65536) as u16
    }

    // The labels and the zeros behind them as lanes, the last position first.
    fn lanes(&self) -> u16x8
        ensures eight { length result ≡ 8 }
        ensures lanes { (x : ℕ) → 0 < x → has result x ≡ has self.now x }
        ensures face { IsFace self.now }
    {
        let low = (self.bits % (1 << 64)) as u64;
        let high = (self.bits >> 64) as u64;
        u16x8::from_le_bytes(u64x2::from_array([low, high]).to_le_bytes())
    }

    // The labels, and zeros behind them.
    fn padded(&self) -> [u16; 8]
        ensures places { result ≡ padded self.now }
        ensures face { IsFace self.now }
    {
        [
            (self.bits >> 112) as u16,
            ((self.bits >> 96) % 65536) as u16,
            ((self.bits >> 80) % 65536) as u16,
            ((self.bits >> 64) % 65536) as u16,
            ((self.bits >> 48) % 65536) as u16,
            ((self.bits >> 32) % 65536) as u16,
            ((self.bits >> 16) % 65536) as u16,
            (self.bits % 65536) as u16,
        ]
    }

    // The least label, or 0 where there is none.
    pub(crate) fn first(&self) -> u16
        ensures { result ≡ slice_index self.now 0 }
    {
        (self.bits >> 112) as u16
    }

    // The number with zeros from this position on.
    fn front(&self, position: usize) -> u128
        requires room { position ≤ 7 }
        requires inside { position ≤ length self.now }
        ensures { result ≡ pack 8 (take position self.now) }
    {
        let shift = 112 - 16 * position;
        self.bits >> shift >> 16 << 16 << shift
    }

    // The number with zeros up to this position.
    fn behind(&self, position: usize) -> u128
        requires { position < length self.now }
        ensures { result ≡ pack (7 - position) (drop (position + 1) self.now) }
    {
        let bits = self.bits;
        let shift = 112 - 16 * position;
        bits - (bits >> shift << shift)
    }

    // A label at this position, and those from there on behind it.
    fn insert(&self, position: usize, label: u16) -> Face
        requires position { position ≤ length self.now }
        requires face { IsFace (insert self.now position label) }
        ensures { result ≡ insert self.now position label }
    {
        let front = self.front(position);
        let behind = (self.bits - front) >> 16;
        let next = (label as u128) << (112 - 16 * position);
        Face {
            bits: front + next + behind,
        }
    }

    // All labels but the one at this position.
    fn remove(&self, position: usize) -> Face
        requires inside { position < length self.now }
        requires face { IsFace (remove self.now position) }
        ensures { result ≡ remove self.now position }
    {
        // There are at most eight labels: the invariant says so.
        let _ = &self.bits;
        Face {
            bits: self.front(position) + (self.behind(position) << 16),
        }
    }

    /// The label added: the same face where it is there. `None` exactly where the label is 0, or
    /// there are eight others.
    pub fn with(&self, label: u16) -> Option<Face>
        ensures { SomeIff result ((0 < label) × (length (with self.now label) ≤ 8)) (with self.now label) }
    {
        if label == 0 {
            return None;
        }
        match self.labels().binary_search(&label) {
            Ok(_) => Some(*self),
            Err(_) if self.len() == 8 => None,
            Err(position) => Some(self.insert(position, label)),
        }
    }

    /// The labels but this one: the same face where it isn't there.
    pub fn without(&self, label: u16) -> Face
        ensures { result ≡ without self.now label }
    {
        match self.labels().binary_search(&label) {
            Ok(position) => self.remove(position),
            Err(_) => *self,
        }
    }

    /// The labels of both. `None` exactly where these are more than eight.
    pub fn union(&self, other: &Face) -> Option<Face>
        ensures { SomeIff result (length (union self.now other.now) ≤ 8) (union self.now other.now) }
    {
        let mut all = *self;
        let _ = &self.bits;
        for position in 0..other.len() {
            match all.with(other.label(position)) {
                Some(more) => all = more,
                None => return None,
            }
        }
        Some(all)
    }

    /// The labels that aren't in the other face.
    pub fn less(&self, other: &Face) -> Face
        ensures { result ≡ less self.now other.now }
    {
        let mut all = *self;
        for position in 0..other.len() {
            all = all.without(other.label(position));
        }
        all
    }

    /// The labels, rising.
    pub fn labels(&self) -> Labels
        ensures labels { result ≡ self.now }
        ensures face { IsFace self.now }
    {
        Labels::new(self.padded(), self.len())
    }
}

impl PartialEq for Face {
    ghost eq = { pointwise nat_eq };

    ghost laws = { partial_equiv_from_equiv nat_list_eq_equiv };

    fn eq(&self, other: &Self) -> bool {
        self.bits == other.bits
    }
}

impl Eq for Face {
    ghost laws = { nat_list_eq_equiv };
}

impl PartialOrd for Face {
    ghost partial_cmp = { λ s t. Some (slice_cmp nat_cmp s t) };

    ghost laws = { texts_po };

    fn partial_cmp(&self, other: &Self) -> Option<Ordering> {
        Some(self.cmp(other))
    }
}

impl Ord for Face {
    ghost cmp = { slice_cmp nat_cmp };

    ghost total = { nat_list_cmp_total };

    ghost matches_partial_cmp = { λ s t. refl };

    ghost matches_eq = { λ s t. texts_ties s t };

    fn cmp(&self, other: &Self) -> Ordering {
        self.bits.cmp(&other.bits)
    }
}

impl Hash for Face {
    ghost use Rattle.complex_core.specs.Packed.{pack};
    ghost use Rattle.complex_core.specs.Packing.{same_input};

    ghost hash_input = { λ xs. fed.u128 (pack 8 xs) };

    ghost respects_eq = { same_input };

    fn hash<H: Hasher>(&self, state: &mut H) {
        self.bits.hash(state);
    }
}

impl Default for Face {
    ghost is_default = { λ f. f ≡ [] };

    fn default() -> Self {
        Face::new()
    }
}
