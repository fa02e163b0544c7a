// Journals: what workers committed, in order.
ghost use Rattle.std.specs.Prelude.{◌≡◌, ◌≤◌, ◌-◌, [], ◌∷◌, ◌++◌, length, take, IsOk, IfOk, OnOk, OnErr};
ghost use Rattle.std.specs.Option.{option_to_list};

use crate::flip::Flip;
use smallvec::SmallVec;
use std::alloc::{AllocError, Global};
use std::marker::Model;

/// The flips of one entry: up to four lie in the entry itself, more in memory of their own.
pub type Flips = SmallVec<Flip, 4, Global>;

/// One entry of a journal: the flips that a worker made together in a round, in order.
///
/// Contracts see the three numbers and the list of the flips.
#[derive(Drop)]
pub struct Entry {
    round: u32,
    worker: u16,
    seq: u32,
    flips: Flips,
}

impl Model for Entry {
    ghost use Rattle.flip_rules.specs.Entries.{JournalEntry};

    ghost Value = { JournalEntry };

    ghost view = { λ e. record { round = e.round; worker = e.worker; seq = e.seq; flips = e.flips.items } };
}

impl Entry {
    /// An entry of these flips. Up to four of them take no memory, so that it can't fail.
    pub fn new(
        alloc: Global,
        round: u32,
        worker: u16,
        seq: u32,
        flips: &[Flip],
    ) -> Result<Entry, AllocError>
        ensures ok { IfOk result (λ e.
            e ≡ record { round = round; worker = worker; seq = seq; flips = flips.now }) }
        ensures succeeds { length flips.now ≤ 4 → IsOk result }
    {
        let flips = SmallVec::from_slice(alloc, flips)?;
        Ok(Entry {
            round,
            worker,
            seq,
            flips,
        })
    }

    /// The round in which it was written.
    pub fn round(&self) -> u32
        ensures { result ≡ self.now.round }
    {
        self.round
    }

    /// The number of the worker who wrote it.
    pub fn worker(&self) -> u16
        ensures { result ≡ self.now.worker }
    {
        self.worker
    }

    /// Its number among the entries of this worker and round, from 0.
    pub fn seq(&self) -> u32
        ensures { result ≡ self.now.seq }
    {
        self.seq
    }

    /// Its flips, in the order in which they are made.
    pub fn flips(&self) -> &[Flip]
        ensures { result.now ≡ self.now.flips }
    {
        self.flips.as_slice()
    }
}

/// A journal: entries in the order in which they were written. Contracts see the list of the
/// entries.
#[derive(Drop)]
pub struct Journal {
    entries: Vec<Entry>,
}

impl Model for Journal {
    ghost use Rattle.std.specs.Prelude.{List};
    ghost use Rattle.flip_rules.specs.Entries.{JournalEntry};

    ghost Value = { List JournalEntry };

    ghost view = { λ j. j.entries.items };
}

impl Journal {
    /// A journal without entries.
    pub fn new(alloc: Global) -> Journal
        ensures { result ≡ [] }
    {
        Journal {
            entries: Vec::new(alloc),
        }
    }

    /// The entries, in order.
    pub fn entries(&self) -> &[Entry]
        ensures { result.now ≡ self.now }
    {
        &self.entries
    }

    /// Writes an entry behind the others, or leaves the journal as it is.
    pub fn push(&mut self, entry: Entry) -> Result<(), AllocError>
        ensures ok { OnOk result (self.new ≡ self.old ++ entry ∷ []) }
        ensures err { OnErr result (self.new ≡ self.old) }
    {
        self.entries.push(entry)?;
        Ok(())
    }

    /// Takes the last entry back. A journal without entries has none, and stays as it is.
    pub fn pop(&mut self) -> Option<Entry>
        ensures rest { self.new ≡ take (length self.old - 1) self.old }
        ensures last { self.old ≡ self.new ++ option_to_list result }
    {
        self.entries.pop()
    }
}
