// What the words and slots of a board hold: stars with their versions, and the open journal.
ghost use Rattle.std.specs.Prelude.{◌≡◌, ◌+◌, ◌<◌, ◌^◌, ◌++◌, ◌∷◌, [], length, IfOk, OnOk, OnErr};

use flip_rules::{Entry, Journal};
use stars::Star;
use std::alloc::{AllocError, Global};
use std::marker::Model;

/// What lies at a place from 1: its star, and how many entries of the journal touch the place.
///
/// Contracts see the star and that number, and not for how many facets the star has room: that is seen of
/// a star that was taken out.
#[derive(Drop)]
pub struct VersionedStar {
    star: Star,
    version: u64,
}

impl Model for VersionedStar {
    ghost use Rattle.board_rule.specs.Homes.{VersionedStar};

    ghost Value = { VersionedStar };

    ghost view = { λ x. record { star = x.star.star; version = x.version } };
}

impl VersionedStar {
    /// A star, and how many entries touch its place.
    pub fn new(star: Star, version: u64) -> VersionedStar
        ensures { result ≡ record { star = star.star; version = version } }
    {
        VersionedStar { star, version }
    }

    /// The star of the place.
    pub fn star(&self) -> &Star
        ensures { result.now.star ≡ self.now.star }
    {
        &self.star
    }

    /// The number of entries that touch it.
    pub fn version(&self) -> u64
        ensures { result ≡ self.now.version }
    {
        self.version
    }

    /// The star, and the number of entries that touch it.
    pub fn into_parts(self) -> (Star, u64)
        ensures star { result.0.star ≡ self.star }
        ensures version { result.1 ≡ self.version }
    {
        (self.star, self.version)
    }
}

/// The journal of a board that is open, with room for entries to come.
///
/// Contracts see the list of the entries, and for how many more there is room.
#[derive(Drop)]
pub struct OpenJournal {
    entries: Vec<Entry>,
}

impl Model for OpenJournal {
    ghost use Rattle.std.specs.Prelude.{◌-◌, vec_len, vec_capacity};
    ghost use Rattle.board_rule.specs.Books.{Book};

    ghost Value = { Book };

    ghost view = { λ j. record { entries = j.entries.items; room = vec_capacity j.entries - vec_len j.entries } };
}

impl OpenJournal {
    /// A journal without entries.
    pub fn new(alloc: Global) -> OpenJournal
        ensures { result.entries ≡ [] }
    {
        OpenJournal {
            entries: Vec::new(alloc),
        }
    }

    /// Makes room for one entry at least, and leaves the entries as they are.
    pub fn reserve(&mut self) -> Result<(), AllocError>
        ensures entries { self.new.entries ≡ self.old.entries }
        ensures room { OnOk result (0 < self.new.room) }
    {
        self.entries.reserve(1)
    }

    /// Writes an entry behind the others, where there is room. It takes no memory.
    pub fn push_reserved(&mut self, entry: Entry)
        requires room { 0 < self.old.room }
        ensures entries { self.new.entries ≡ self.old.entries ++ entry ∷ [] }

        // Their number fits a word.
        ensures short { length self.new.entries < 2 ^ 64 }
    {
        self.entries.push_reserved(entry);
    }

    /// The same entries as a journal that is closed.
    pub fn into_journal(self, alloc: Global) -> Result<Journal, AllocError>
        ensures { IfOk result (λ journal. journal ≡ self.entries) }
    {
        let mut journal = Journal::new(alloc);
        for entry in self.entries {
            journal.push(entry)?;
        }
        Ok(journal)
    }
}

/// What a slot of the table holds: at place 0 the journal, at each other place its home, and where
/// a pass took either out of its slot, nothing.
#[derive(Drop)]
pub enum Slot {
    /// The journal.
    Journal(OpenJournal),
    /// A star with its version.
    Home(VersionedStar),
    /// A pass took out what was there.
    Out,
}
