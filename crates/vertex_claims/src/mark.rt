// What a pass keeps of its tries.
ghost use Rattle.std.specs.Prelude.{◌≡◌};

use std::marker::Model;

/// What a first claim found.
#[derive(Clone, Copy, Debug, PartialEq, Eq)]
pub enum Found {
    /// The place was free, and its star had this version.
    Won(u64),
    /// This worker held the place.
    Lost(u16),
}

/// What a pass keeps of one try: its first claim, and the refused claims after it and before the next
/// first claim.
#[derive(Clone, Copy, Debug, PartialEq, Eq)]
pub struct Mark {
    /// The place of the first claim.
    pub place: u16,
    /// What it found.
    pub found: Found,
    /// How many later claims of places from 1 were refused, or 4,294,967,295 where it was more.
    pub vertices: u32,
    /// The same of claims of place 0.
    pub journal: u32,
    /// The place of the last refused claim, or 0.
    pub last: u16,
    /// The worker who held it then, or 0 where no claim was refused.
    pub owner: u16,
}

// The mark of a first claim, before any later one.
pub(crate) fn first_mark(place: u16, found: Found) -> Mark
    ensures { result ≡ record { place = place; found = found; vertices = 0; journal = 0; last = 0; owner = 0 } }
{
    Mark {
        place,
        found,
        vertices: 0,
        journal: 0,
        last: 0,
        owner: 0,
    }
}

/// The marks of a pass that was taken back. Only [`Main::take_back`](crate::Main::take_back) makes them.
///
/// Contracts see the pass's worker, the board's round, and the list of the marks.
#[derive(Drop)]
pub struct Marks {
    worker: u16,
    round: u32,
    list: Vec<Mark>,
}

impl Model for Marks {
    ghost use Rattle.vertex_claims.specs.MarkLists.{MarkList};

    ghost Value = { MarkList };

    ghost view = { λ m. record { worker = m.worker; round = m.round; list = m.list.items } };
}

impl Marks {
    pub(crate) fn of(worker: u16, round: u32, list: Vec<Mark>) -> Marks
        ensures { result ≡ record { worker = worker; round = round; list = list.items } }
    {
        Marks {
            worker,
            round,
            list,
        }
    }

    /// The pass's number.
    pub fn worker(&self) -> u16
        ensures { result ≡ self.now.worker }
    {
        self.worker
    }

    /// The board's round.
    pub fn round(&self) -> u32
        ensures { result ≡ self.now.round }
    {
        self.round
    }

    /// The marks, one for each first claim, in order.
    pub fn list(&self) -> &[Mark]
        ensures { result.now ≡ self.now.list }
    {
        &self.list
    }
}
