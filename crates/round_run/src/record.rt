//! What a round leaves.

ghost use Rattle.std.specs.Prelude.{◌≡◌, map};

use flip_rules::{Entry, Journal};
use round_rules::Tried;
use std::marker::Model;
use vertex_claims::Marks;

/// The record of a round: its number, its entries, and of each worker, from worker 1 on, the answers and
/// the marks of its tries. Nothing but `run_round` makes one.
///
/// Contracts see the record of these lists.
#[derive(Drop)]
pub struct RoundRecord {
    pub(crate) round: u32,
    pub(crate) journal: Journal,
    pub(crate) tries: Vec<Vec<Tried>>,
    pub(crate) marks: Vec<Marks>,
}

impl Model for RoundRecord {
    ghost use Rattle.std.specs.Prelude.{map};
    ghost use Rattle.round_rules.specs.Rounds.{RoundView};

    ghost Value = { RoundView };

    ghost view = { λ r. record { round = r.round; entries = r.journal; tries = map (λ v. v.items) r.tries.items; marks = r.marks.items } };
}

impl RoundRecord {
    /// The number of the round.
    pub fn round(&self) -> u32
        ensures { result ≡ self.now.round }
    {
        self.round
    }

    /// The entries that the workers committed, in order.
    pub fn entries(&self) -> &[Entry]
        ensures { result.now ≡ self.now.entries }
    {
        self.journal.entries()
    }

    /// The answers of the tries of each worker, in order.
    pub fn tries(&self) -> &[Vec<Tried>]
        ensures { map (λ v. v.items) result.now ≡ self.now.tries }
    {
        &self.tries
    }

    /// The marks of the tries of each worker, in order.
    pub fn marks(&self) -> &[Marks]
        ensures { result.now ≡ self.now.marks }
    {
        &self.marks
    }
}
