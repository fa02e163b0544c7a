//! What a search leaves.

ghost use Rattle.std.specs.Prelude.{◌≡◌, ◌++◌, true, IfOk, OnOk, map};
ghost use Rattle.flip_rules.specs.Journals.{flat};
ghost use Rattle.flip_names.specs.Names.{named_flips, takes_flips};

use crate::record::RoundRecord;
use complex_core::{Complex, VertexMap};
use flip_names::push_named;
use flip_rules::{Entry, Flip};
use std::alloc::{AllocError, Global};
use std::marker::Model;

/// The report of a search: the complex as it was given, the names of its places, the descents and the
/// records of the rounds, and the complex on the places at the end. Descent 0 comes first, then round 0,
/// descent 1, and so on. Nothing but a search makes one.
///
/// Contracts see the record of these parts.
#[derive(Drop)]
pub struct Report {
    pub(crate) input: Complex,
    pub(crate) names: VertexMap,
    pub(crate) descents: Vec<Vec<Flip>>,
    pub(crate) rounds: Vec<RoundRecord>,
    pub(crate) end: Complex,
}

impl Model for Report {
    ghost use Rattle.std.specs.Prelude.{◌≡◌, true, map};
    ghost use Rattle.flip_rules.specs.Journals.{flat};
    ghost use Rattle.flip_names.specs.Names.{takes_flips};
    ghost use Rattle.round_run.specs.Reports.{ReportView, history_from};

    ghost Value = { ReportView };

    ghost view = { λ r. record { input = r.input; names = r.names; descents = map (λ v. v.items) r.descents.items; rounds = r.rounds.items; end = r.end } };

    // Each label of its flips has a name.
    ghost invariant = { λ r. takes_flips r.names (flat (history_from 0 (map (λ v. v.items) r.descents.items) r.rounds.items)) ≡ true };
}

// Adds the flips of entries in other labels, where each of their labels has a name.
fn push_entries(all: &mut Vec<Flip>, entries: &[Entry], names: &VertexMap) -> Result<(), AllocError>
    requires { takes_flips names.now (flat entries.now) ≡ true }
    ensures { OnOk result (all.new.items ≡ all.old.items ++ named_flips names.now (flat entries.now)) }
{
    for entry in entries {
        push_named(all, entry.flips(), names)?;
    }
    Ok(())
}

impl Report {
    ghost use Rattle.round_run.specs.Reports.{history};

    /// The complex as it was given.
    pub fn input(&self) -> &Complex
        ensures { result.now ≡ self.now.input }
    {
        &self.input
    }

    /// The labels that the places stand for.
    pub fn names(&self) -> &VertexMap
        ensures { result.now ≡ self.now.names }
    {
        &self.names
    }

    /// The flips of each descent, on the places.
    pub fn descents(&self) -> &[Vec<Flip>]
        ensures { map (λ v. v.items) result.now ≡ self.now.descents }
    {
        &self.descents
    }

    /// The records of the rounds.
    pub fn rounds(&self) -> &[RoundRecord]
        ensures { result.now ≡ self.now.rounds }
    {
        &self.rounds
    }

    /// The complex on the places at the end.
    pub fn end(&self) -> &Complex
        ensures { result.now ≡ self.now.end }
    {
        &self.end
    }

    /// All flips, in order, in the labels of the complex that was given.
    pub fn named_flips(&self, alloc: Global) -> Result<Vec<Flip>, AllocError>
        ensures { IfOk result (λ v. v.items ≡ named_flips self.now.names (flat (history self.now))) }
    {
        let mut all = Vec::new(alloc);
        for (place, descent) in self.descents.iter().enumerate() {
            push_named(&mut all, descent, &self.names)?;
            if let Some(record) = self.rounds.get(place) {
                push_entries(&mut all, record.entries(), &self.names)?;
            }
        }
        Ok(all)
    }
}
