// A board, from its opening to its close.
ghost use Rattle.std.specs.Prelude.{◌≡◌, ◌+◌, ◌<◌, ◌≤◌, ◌∷◌, [], IfOk, length};
ghost use Rattle.std.proofs.Props.{props};
ghost use Rattle.complex_core.specs.Complexes.{IsComplex};
ghost use Rattle.stars.specs.StarViews.{UsesUpTo};

use crate::main_seat::Main;
use crate::slots::{homes, unpack};
use atomic_table::{Refused, Table};
use board_rule::{Ruling, Setup, Slot, View};
use complex_core::Complex;
use flip_rules::Journal;
use stars::StarMap;
use std::alloc::{AllocError, Global};
use std::snapshot::Snapshot;

/// A board, which threads share by reference.
#[derive(Drop)]
pub struct Board {
    pub(crate) table: Table<Slot, View, Setup, Ruling, Global>,
    pub(crate) dim: u32,
    pub(crate) places: u16,
    pub(crate) workers: u16,
    pub(crate) round: u32,
    ghost told: { (table.shared.key.places ≡ places) × (table.shared.key.workers ≡ workers) × (table.shared.key.round ≡ round) × (table.shared.key.start.value.dim ≡ dim) },
    ghost few: { workers ≤ 16 },
    ghost sized: { (table.shared.table_id.words ≡ places + 1) × (table.shared.table_id.slots ≡ places + 1) },
    ghost complex: { IsComplex table.shared.key.start.value } by { Prim.hlevel props },
    ghost within: { UsesUpTo table.shared.key.start.value places } by { Prim.hlevel props },
}

impl Board {
    ghost use Rattle.board_rule.specs.Ends.{AllBack};
    ghost use Rattle.board_rule.specs.Views.{living};
    ghost use Rattle.vertex_claims.specs.Passes.{IsMainOf, IsTold, setup_of, handed, main_knows, start_of};
    ghost use Rattle.vertex_claims.specs.Ended.{IsEnd};

    /// A board on which no place is held: each place from 1 has its star in the complex, with version
    /// 0, and the journal has no entries. `places` is the greatest place.
    pub fn open(
        alloc: Global,
        start: &Complex,
        places: u16,
        workers: u16,
        round: u32,
    ) -> Result<(Board, Main), AllocError>
        requires places { UsesUpTo start.now places }
        requires workers { (0 < workers) × (workers ≤ 16) }
        ensures told { IfOk result (λ r. IsTold r.0 start.now places workers round) }
        ensures main { IfOk result (λ r. IsMainOf r.1 r.0) }

        // No pass was handed out.
        ensures none { IfOk result (λ r. (handed r.1 ≡ 0) × ((main_knows r.1).back ≡ living ∷ [])) }
    {
        let stars = StarMap::of(alloc, start, places)?.into_stars();
        let slots = homes(alloc, stars)?;
        let words = Vec::from_elem(alloc, 0u64, usize::from(places) + 1)?;
        let setup = Setup {
            start: Snapshot::of(start),
            places,
            workers,
            round,
        };
        let (table, seat) = match Table::new(alloc, words.as_slice(), slots, &setup) {
            Ok(made) => made,
            Err(Refused { slots: _ }) => return Err(AllocError),
        };
        let board = Board {
            table,
            dim: start.dim(),
            places,
            workers,
            round,
        };
        Ok((board, Main { seat, handed: 0 }))
    }

    /// The dimension of the complex that it begins with.
    pub fn dim(&self) -> u32
        ensures dim { result ≡ (start_of self.now).dim }
        ensures low { result ≤ 6 }
    {
        self.dim
    }

    /// The journal, and the stars after its entries, once every pass was taken back. After want of
    /// memory the board, main and the journal are given up.
    pub fn close(self, alloc: Global, main: Main) -> Result<(Journal, StarMap), AllocError>
        requires main { IsMainOf main self }
        requires back { AllBack (main_knows main) }
        ensures { IfOk result (λ r. IsEnd (setup_of self) (main_knows main) r.0 r.1) }
    {
        let stars = Vec::with_capacity(alloc, usize::from(self.places))?;
        let Board {
            table,
            dim,
            places,
            workers: _,
            round: _,
        } = self;
        let Main { seat, handed: _ } = main;
        let (journal, stars) = unpack(table.close_with(seat), usize::from(places), stars);
        Ok((
            journal.into_journal(alloc)?,
            StarMap::from_stars(dim, stars),
        ))
    }
}
