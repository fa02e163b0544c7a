//! The steps of a search: a complex is put on places, a descent is made, and then rounds, each with a
//! descent behind it.

ghost use Rattle.std.specs.Prelude.{◌≡◌, ◌≤◌, ◌<◌, ◌+◌, ◌↔◌, [], IfOk, IsTrue, length};
ghost use Rattle.complex_core.specs.Maps.{greatest, used};
ghost use Rattle.round_run.specs.Gates.{Rise};
ghost use Rattle.round_run.specs.Searches.{Advanced, Descended, IsNext, IsOpened, StandsSomewhere};

use crate::record::RoundRecord;
use crate::report::Report;
use crate::round::run_round;
use anneal_plan::Plan;
use complex_core::Complex;
use flip_options::descend;
use held_stars::Gate;
use std::alloc::{AllocError, Global};
use std::marker::Send;
use std::thread::Threads;

impl Report {
    /// The report of a search that begins: the labels of the complex have places, and nothing was made
    /// yet.
    ///
    /// # Errors
    /// `AllocError` where there isn't enough memory.
    pub fn open(alloc: Global, input: &Complex, plan: &Plan) -> Result<Report, AllocError>
        requires dim { 1 ≤ input.now.dim }
        requires labels { greatest (used input.now.facets) + plan.now.room ≤ 65535 }
        ensures { IfOk result (IsOpened input.now plan.now) }
    {
        let (start, names) = input.dense(plan.room() as u16)?;
        Ok(Report {
            input: input.copy()?,
            names,
            descents: Vec::new(alloc),
            rounds: Vec::new(alloc),
            end: start,
        })
    }

    /// Makes descent 0.
    ///
    /// # Errors
    /// `AllocError` where there isn't enough memory.
    pub fn descend(mut self, alloc: Global, plan: &Plan) -> Result<Report, AllocError>
        requires opened { IsOpened self.input plan.now self }
        ensures { IfOk result (Descended plan.now self) }
    {
        let (flips, end) = descend(alloc, &self.end)?;
        self.descents.push(flips)?;
        self.end = end;
        Ok(self)
    }

    /// Whether all rounds of the plan were made. No plan has more than 10,000.
    pub fn is_spent(&self, plan: &Plan) -> bool
        ensures spent { IsTrue result ↔ (length self.now.rounds ≡ plan.now.rounds) }
        ensures limit { plan.now.rounds ≤ 10000 }
    {
        self.rounds.len() == plan.rounds() as usize
    }

    /// Makes the next round, and a descent behind it.
    ///
    /// # Errors
    /// `AllocError` where there isn't enough memory, also for a try of a worker.
    pub fn advance<R: Threads + Sync, G: Gate + Send>(
        mut self,
        rt: &R,
        alloc: Global,
        plan: &Plan,
        gates: &mut [G],
    ) -> Result<Report, AllocError>
        requires stands { StandsSomewhere self.input plan.now self }
        requires left { (length self.rounds < plan.now.rounds) × (plan.now.rounds ≤ 10000) }
        requires gates { plan.now.workers ≤ length gates.old }

        // Where it stood, another round and another descent stand now.
        ensures stands { IfOk result (Advanced plan.now self) }

        // A worker quits in this round at most as often as the count of its gate rose.
        ensures round { IfOk result (IsNext (λ g. G.quits g) gates.old gates.new self) }
        ensures later { Rise (λ g. G.quits g) gates.old gates.new (λ _. 0) }
    {
        let places = self.names.pairs().len() as u16;
        let round = self.rounds.len() as u32;
        let (record, next) = run_round(rt, alloc, &self.end, places, plan, round, gates)?;
        let (flips, end) = descend(alloc, &next)?;
        self.rounds.push(record)?;
        self.descents.push(flips)?;
        self.end = end;
        Ok(self)
    }
}
