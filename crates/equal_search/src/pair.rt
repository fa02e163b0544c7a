//! Two searches that go on side by side.

ghost use Rattle.std.specs.Prelude.{◌≡◌, ◌≤◌, ◌<◌, IfNone, IfOk, IfSome, length};
ghost use Rattle.facet_iso.specs.Isomorphisms.{IsLeastMap, NoMap};
ghost use Rattle.round_run.specs.Gates.{Rise};
ghost use Rattle.round_run.specs.Searches.{Advanced, Descended, IsOpened, StandsSomewhere};
ghost use Rattle.equal_text.specs.Lists.{told_end};
ghost use Rattle.equal_search.specs.Comparing.{CanSearch};
ghost use Rattle.equal_search.specs.Pairs.{AreNext, CanCompare};

use anneal_plan::Plan;
use complex_core::{Complex, VertexMap};
use facet_iso::{IsoFault, isomorphism};
use held_stars::Gate;
use round_run::Report;
use std::alloc::{AllocError, Global};
use std::marker::Send;
use std::thread::Threads;

// Where a report stands, in the labels of its complex.
pub(crate) fn told_end(report: &Report) -> Result<Complex, AllocError>
    requires can { CanCompare report.now }
    ensures { IfOk result (λ k. k ≡ told_end report.now) }
{
    match report.end().relabel(report.names())? {
        Some(end) => Ok(end),
        None => unreachable!(),
    }
}

// Two searches of which as many rounds were made.
#[derive(Drop)]
pub(crate) struct Pair {
    pub(crate) first: Report,
    pub(crate) second: Report,
}

impl Pair {
    // Both begin.
    pub(crate) fn open(
        alloc: Global,
        first: &Complex,
        second: &Complex,
        plan: &Plan,
    ) -> Result<Pair, AllocError>
        requires first { CanSearch plan.now first.now }
        requires second { CanSearch plan.now second.now }
        ensures first { IfOk result (λ p. IsOpened first.now plan.now p.first) }
        ensures second { IfOk result (λ p. IsOpened second.now plan.now p.second) }
    {
        Ok(Pair {
            first: Report::open(alloc, first, plan)?,
            second: Report::open(alloc, second, plan)?,
        })
    }

    // The least map that takes the complex where the first stands to that of the second. A map takes as
    // many facets to as many, so that where the numbers differ no more is looked at.
    pub(crate) fn compare(&self, alloc: Global) -> Result<Option<VertexMap>, AllocError>
        requires first { CanCompare self.now.first }
        requires second { CanCompare self.now.second }
        ensures least { IfOk result (λ m. IfSome m (IsLeastMap (told_end self.now.first) (told_end self.now.second))) }
        ensures none { IfOk result (λ m. IfNone m (NoMap (told_end self.now.first) (told_end self.now.second))) }
    {
        if self.first.end().facets().len() != self.second.end().facets().len() {
            return Ok(None);
        }
        let near = told_end(&self.first)?;
        let far = told_end(&self.second)?;
        match isomorphism(alloc, &near, &far) {
            Ok(map) => Ok(map),
            Err(IsoFault::Unfit(_)) => unreachable!(),
            Err(IsoFault::Memory) => Err(AllocError),
        }
    }

    // Descent 0 of both.
    pub(crate) fn descend(self, alloc: Global, plan: &Plan) -> Result<Pair, AllocError>
        requires first { IsOpened self.first.input plan.now self.first }
        requires second { IsOpened self.second.input plan.now self.second }
        ensures first { IfOk result (λ p. Descended plan.now self.first p.first) }
        ensures second { IfOk result (λ p. Descended plan.now self.second p.second) }
    {
        let Pair { first, second } = self;
        Ok(Pair {
            first: first.descend(alloc, plan)?,
            second: second.descend(alloc, plan)?,
        })
    }

    // The next round of both, each with a descent behind it.
    pub(crate) fn advance<R: Threads + Sync, G: Gate + Send>(
        self,
        rt: &R,
        alloc: Global,
        plan: &Plan,
        gates: &mut [G],
    ) -> Result<Pair, AllocError>
        requires first { StandsSomewhere self.first.input plan.now self.first }
        requires second { StandsSomewhere self.second.input plan.now self.second }
        requires left { (length self.first.rounds < plan.now.rounds) × (length self.second.rounds < plan.now.rounds) × (plan.now.rounds ≤ 10000) }
        requires gates { plan.now.workers ≤ length gates.old }
        ensures first { IfOk result (λ p. Advanced plan.now self.first p.first) }
        ensures second { IfOk result (λ p. Advanced plan.now self.second p.second) }
        ensures rounds { IfOk result (λ p. AreNext (λ g. G.quits g) gates.old gates.new self.first self.second p.first p.second) }
        ensures later { Rise (λ g. G.quits g) gates.old gates.new (λ _. 0) }
    {
        let Pair { first, second } = self;
        let first = first.advance(rt, alloc, plan, gates)?;
        let second = second.advance(rt, alloc, plan, gates)?;
        Ok(Pair { first, second })
    }
}
