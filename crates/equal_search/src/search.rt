//! Searches for flips from one complex to another.

ghost use Rattle.std.specs.Prelude.{◌≡◌, ◌≤◌, [], IfOk, length};
ghost use Rattle.facet_iso.specs.Isomorphisms.{IsLeastMap};
ghost use Rattle.round_run.specs.Gates.{Rise};
ghost use Rattle.equal_text.specs.Lists.{told_end};
ghost use Rattle.equal_search.specs.Comparing.{AreJoined, CanSearch, IsFound, quits_in};
ghost use Rattle.equal_search.specs.Pairs.{AreSeeking, CanCompare, IsJoined};

use crate::pair::{Pair, told_end};
use anneal_plan::Plan;
use complex_core::{Complex, VertexMap};
use flip_journal::{carry, inverse_list};
use flip_rules::Flip;
use held_stars::Gate;
use round_run::Report;
use std::alloc::{AllocError, Global};
use std::marker::Send;
use std::thread::Threads;

/// What a search for flips from one complex to another found, with a report of each.
#[derive(Drop)]
pub enum EqualFound {
    /// The flips lead from the first complex to one that the map takes to the second.
    Equal {
        /// The report of the first complex.
        first: Report,
        /// The report of the second complex.
        second: Report,
        /// The flips from the first complex, in its labels.
        flips: Vec<Flip>,
        /// The map from the complex behind these flips to the second.
        map: VertexMap,
    },
    /// All rounds were made on both, and no comparison found a map.
    Undecided {
        /// The report of the first complex.
        first: Report,
        /// The report of the second complex.
        second: Report,
    },
}

impl Pair {
    // The flips of the first, and behind them those of the second turned round and carried over a map
    // from the one end to the other.
    fn join(&self, alloc: Global, between: &VertexMap) -> Result<(Vec<Flip>, VertexMap), AllocError>
        requires first { CanCompare self.now.first }
        requires second { CanCompare self.now.second }
        requires least { IsLeastMap (told_end self.now.first) (told_end self.now.second) between.now }
        ensures { IfOk result (λ r. AreJoined self.now.first self.now.second between.now r.0.items r.1) }
    {
        let back = inverse_list(alloc, &self.second.named_flips(alloc)?)?;
        let (carried, map) = carry(alloc, &told_end(&self.first)?, between, &back)?;
        let mut flips = self.first.named_flips(alloc)?;
        flips.extend_from_slice(&carried)?;
        Ok((flips, map))
    }

    // What was found where a map takes the end of the first to that of the second.
    fn equal(self, alloc: Global, between: &VertexMap) -> Result<EqualFound, AllocError>
        requires first { CanCompare self.first }
        requires second { CanCompare self.second }
        requires least { IsLeastMap (told_end self.first) (told_end self.second) between.now }
        ensures { IfOk result (IsJoined self.first self.second between.now) }
    {
        let (flips, map) = self.join(alloc, between)?;
        let Pair { first, second } = self;
        Ok(EqualFound::Equal {
            first,
            second,
            flips,
            map,
        })
    }

    // Compares both, and goes on until a map is found or all rounds were made.
    fn seek<R: Threads + Sync, G: Gate + Send>(
        self,
        rt: &R,
        alloc: Global,
        plan: &Plan,
        gates: &mut [G],
    ) -> Result<EqualFound, AllocError>
        requires seeking { AreSeeking self.first.input self.second.input plan.now self.first self.second }
        requires none { (self.first.rounds ≡ []) × (self.second.rounds ≡ []) }
        requires gates { plan.now.workers ≤ length gates.old }
        ensures found { IfOk result (IsFound self.first.input self.second.input plan.now) }
        ensures quits { IfOk result (λ f. Rise (λ g. G.quits g) gates.old gates.new (quits_in f)) }
        ensures later { Rise (λ g. G.quits g) gates.old gates.new (λ _. 0) }
    {
        let mut both = self;
        let mut found = both.compare(alloc)?;
        'legs: while found.is_none() {
            if both.first.is_spent(plan) {
                let Pair { first, second } = both;
                return Ok(EqualFound::Undecided { first, second });
            }
            both = both.advance(rt, alloc, plan, gates)?;
            found = both.compare(alloc)?;
        }
        match found {
            Some(between) => both.equal(alloc, &between),
            None => unreachable!(),
        }
    }
}

/// Searches for legal flips that lead the first complex to one that a map takes to the second.
///
/// First the complexes themselves are compared. Then a descent is made on both, and, until a comparison
/// of where they lead finds a map, as many rounds as the plan has, each with a descent behind it, on the
/// first and on the second.
///
/// # Errors
/// `AllocError` where there isn't enough memory.
pub fn search_equal<R: Threads + Sync, G: Gate + Send>(
    rt: &R,
    alloc: Global,
    first: &Complex,
    second: &Complex,
    plan: &Plan,
    gates: &mut [G],
) -> Result<EqualFound, AllocError>
    requires first { CanSearch plan.now first.now }
    requires second { CanSearch plan.now second.now }
    requires gates { plan.now.workers ≤ length gates.old }
    ensures found { IfOk result (IsFound first.now second.now plan.now) }

    // In all rounds of both a worker quits at most as often as the count of its gate rose.
    ensures quits { IfOk result (λ f. Rise (λ g. G.quits g) gates.old gates.new (quits_in f)) }
    ensures later { Rise (λ g. G.quits g) gates.old gates.new (λ _. 0) }
{
    // What the comparisons rest on: `facets` says that both are complexes.
    let _ = first.facets();
    let _ = second.facets();
    let both = Pair::open(alloc, first, second, plan)?;
    match both.compare(alloc)? {
        Some(between) => both.equal(alloc, &between),
        None => both.descend(alloc, plan)?.seek(rt, alloc, plan, gates),
    }
}
