//! The numbers of a search.

ghost use Rattle.std.specs.Prelude.{◌≡◌, ◌≤◌, ◌↔◌, None, Some, IsOk, IfOk, IfErr, IsTrue};
ghost use Rattle.anneal_plan.specs.Numbers.{KeepsLimits, numbers};
ghost use Rattle.anneal_plan.specs.Limits.{first_passed, is_from, phase_at};

use std::marker::Model;

/// The numbers of a search, which keep their limits. Contracts see the record of the numbers.
///
/// A search makes rounds. In a round each worker makes its tries, each of which proposes a few
/// bistellar flips to the complex.
#[derive(Clone, Copy, Debug, PartialEq, Eq)]
pub struct Plan {
    seed: u32,
    workers: u32,
    rounds: u32,
    tries: u32,
    heat: u32,
    relax: u32,
    depth: u32,
    room: u32,
}

impl Model for Plan {
    ghost use Rattle.anneal_plan.specs.Numbers.{KeepsLimits, Numbers, numbers};

    ghost Value = { Numbers };

    ghost view = { λ p. numbers p.seed p.workers p.rounds p.tries p.heat p.relax p.depth p.room };

    ghost invariant = { λ p. KeepsLimits (numbers p.seed p.workers p.rounds p.tries p.heat p.relax p.depth p.room) };

    ghost inverse = { λ n. record {
      seed = n.seed;
      workers = n.workers;
      rounds = n.rounds;
      tries = n.tries;
      heat = n.heat;
      relax = n.relax;
      depth = n.depth;
      room = n.room;
    } };
}

/// The first limit that the numbers of a plan pass, in the order of the variants.
#[derive(Clone, Copy, Debug, PartialEq, Eq)]
pub enum PlanFault {
    /// The workers aren't from 1 to 16.
    Workers,
    /// The rounds are above 10,000.
    Rounds,
    /// The tries of a worker in a round aren't from 1 to 1,000.
    Tries,
    /// The tries of the heat phase are above 1,000.
    Heat,
    /// The tries of the relax phase are above 1,000.
    Relax,
    /// The most flips of a try aren't from 1 to 4.
    Depth,
    /// The spare labels aren't from 1 to 1,024.
    Room,
    /// The tries of all workers in all rounds are above 250,000.
    Product,
}

/// The phase of a try in its round.
#[derive(Clone, Copy, Debug, PartialEq, Eq)]
pub enum Phase {
    /// The first tries, which may add facets.
    Heat,
    /// The tries after these, which leave the number of facets about as it is.
    Relax,
    /// All other tries, which take facets away.
    Reduce,
}

// Whether a number lies between two bounds, or is one of them.
fn is_from(low: u32, high: u32, number: u32) -> bool
    ensures test { result ≡ is_from low high number }
    ensures bounds { IsTrue result ↔ ((low ≤ number) × (number ≤ high)) }
{
    (low..=high).contains(&number)
}

impl Plan {
    /// The plan of these numbers, or the first limit that they pass.
    pub fn new(
        seed: u32,
        workers: u32,
        rounds: u32,
        tries: u32,
        heat: u32,
        relax: u32,
        depth: u32,
        room: u32,
    ) -> Result<Plan, PlanFault>
        ensures ok { IfOk result (λ plan. plan ≡ numbers seed workers rounds tries heat relax depth room) }
        ensures limits { IsOk result ↔ KeepsLimits (numbers seed workers rounds tries heat relax depth room) }
        ensures err { IfErr result (λ fault.
            first_passed (numbers seed workers rounds tries heat relax depth room) ≡ Some fault) }
        ensures none { IsOk result
            ↔ (first_passed (numbers seed workers rounds tries heat relax depth room) ≡ None) }
    {
        if !is_from(1, 16, workers) {
            return Err(PlanFault::Workers);
        }
        if rounds > 10_000 {
            return Err(PlanFault::Rounds);
        }
        if !is_from(1, 1000, tries) {
            return Err(PlanFault::Tries);
        }
        if heat > 1000 {
            return Err(PlanFault::Heat);
        }
        if relax > 1000 {
            return Err(PlanFault::Relax);
        }
        if !is_from(1, 4, depth) {
            return Err(PlanFault::Depth);
        }
        if !is_from(1, 1024, room) {
            return Err(PlanFault::Room);
        }
        if rounds * workers * tries > 250_000 {
            return Err(PlanFault::Product);
        }
        Ok(Plan {
            seed,
            workers,
            rounds,
            tries,
            heat,
            relax,
            depth,
            room,
        })
    }

    /// The seed of the random words.
    pub fn seed(&self) -> u32
        ensures { result ≡ self.now.seed }
    {
        self.seed
    }

    /// How many workers there are.
    pub fn workers(&self) -> u32
        ensures value { result ≡ self.now.workers }
        ensures limit { (1 ≤ result) × (result ≤ 16) }
    {
        self.workers
    }

    /// How many rounds there are.
    pub fn rounds(&self) -> u32
        ensures value { result ≡ self.now.rounds }
        ensures limit { result ≤ 10000 }
    {
        self.rounds
    }

    /// How many tries each worker makes in a round.
    pub fn tries(&self) -> u32
        ensures value { result ≡ self.now.tries }
        ensures limit { (1 ≤ result) × (result ≤ 1000) }
    {
        self.tries
    }

    /// How many tries are in the heat phase.
    pub fn heat(&self) -> u32
        ensures value { result ≡ self.now.heat }
        ensures limit { result ≤ 1000 }
    {
        self.heat
    }

    /// How many tries are in the relax phase.
    pub fn relax(&self) -> u32
        ensures value { result ≡ self.now.relax }
        ensures limit { result ≤ 1000 }
    {
        self.relax
    }

    /// How many flips a try makes at most.
    pub fn depth(&self) -> u32
        ensures value { result ≡ self.now.depth }
        ensures limit { (1 ≤ result) × (result ≤ 4) }
    {
        self.depth
    }

    /// How many spare labels a search has.
    pub fn room(&self) -> u32
        ensures value { result ≡ self.now.room }
        ensures limit { (1 ≤ result) × (result ≤ 1024) }
    {
        self.room
    }

    /// A law: the numbers of each plan keep their limits.
    pub fn keeps_limits(&self)
        ensures { KeepsLimits self.now }
    {
        let _limits = self.tries;
    }

    /// The phase of the try with this number in its round, counted from 0.
    pub fn phase(&self, t: u32) -> Phase
        ensures { result ≡ phase_at self.now t }
    {
        if t < self.heat {
            Phase::Heat
        } else if t < self.heat + self.relax {
            Phase::Relax
        } else {
            Phase::Reduce
        }
    }
}
