//! The turns of a try: in each a flip is proposed, and made on the stars of its labels.

ghost use Rattle.std.specs.Prelude.{◌≡◌, ◌<◌, ◌≤◌, ◌+◌, ◌++◌, ◌∷◌, [], ℕ, List, true, IfSome, IfErr, OnOk, pos, ◌≤ℤ◌, negsuc, length, vec_capacity};
ghost use Rattle.std.specs.List.{AllByRecursion};
ghost use Rattle.complex_core.specs.Labels.{has};
ghost use Rattle.complex_core.specs.Complexes.{ComplexView};
ghost use Rattle.flip_rules.specs.declared.flip.Flip.{Flip as FlipOf};
ghost use Rattle.star_laws.specs.Stars.{flips_touch};
ghost use Rattle.stars.specs.StarViews.{vertices, shown, AreStarsOf};
ghost use Rattle.anneal_plan.specs.Fits.{FitsStar};
ghost use Rattle.anneal_plan.specs.Proposals.{proposal_of};
ghost use Rattle.board_rule.specs.Views.{star_in};
ghost use Rattle.vertex_claims.specs.Passes.{IsOf, IsSame, know, places_on};
ghost use Rattle.held_stars.specs.Holding.{StartedTry, Roomy};
ghost use Rattle.held_stars.specs.Gates.{Follows, Keeps, after_asked, fails, noted_in};
ghost use Rattle.round_rules.specs.Tasks.{Task, change, changes};
ghost use Rattle.spec_worker.specs.Trying.{IsFit, IsTold, IsStartOf, Turned, IsNext, Ended};
ghost use Rattle.spec_worker.specs.Hearing.{is_quit};

use anneal_plan::{Phase, find_candidates, proposal};
use flip_rules::{Flip, FlipFault};
use held_stars::{Gate, Hold, Point, Stopped, claim_labels, make_flip, place_among};
use round_rules::Tried;
use stars::Star;
use std::alloc::Global;
use vertex_claims::{Board, Pass};

// What a try is told.
#[derive(Clone, Copy)]
pub(crate) struct TryPlan<'a> {
    pub(crate) phase: Phase,
    pub(crate) words: &'a [u32; 8],
    // The labels that flips of index 0 may bring in.
    pub(crate) free: &'a [u16],
    // How many flips it has at most.
    pub(crate) count: u32,
    // Where it begins.
    pub(crate) place: u16,
}

// Asks the gate at a point, and answers as a try does.
pub(crate) fn ask<G: Gate>(gate: &mut G, point: Point) -> Result<(), Tried>
    ensures later { G.quits gate.old ≤ G.quits gate.new }
    ensures quit { IfErr result (λ answer. (answer ≡ Tried.Quit) × (G.quits gate.old < G.quits gate.new)) }
    ensures heard { Follows (G.heard gate.old) (G.heard gate.new) (λ h g. g ≡ after_asked point (fails is_quit result) h) }
{
    match held_stars::ask(gate, point) {
        Ok(()) => Ok(()),
        Err(_) => Err(Tried::Quit),
    }
}

// Proposes the flip of a turn at a place whose star is lent. The star keeps the candidates that it knows
// then.
fn propose(lent: &mut Vec<Star>, alloc: Global, try_plan: &TryPlan<'_>, turn: u32) -> Option<Flip>
    requires star { (k : ComplexView) × AreStarsOf k (shown lent.old.items) × (1 ≤ k.dim) }
    requires held { has (vertices (shown lent.old.items)) try_plan.now.place ≡ true }
    requires turn { turn ≤ 3 }
    requires free { AllByRecursion (λ x. 0 < x) try_plan.now.free.now }
    ensures lent { (lent.new.items ≡ lent.old.items) × (vec_capacity lent.new ≡ vec_capacity lent.old) }
    ensures proposal { (k : ComplexView) → AreStarsOf k (shown lent.old.items) → result ≡ proposal_of (star_in k try_plan.now.place) try_plan.now.phase try_plan.now.words.now turn try_plan.now.free.now }
    ensures fits { (k : ComplexView) → AreStarsOf k (shown lent.old.items) → IfSome result (FitsStar (star_in k try_plan.now.place) try_plan.now.free.now) }
{
    let at = place_among(lent, try_plan.place);
    let star = &mut lent[at];
    find_candidates(alloc, star, try_plan.phase, try_plan.words);
    proposal(star, try_plan.phase, try_plan.words, turn, try_plan.free)
}

// Claims the labels of a flip, and makes it.
fn take_turn<G: Gate>(
    board: &Board,
    pass: &mut Pass,
    hold: &mut Hold,
    gate: &mut G,
    dim: u32,
    flip: &Flip,
) -> Result<(), Tried>
    requires board { IsOf pass.old board.now }
    requires places { (q : ℕ) → flips_touch q (flip.now ∷ []) ≡ true → q ≤ places_on board.now }
    requires dim { dim ≤ 6 }
    requires next { (s : StartedTry) × (next : List FlipOf) × IsNext s dim pass.old hold.old flip.now next }
    requires room { Roomy hold.old × (length hold.old.flips.items < 4) }
    ensures same { IsSame pass.old pass.new }
    ensures kept { ((know pass.new).worker ≡ (know pass.old).worker) × ((know pass.new).start ≡ (know pass.old).start) × ((know pass.new).places ≡ (know pass.old).places) }
    ensures room { Roomy hold.new }
    ensures flips { OnOk result (hold.new.flips.items ≡ hold.old.flips.items ++ flip.now ∷ []) }
    ensures few { length hold.new.flips.items ≤ length hold.old.flips.items + 1 }
    ensures turned { (s : StartedTry) (next : List FlipOf) → IsNext s dim pass.old hold.old flip.now next → OnOk result (Turned s pass.new hold.new next) }
    ensures ends { (task : Task) (s : StartedTry) (next : List FlipOf) → task.dim ≡ dim → IsNext s dim pass.old hold.old flip.now next → IfErr result (Ended task s pass.new hold.new) }
    ensures later { G.quits gate.old ≤ G.quits gate.new }
    ensures quit { IfErr result (λ answer. answer ≡ Tried.Quit → G.quits gate.old < G.quits gate.new) }
    ensures heard { Follows (G.heard gate.old) (G.heard gate.new) (Keeps (fails is_quit result) (noted_in (know pass.old).tries) (noted_in (know pass.new).tries) (length hold.old.flips.items) (length hold.new.flips.items)) }
{
    let Some(labels) = flip.a.union(&flip.b) else {
        unreachable!()
    };
    match claim_labels(board, pass, hold, gate, &labels.labels()) {
        Ok(()) => {}
        Err(Stopped::Busy { place, owner }) => return Err(Tried::Busy { place, owner }),
        Err(Stopped::Quit) => return Err(Tried::Quit),
    }
    match make_flip(hold, flip) {
        Ok(()) => ask(gate, Point::Flipped),
        Err(FlipFault::Illegal(_)) => Err(Tried::Blocked(*flip)),
        Err(FlipFault::Memory) => Err(Tried::NoMemory),
    }
}

// Makes the turns of a try, up to the first that has no proposal.
pub(crate) fn make_turns<G: Gate>(
    board: &Board,
    pass: &mut Pass,
    hold: &mut Hold,
    alloc: Global,
    gate: &mut G,
    dim: u32,
    try_plan: &TryPlan<'_>,
) -> Result<(), Tried>
    requires board { IsOf pass.old board.now × ((know pass.old).places ≡ places_on board.now) }
    requires try_plan { IsFit try_plan.now (places_on board.now) }
    requires dim { (1 ≤ dim) × (dim ≤ 6) }
    requires turned { (task : Task) × (s : StartedTry) × IsTold try_plan.now dim task × IsStartOf task s × Turned s pass.old hold.old s.flips }
    requires room { Roomy hold.old × (hold.old.flips.items ≡ []) }
    ensures same { IsSame pass.old pass.new }
    ensures kept { ((know pass.new).worker ≡ (know pass.old).worker) × ((know pass.new).start ≡ (know pass.old).start) × ((know pass.new).places ≡ (know pass.old).places) }
    ensures room { Roomy hold.new }
    ensures turned { (task : Task) (s : StartedTry) → IsTold try_plan.now dim task → IsStartOf task s → Turned s pass.old hold.old s.flips → OnOk result (Turned s pass.new hold.new []) }
    ensures few { length hold.new.flips.items ≤ 4 }
    ensures ends { (task : Task) (s : StartedTry) → IsTold try_plan.now dim task → IsStartOf task s → Turned s pass.old hold.old s.flips → IfErr result (Ended task s pass.new hold.new) }
    ensures later { G.quits gate.old ≤ G.quits gate.new }
    ensures quit { IfErr result (λ answer. answer ≡ Tried.Quit → G.quits gate.old < G.quits gate.new) }
    ensures heard { Follows (G.heard gate.old) (G.heard gate.new) (Keeps (fails is_quit result) (noted_in (know pass.old).tries) (noted_in (know pass.new).tries) (length hold.old.flips.items) (length hold.new.flips.items)) }
{
    for turn in 0..try_plan.count {
        let Some(flip) = propose(&mut hold.lent, alloc, try_plan, turn) else {
            return Ok(());
        };
        if let Err(answer) = take_turn(board, pass, hold, gate, dim, &flip) {
            return Err(answer);
        }
    }
    Ok(())
}

// By how much a flip changes the number of facets.
fn change_of(dim: u32, flip: &Flip) -> i32
    requires dim { dim ≤ 6 }
    ensures change { result ≡ change dim flip.now }
    ensures bounds { (negsuc 15 ≤ℤ result) × (result ≤ℤ pos 6) }
{
    let labels = flip.b.len() as u32;
    dim as i32 - (2 * labels.saturating_sub(1)) as i32
}

// By how much flips one after another change it.
pub(crate) fn changes_of(dim: u32, flips: &[Flip]) -> i32
    requires dim { dim ≤ 6 }
    requires few { length flips.now ≤ 4 }
    ensures { result ≡ changes dim flips.now }
{
    let mut sum = 0;
    for flip in flips {
        sum += change_of(dim, flip);
    }
    sum
}
