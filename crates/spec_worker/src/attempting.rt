//! One try of a worker.

ghost use Rattle.std.specs.Prelude.{◌≡◌, ◌≤◌, ◌<◌, ◌∷◌, [], ◌+◌, IfErr, IfOk, OnOk, length, ◌≤ℤ◌, ◌<ℤ◌};
ghost use mathlib.Core.Option.{some};
ghost use Rattle.complex_core.specs.Complexes.{ComplexView};
ghost use Rattle.stars.specs.StarViews.{VertexStar};
ghost use Rattle.anneal_plan.specs.Proposals.{allowed_of};
ghost use Rattle.board_rule.specs.Plays.{IsRefused};
ghost use Rattle.board_rule.specs.Tries.{Try};
ghost use Rattle.board_rule.specs.Homes.{VersionedStar};
ghost use Rattle.board_rule.specs.Views.{Empty, home, opened_by, lost_by};
ghost use Rattle.vertex_claims.specs.Passes.{IsOf, IsSame, know, slot, places_on, start_of, round_of, marks_left};
ghost use Rattle.held_stars.specs.Holding.{Lends, StartedTry, Roomy};
ghost use Rattle.held_stars.specs.Gates.{Follows, Keeps, fails, noted_in};
ghost use Rattle.round_rules.specs.Tasks.{Task, changes};
ghost use Rattle.round_rules.specs.Own.{OwnTry};
ghost use Rattle.spec_worker.specs.Trying.{IsFit, IsTold, IsStartOf, Turned, Ended, Entered};
ghost use Rattle.spec_worker.specs.Hearing.{Concludes, TryHeard, after_made, flips_in, is_quit};

use crate::turning::{TryPlan, ask, changes_of, make_turns};
use anneal_plan::{Phase, allowed};
use board_rule::Slot;
use flip_rules::Flip;
use held_stars::{Gate, Hold, Point, fetch, give_up, roll_back};
use round_rules::Tried;
use std::alloc::Global;
use vertex_claims::{Board, Claimed, Pass};

// Whether a phase allows flips, and else by how much they change the number of facets.
fn permit(dim: u32, phase: Phase, flips: &[Flip]) -> Result<(), i32>
    requires dim { (1 ≤ dim) × (dim ≤ 6) }
    requires few { length flips.now ≤ 4 }
    ensures allowed { OnOk result (changes dim flips.now ≤ℤ allowed_of dim phase) }
    ensures above { IfErr result (λ sum. (sum ≡ changes dim flips.now) × (allowed_of dim phase <ℤ sum)) }
{
    let sum = changes_of(dim, flips);
    if i64::from(sum) > allowed(dim, phase) {
        return Err(sum);
    }
    Ok(())
}

// Commits the flips that were made, where the phase allows them.
fn conclude<G: Gate>(
    board: &Board,
    pass: &mut Pass,
    hold: &Hold,
    gate: &mut G,
    dim: u32,
    try_plan: &TryPlan<'_>,
) -> Result<u32, Tried>
    requires board { IsOf pass.old board.now }
    requires try_plan { IsFit try_plan.now (places_on board.now) }
    requires dim { (1 ≤ dim) × (dim ≤ 6) }
    requires turned { (task : Task) × (s : StartedTry) × IsTold try_plan.now dim task × IsStartOf task s × Turned s pass.old hold.now [] }
    requires few { length hold.now.flips.items ≤ 4 }
    ensures same { IsSame pass.old pass.new }
    ensures kept { ((know pass.new).worker ≡ (know pass.old).worker) × ((know pass.new).start ≡ (know pass.old).start) × ((know pass.new).places ≡ (know pass.old).places) }
    ensures commits { (task : Task) (s : StartedTry) → IsTold try_plan.now dim task → IsStartOf task s → Turned s pass.old hold.now [] → IfOk result (Entered task (round_of board.now) s pass.new hold.now) }
    ensures ends { (task : Task) (s : StartedTry) → IsTold try_plan.now dim task → IsStartOf task s → Turned s pass.old hold.now [] → IfErr result (Ended task s pass.new hold.now) }
    ensures later { G.quits gate.old ≤ G.quits gate.new }
    ensures quit { IfErr result (λ answer. answer ≡ Tried.Quit → G.quits gate.old < G.quits gate.new) }
    ensures heard { Follows (G.heard gate.old) (G.heard gate.new) (Concludes result (noted_in (know pass.old).tries) (noted_in (know pass.new).tries) (length hold.now.flips.items) (length hold.now.flips.items)) }
{
    if hold.flips.is_empty() {
        return Err(Tried::Nothing);
    }
    if let Err(sum) = permit(dim, try_plan.phase, &hold.flips) {
        return Err(Tried::Declined(sum));
    }
    if let Err(owner) = fetch(board, pass) {
        return Err(Tried::Busy { place: 0, owner });
    }
    if let Err(answer) = ask(gate, Point::Journal) {
        pass.leave_journal(board);
        return Err(answer);
    }
    if pass.journal_room(board).is_err() {
        pass.leave_journal(board);
        return Err(Tried::NoMemory);
    }
    Ok(pass.commit(board, &hold.flips))
}

// Makes the turns of a try whose place was won, and commits their flips.
fn explore<G: Gate>(
    board: &Board,
    pass: &mut Pass,
    hold: &mut Hold,
    alloc: Global,
    gate: &mut G,
    dim: u32,
    try_plan: &TryPlan<'_>,
) -> Result<u32, Tried>
    requires board { IsOf pass.old board.now × ((know pass.old).places ≡ places_on board.now) }
    requires try_plan { IsFit try_plan.now (places_on board.now) }
    requires dim { (1 ≤ dim) × (dim ≤ 6) }
    requires turned { (task : Task) × (s : StartedTry) × IsTold try_plan.now dim task × IsStartOf task s × Turned s pass.old hold.old s.flips }
    requires room { Roomy hold.old × (hold.old.flips.items ≡ []) }
    ensures same { IsSame pass.old pass.new }
    ensures kept { ((know pass.new).worker ≡ (know pass.old).worker) × ((know pass.new).start ≡ (know pass.old).start) × ((know pass.new).places ≡ (know pass.old).places) }
    ensures room { Roomy hold.new }
    ensures commits { (task : Task) (s : StartedTry) → IsTold try_plan.now dim task → IsStartOf task s → Turned s pass.old hold.old s.flips → IfOk result (Entered task (round_of board.now) s pass.new hold.new) }
    ensures ends { (task : Task) (s : StartedTry) → IsTold try_plan.now dim task → IsStartOf task s → Turned s pass.old hold.old s.flips → IfErr result (Ended task s pass.new hold.new) }
    ensures later { G.quits gate.old ≤ G.quits gate.new }
    ensures quit { IfErr result (λ answer. answer ≡ Tried.Quit → G.quits gate.old < G.quits gate.new) }

    // The first place was noted before the gate is asked about it.
    ensures heard { Follows (G.heard gate.old) (G.heard gate.new) (Concludes result (noted_in (know pass.old).tries) (noted_in (know pass.new).tries + 1) (length hold.old.flips.items) (length hold.new.flips.items)) }
{
    ask(gate, Point::Claimed)?;
    make_turns(board, pass, hold, alloc, gate, dim, try_plan)?;
    conclude(board, pass, hold, gate, dim, try_plan)
}

// Claims the place where a try begins, and lends its star.
fn begin_at(board: &Board, pass: &mut Pass, hold: &mut Hold, place: u16) -> Result<(), Claimed>
    requires board { IsOf pass.old board.now }
    requires place { (0 < place) × (place ≤ places_on board.now) }
    requires empty { Empty (know pass.old) }
    requires room { Roomy hold.old × (0 < marks_left pass.old) }
    ensures same { IsSame pass.old pass.new }
    ensures room { Roomy hold.new }
    ensures won { OnOk result ((x : VersionedStar) × (k : ComplexView) × (s : VertexStar) × (know pass.new ≡ opened_by (know pass.old) place x k) × (slot pass.new place ≡ some (Slot.Home (home s x.version))) × Lends [] hold.new.lent.items x.star) }
    ensures flips { OnOk result (hold.new.flips.items ≡ []) }
    ensures lost { IfErr result (λ c. (c.place ≡ place) × IsRefused (know pass.old).worker c.owner × (know pass.new ≡ lost_by (know pass.old) place c.owner)) }
{
    pass.first_claim(board, place)?;
    hold.begin(board, pass, place);
    Ok(())
}

// Takes the flips back where nothing was committed, gives all places back, and answers the try.
fn finish<G: Gate>(
    board: &Board,
    pass: &mut Pass,
    hold: &mut Hold,
    gate: &mut G,
    made: Result<u32, Tried>,
) -> Tried
    requires board { IsOf pass.old board.now }
    requires made { (task : Task) × (s : StartedTry) × IfOk made (Entered task (round_of board.now) s pass.old hold.old) × IfErr made (Ended task s pass.old hold.old) }
    requires room { Roomy hold.old }
    ensures same { IsSame pass.old pass.new }
    ensures room { Roomy hold.new }
    ensures empty { Empty (know pass.new) }
    ensures kept { ((know pass.new).worker ≡ (know pass.old).worker) × ((know pass.new).start ≡ (know pass.old).start) × ((know pass.new).places ≡ (know pass.old).places) }
    ensures entries { ((know pass.new).tries ≡ (know pass.old).tries) × ((know pass.new).mine ≡ (know pass.old).mine) }
    ensures answer { IfOk made (λ seq. result ≡ Tried.Committed seq) × IfErr made (λ answer. result ≡ answer) }
    ensures quits { G.quits gate.new ≡ G.quits gate.old }
    ensures heard { Follows (G.heard gate.old) (G.heard gate.new) (λ h g. g ≡ after_made made h) }
{
    match made {
        Ok(seq) => {
            give_up(board, pass, &mut hold.lent, &hold.flips);
            gate.committed();
            Tried::Committed(seq)
        }
        Err(answer) => {
            roll_back(hold);
            give_up(board, pass, &mut hold.lent, &[]);
            answer
        }
    }
}

// One try, which the gate let begin. Afterwards the pass holds nothing.
pub(crate) fn try_at<G: Gate>(
    board: &Board,
    pass: &mut Pass,
    hold: &mut Hold,
    alloc: Global,
    gate: &mut G,
    try_plan: &TryPlan<'_>,
) -> Tried
    requires board { IsOf pass.old board.now × ((know pass.old).places ≡ places_on board.now) × (1 ≤ (know pass.old).start.dim) }
    requires start { (know pass.old).start ≡ start_of board.now }
    requires try_plan { IsFit try_plan.now (places_on board.now) }
    requires empty { Empty (know pass.old) }
    requires room { Roomy hold.old × (0 < marks_left pass.old) }
    ensures same { IsSame pass.old pass.new × ((know pass.new).places ≡ (know pass.old).places) × ((know pass.new).start ≡ (know pass.old).start) × ((know pass.new).worker ≡ (know pass.old).worker) }
    ensures room { Roomy hold.new }
    ensures empty { Empty (know pass.new) }
    ensures own { (task : Task) → IsTold try_plan.now (know pass.old).start.dim task →
        (t : Try) × ((know pass.new).tries ≡ t ∷ (know pass.old).tries) × OwnTry task (round_of board.now) (know pass.old).worker t (know pass.old).mine (know pass.new).mine result }
    ensures later { G.quits gate.old ≤ G.quits gate.new }
    ensures quit { result ≡ Tried.Quit → G.quits gate.old < G.quits gate.new }
    ensures heard { Follows (G.heard gate.old) (G.heard gate.new) (TryHeard 0 result (noted_in (know pass.old).tries) (noted_in (know pass.new).tries) (flips_in (know pass.old).mine) (flips_in (know pass.new).mine)) }
{
    match begin_at(board, pass, hold, try_plan.place) {
        Ok(()) => {
            let dim = board.dim();
            let made = explore(board, pass, hold, alloc, gate, dim, try_plan);
            finish(board, pass, hold, gate, made)
        }
        Err(Claimed { place, owner }) => Tried::Busy { place, owner },
    }
}
