//! Claims of the labels of a flip.

ghost use Rattle.std.specs.Prelude.{◌≡◌, ◌⊎◌, ◌+◌, ◌<◌, ◌≤◌, ℕ, true, false, IfErr, OnOk, OnErr, vec_capacity, length};
ghost use Rattle.complex_core.specs.Labels.{IsFace, has};
ghost use Rattle.complex_core.specs.Complexes.{ComplexView};
ghost use Rattle.star_laws.specs.Stars.{flips_touch};
ghost use Rattle.board_rule.specs.Items.{has_item};
ghost use Rattle.board_rule.specs.Views.{star_in};
ghost use Rattle.vertex_claims.specs.Passes.{IsOf, IsSame, know, places_on};
ghost use Rattle.held_stars.specs.Holding.{StartedTry, Going, Made, Ends, Roomy, RefusedOf, EndedAt};
ghost use Rattle.held_stars.specs.Gates.{Follows, Keeps, after_asked, fails, is_stop, noted_in};

use crate::gate::Gate;
use crate::hold::Hold;
use crate::lending::lend;
use crate::point::{Point, Step};
use crate::stopped::Stopped;
use vertex_claims::{Board, Claimed, Pass};

/// Asks the gate at a point.
///
/// # Errors
/// `Quit` where it ends the try.
pub fn ask<G: Gate>(gate: &mut G, point: Point) -> Result<(), Stopped>
    ensures later { G.quits gate.old ≤ G.quits gate.new }
    ensures quit { IfErr result (λ answer. (answer ≡ Stopped.Quit) × (G.quits gate.old < G.quits gate.new)) }
    ensures heard { Follows (G.heard gate.old) (G.heard gate.new) (λ h g. g ≡ after_asked point (fails is_stop result) h) }
{
    match gate.at(point) {
        Step::Go => Ok(()),
        Step::Quit => Err(Stopped::Quit),
    }
}

// Claims one label, unless it is held already, and lends its star.
fn claim_label<G: Gate>(
    board: &Board,
    pass: &mut Pass,
    hold: &mut Hold,
    gate: &mut G,
    label: u16,
) -> Result<(), Stopped>
    requires board { IsOf pass.old board.now }
    requires label { (0 < label) × (label ≤ places_on board.now) }
    requires going { (s : StartedTry) × (now : ComplexView) × Going s (know pass.old) × Made pass.old hold.old now }
    requires room { Roomy hold.old × (length hold.old.lent.items < 33) }
    ensures same { IsSame pass.old pass.new }
    ensures kept { ((know pass.new).worker ≡ (know pass.old).worker) × ((know pass.new).start ≡ (know pass.old).start) × ((know pass.new).places ≡ (know pass.old).places) }
    ensures hold { (hold.new.flips.items ≡ hold.old.flips.items) × Roomy hold.new × (length hold.new.lent.items ≤ length hold.old.lent.items + 1) }
    ensures held { (q : ℕ) → has_item (know pass.old).items q ≡ true → has_item (know pass.new).items q ≡ true }
    ensures label { OnOk result (has_item (know pass.new).items label ≡ true) }
    ensures only { (q : ℕ) → has_item (know pass.new).items q ≡ true → (has_item (know pass.old).items q ≡ true) ⊎ (label ≡ q) }
    ensures refused { IfErr result (RefusedOf label (know pass.old).items (know pass.new).items) }
    ensures going { (s : StartedTry) (now : ComplexView) → Going s (know pass.old) → flips_touch label s.flips ≡ true → Made pass.old hold.old now →
        OnOk result ((m : ComplexView) × Going s (know pass.new) × Made pass.new hold.new m × (star_in m s.place ≡ star_in now s.place)) }
    ensures ends { (s : StartedTry) (now : ComplexView) → Going s (know pass.old) → flips_touch label s.flips ≡ true → Made pass.old hold.old now → IfErr result (Ends s pass.new hold.new) }
    ensures later { G.quits gate.old ≤ G.quits gate.new }
    ensures quit { IfErr result (λ answer. answer ≡ Stopped.Quit → G.quits gate.old < G.quits gate.new) }
    ensures heard { Follows (G.heard gate.old) (G.heard gate.new) (Keeps (fails is_stop result) (noted_in (know pass.old).tries) (noted_in (know pass.new).tries) (length hold.old.flips.items) (length hold.new.flips.items)) }
{
    if pass.holds(label) {
        return Ok(());
    }
    match pass.claim(board, label) {
        Err(Claimed { place, owner }) => Err(Stopped::Busy { place, owner }),
        Ok(()) => {
            lend(board, pass, &mut hold.lent, label);
            ask(gate, Point::Claimed)
        }
    }
}

/// Claims those of some labels that aren't held yet, in order, lends their stars, and asks the gate
/// after each.
///
/// # Errors
/// `Busy` at the first label that another worker held, and `Quit` where the gate ends the try. The
/// labels before it are held.
pub fn claim_labels<G: Gate>(
    board: &Board,
    pass: &mut Pass,
    hold: &mut Hold,
    gate: &mut G,
    labels: &[u16],
) -> Result<(), Stopped>
    requires board { IsOf pass.old board.now }
    requires labels { IsFace labels.now }
    requires places { (q : ℕ) → has labels.now q ≡ true → q ≤ places_on board.now }
    requires going { (s : StartedTry) × (now : ComplexView) × Going s (know pass.old) × Made pass.old hold.old now × ((q : ℕ) → has labels.now q ≡ true → flips_touch q s.flips ≡ true) }
    requires room { Roomy hold.old × (length hold.old.lent.items + length labels.now ≤ 33) }
    ensures same { IsSame pass.old pass.new }
    ensures kept { ((know pass.new).worker ≡ (know pass.old).worker) × ((know pass.new).start ≡ (know pass.old).start) × ((know pass.new).places ≡ (know pass.old).places) }
    ensures hold { (hold.new.flips.items ≡ hold.old.flips.items) × Roomy hold.new × (length hold.new.lent.items ≤ length hold.old.lent.items + length labels.now) }
    ensures held { OnOk result ((q : ℕ) → has labels.now q ≡ true → has_item (know pass.new).items q ≡ true) }
    ensures only { (q : ℕ) → has_item (know pass.new).items q ≡ true → (has_item (know pass.old).items q ≡ true) ⊎ (has labels.now q ≡ true) }
    ensures order { IfErr result (EndedAt labels.now (know pass.old).items (know pass.new).items) }
    ensures going { (s : StartedTry) (now : ComplexView) → Going s (know pass.old) → ((q : ℕ) → has labels.now q ≡ true → flips_touch q s.flips ≡ true) → Made pass.old hold.old now →
        OnOk result ((m : ComplexView) × Going s (know pass.new) × Made pass.new hold.new m × (star_in m s.place ≡ star_in now s.place)) }
    ensures ends { (s : StartedTry) (now : ComplexView) → Going s (know pass.old) → ((q : ℕ) → has labels.now q ≡ true → flips_touch q s.flips ≡ true) → Made pass.old hold.old now → IfErr result (Ends s pass.new hold.new) }
    ensures later { G.quits gate.old ≤ G.quits gate.new }
    ensures quit { IfErr result (λ answer. answer ≡ Stopped.Quit → G.quits gate.old < G.quits gate.new) }
    ensures heard { Follows (G.heard gate.old) (G.heard gate.new) (Keeps (fails is_stop result) (noted_in (know pass.old).tries) (noted_in (know pass.new).tries) (length hold.old.flips.items) (length hold.new.flips.items)) }
{
    for label in labels {
        if let Err(answer) = claim_label(board, pass, hold, gate, *label) {
            return Err(answer);
        }
    }
    Ok(())
}
