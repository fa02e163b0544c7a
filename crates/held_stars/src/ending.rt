//! The end of a try: its flips are committed, or taken back, and its places are given back.

ghost use Rattle.std.specs.Prelude.{◌≡◌, ◌≢◌, ◌<◌, ◌∷◌, [], ℕ, List, true, false, OnOk, IfErr, vec_capacity, length};
ghost use mathlib.Core.Option.{some};
ghost use Rattle.star_laws.specs.Stars.{flips_touch};
ghost use Rattle.stars.specs.StarViews.{shown};
ghost use Rattle.board_rule.specs.Books.{Book};
ghost use Rattle.board_rule.specs.Homes.{VersionedStar};
ghost use Rattle.board_rule.specs.Items.{item};
ghost use Rattle.board_rule.specs.Plays.{IsRefused};
ghost use Rattle.board_rule.specs.Views.{Empty, with_journal};
ghost use Rattle.vertex_claims.specs.Passes.{IsOf, IsSame, know, slot, SameSlots};
ghost use Rattle.vertex_claims.specs.declared.pass.Pass.{Pass as PassOf};
ghost use Rattle.held_stars.specs.Holding.{HasVersions, Settles, Restorable, Roomy, waits};

use crate::hold::Hold;
use board_rule::{Slot, VersionedStar};
use flip_rules::Flip;
use stars::{Star, undo_here};
use vertex_claims::{Board, Pass};

/// Tries for the journal, at most 64 times. It takes no memory and doesn't wait.
///
/// # Errors
/// The number of the worker who held it at the last of 64 tries.
pub fn fetch(board: &Board, pass: &mut Pass) -> Result<(), u16>
    requires board { IsOf pass.old board.now }
    requires free { (know pass.old).has_journal ≡ false }
    requires claiming { (know pass.old).claiming ≡ true }
    ensures same { IsSame pass.old pass.new }
    ensures won { OnOk result ((owners : List ℕ) × (b : Book) × (length owners < 64) × (know pass.new ≡ with_journal (waits (know pass.old) owners) b.entries) × ((q : ℕ) → q ≢ 0 → slot pass.new q ≡ slot pass.old q)) }
    ensures lost { IfErr result (λ o. (owners : List ℕ) × (length owners ≡ 63) × IsRefused (know pass.old).worker o × (know pass.new ≡ waits (know pass.old) (o ∷ owners)) × SameSlots pass.old pass.new) }
{
    for _ in 0..63u32 {
        match pass.claim(board, 0) {
            Ok(()) => return Ok(()),
            Err(_claimed) => {}
        }
    }
    match pass.claim(board, 0) {
        Ok(()) => Ok(()),
        Err(claimed) => Err(claimed.owner),
    }
}

/// Takes the flips that were made back, from the last to the first, so that the stars are as they came.
/// It takes no memory.
pub fn roll_back(hold: &mut Hold)
    requires restorable { (pass : PassOf) × Restorable pass hold.old }
    ensures settles { (pass : PassOf) → Restorable pass hold.old → Settles pass [] (shown hold.new.lent.items) }
    ensures room { Roomy hold.old → Roomy hold.new }
{
    while let Some(flip) = hold.flips.pop() {
        undo_here(&mut hold.lent, &flip);
    }
}

// Whether a place is a label of some of these flips.
fn touched(flips: &[Flip], place: u16) -> bool
    ensures { result ≡ flips_touch place flips.now }
{
    flips
        .iter()
        .any(|flip| flip.a.contains(place) || flip.b.contains(place))
}

// Puts a star into the slot of its place, and counts one entry more where these flips have the place.
fn send_home(board: &Board, pass: &mut Pass, place: u16, star: Star, flips: &[Flip])
    requires board { IsOf pass.old board.now }
    requires known { (x : VersionedStar) × (item (know pass.old).items place ≡ some x) × (star.star ≡ x.star) }
    requires slots { HasVersions pass.old flips.now }
    ensures same { IsSame pass.old pass.new }
    ensures known { know pass.new ≡ know pass.old }
    ensures slot { (x : VersionedStar) → item (know pass.old).items place ≡ some x → star.star ≡ x.star → slot pass.new place ≡ some (Slot.Home x) }
    ensures slots { (q : ℕ) → q ≢ place → slot pass.new q ≡ slot pass.old q }
{
    let (_empty, version) = pass.take_star(board, place).into_parts();
    let version = version + u64::from(touched(flips, place));
    pass.put_star(board, place, VersionedStar::new(star, version));
}

/// Gives back all places that are held from 1, with their stars, where these flips were committed. It
/// takes no memory.
pub fn give_up(board: &Board, pass: &mut Pass, lent: &mut Vec<Star>, flips: &[Flip])
    requires board { IsOf pass.old board.now }
    requires settles { Settles pass.old flips.now (shown lent.old.items) }
    requires free { (know pass.old).has_journal ≡ false }
    ensures same { IsSame pass.old pass.new }
    ensures empty { Empty (know pass.new) }
    ensures kept { ((know pass.new).tries ≡ (know pass.old).tries) × ((know pass.new).mine ≡ (know pass.old).mine) × ((know pass.new).worker ≡ (know pass.old).worker) × ((know pass.new).start ≡ (know pass.old).start) × ((know pass.new).places ≡ (know pass.old).places) }
    ensures capacity { vec_capacity lent.new ≡ vec_capacity lent.old }
{
    while let Some(star) = lent.pop() {
        let place = star.vertex();
        send_home(board, pass, place, star, flips);
        pass.release(board, place);
    }
}
