// Appends an entry to the journal of a board, for which there is room.
ghost use Rattle.std.specs.Prelude.{◌≡◌, ◌<◌, ◌≤◌, ◌∷◌, [], ◌++◌, ◌^◌, length, OnOk};
ghost use Rattle.std.specs.List.{AllByRecursion};
ghost use Rattle.atomic_table.specs.Table.{rest};
ghost use Rattle.flip_rules.specs.Flips.{OfFaces};
ghost use Rattle.board_rule.specs.Books.{Book};
ghost use Rattle.board_rule.specs.Homes.{VersionedStar};
ghost use Rattle.vertex_claims.specs.Passes.{board_id};

use crate::board::Board;
use atomic_table::Seat;
use board_rule::{Slot, View};
use flip_rules::{Entry, Flip};
use std::alloc::AllocError;

// Writes an entry into the journal that a seat has in front.
pub(crate) fn append(seat: &mut Seat<Slot, View>, board: &Board, entry: Entry)
    requires board { seat.old.table_id ≡ board_id board.now }
    requires journal { (b : Book) × (seat.old.me.1 ≡ (0, Slot.Journal b) ∷ rest seat.old.me.1) × (0 < b.room) }
    ensures seat { (seat.new.table_id ≡ seat.old.table_id) × (seat.new.id ≡ seat.old.id) × (seat.new.me.0 ≡ seat.old.me.0) }
    ensures journal { (b : Book) × (n : Book) × (seat.old.me.1 ≡ (0, Slot.Journal b) ∷ rest seat.old.me.1) × (seat.new.me.1 ≡ (0, Slot.Journal n) ∷ rest seat.old.me.1) × (n.entries ≡ b.entries ++ entry ∷ []) × (length n.entries < 2 ^ 64) }
{
    match board.table.shared.exchange(seat, 0, Slot::Out) {
        Slot::Journal(mut journal) => {
            journal.push_reserved(entry);
            let _out = board.table.shared.exchange(seat, 0, Slot::Journal(journal));
        }
        _ => unreachable!(),
    }
}

// Makes room for an entry in the journal that a seat has in front.
pub(crate) fn make_room(seat: &mut Seat<Slot, View>, board: &Board) -> Result<(), AllocError>
    requires board { seat.old.table_id ≡ board_id board.now }
    requires journal { (b : Book) × (seat.old.me.1 ≡ (0, Slot.Journal b) ∷ rest seat.old.me.1) }
    ensures seat { (seat.new.table_id ≡ seat.old.table_id) × (seat.new.id ≡ seat.old.id) × (seat.new.me.0 ≡ seat.old.me.0) }
    ensures journal { (b : Book) × (n : Book) × (seat.old.me.1 ≡ (0, Slot.Journal b) ∷ rest seat.old.me.1) × (seat.new.me.1 ≡ (0, Slot.Journal n) ∷ rest seat.old.me.1) × (n.entries ≡ b.entries) × OnOk result (0 < n.room) }
{
    match board.table.shared.exchange(seat, 0, Slot::Out) {
        Slot::Journal(mut journal) => {
            let made = journal.reserve();
            let _out = board.table.shared.exchange(seat, 0, Slot::Journal(journal));
            made
        }
        _ => unreachable!(),
    }
}

// The version of the star that a seat has in front.
pub(crate) fn version_in(seat: &mut Seat<Slot, View>, board: &Board, place: u16) -> u64
    requires board { seat.old.table_id ≡ board_id board.now }
    requires star { (x : VersionedStar) × (seat.old.me.1 ≡ (place, Slot.Home x) ∷ rest seat.old.me.1) }
    ensures seat { (seat.new.table_id ≡ seat.old.table_id) × (seat.new.id ≡ seat.old.id) × (seat.new.me ≡ seat.old.me) }
    ensures version { (x : VersionedStar) → seat.old.me.1 ≡ (place, Slot.Home x) ∷ rest seat.old.me.1 → result ≡ x.version }
{
    match seat.slot_mut(&board.table.shared, usize::from(place)) {
        Slot::Home(home) => home.version(),
        _ => unreachable!(),
    }
}

// Both sides of each flip are sets of labels, as those of all flips are.
pub(crate) fn know_faces(flips: &[Flip])
    ensures { AllByRecursion OfFaces flips.now }
{
    for flip in flips {
        let _first = flip.a.len();
        let _second = flip.b.len();
    }
}
