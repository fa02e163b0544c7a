// Turns the order of what a pass holds, to bring a place to its front.
ghost use Rattle.std.specs.Prelude.{◌≡◌, ◌<◌, length, true};
ghost use Rattle.std.specs.VecDeque.{deque_capacity};
ghost use Rattle.atomic_table.specs.Table.{turned};
ghost use Rattle.board_rule.specs.Items.{places_of, has_item, single};
ghost use Rattle.vertex_claims.specs.Held.{Shuffled, OnTop};

use atomic_table::Seat;
use board_rule::{Slot, View};
use std::collections::VecDeque;

// The slot in front goes behind the others.
fn turn(seat: &mut Seat<Slot, View>, order: &mut VecDeque<u16>)
    requires { (0 < length order.old.items) × (order.old.items ≡ places_of seat.old.me.1) }
    ensures seat { (seat.new.table_id ≡ seat.old.table_id) × (seat.new.id ≡ seat.old.id) × (seat.new.me ≡ (seat.old.me.0, turned seat.old.me.1)) }
    ensures order { (order.new.items ≡ places_of seat.new.me.1) × (deque_capacity order.new ≡ deque_capacity order.old) }
{
    let Some(first) = order.pop_front() else {
        unreachable!()
    };
    order.push_back_reserved(first);
    seat.turn();
}

// Brings the slot of a place to the front, since only the slot in front of a seat can be exchanged or
// given back.
pub(crate) fn bring(seat: &mut Seat<Slot, View>, order: &mut VecDeque<u16>, place: u16)
    requires { (order.old.items ≡ places_of seat.old.me.1) × (has_item seat.old.me.1 place ≡ true) × (single seat.old.me.1 ≡ true) }
    ensures seat { (seat.new.table_id ≡ seat.old.table_id) × (seat.new.id ≡ seat.old.id) }
    ensures slots { Shuffled seat.old.me seat.new.me }
    ensures top { OnTop seat.new.me place }
    ensures order { (order.new.items ≡ places_of seat.new.me.1) × (deque_capacity order.new ≡ deque_capacity order.old) }
{
    while order[0] != place {
        turn(seat, order);
    }
}
