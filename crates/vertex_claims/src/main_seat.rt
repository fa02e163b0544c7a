// Main, who hands out the passes and takes them back.
ghost use Rattle.std.specs.Prelude.{◌≡◌, ◌+◌, ◌<◌, IfOk, OnErr, true, length};
ghost use Rattle.board_rule.specs.Views.{is_main, main_view_of};

use crate::board::Board;
use crate::mark::Marks;
use crate::pass::Pass;
use atomic_table::Seat;
use board_rule::{HandOut, Slot, TakeBack, View};
use std::alloc::{AllocError, Global};
use std::collections::VecDeque;

/// Who hands out the passes of a board and takes them back.
#[derive(Drop)]
pub struct Main {
    pub(crate) seat: Seat<Slot, View>,
    pub(crate) handed: u16,
    ghost is_main: { is_main seat.me.0 ≡ true },
    ghost counted: { length (main_view_of seat.me.0).back ≡ handed + 1 },
}

impl Main {
    ghost use Rattle.std.specs.Prelude.{ℕ, ◌≤◌, vec_len, vec_capacity};
    ghost use mathlib.Core.Option.{none};
    ghost use Rattle.board_rule.specs.Views.{newcomer, Empty, one_more_pass, one_back};
    ghost use Rattle.vertex_claims.specs.Marks.{marks_of};
    ghost use Rattle.vertex_claims.specs.Passes.{IsMainOf, IsOf, know, slot, spare, limit, main_knows, handed, start_of, places_on, workers_on, round_of};

    /// The next pass. The passes are numbered 1, 2, .. in order. It holds nothing, and has room for so
    /// many tries.
    #[tactic(auto, using(crate::proofs::Seats::holds_nothing))]
    pub fn hand_out(&mut self, alloc: Global, board: &Board, tries: u32) -> Result<Pass, AllocError>
        requires board { IsMainOf self.old board.now }
        requires room { handed self.old < workers_on board.now }
        ensures board { IsMainOf self.new board.now }
        ensures pass { IfOk result (λ pass. IsOf pass board.now) }
        ensures newcomer { IfOk result (λ pass. know pass ≡ newcomer (start_of board.now) (places_on board.now) (handed self.old + 1)) }
        ensures slots { IfOk result (λ pass. ((p : ℕ) → slot pass p ≡ none) × (spare pass ≡ 0)) }
        ensures empty { IfOk result (λ pass. Empty (know pass)) }
        ensures limit { IfOk result (λ pass. limit pass ≡ tries) }
        ensures counted { IfOk result (λ _. (handed self.new ≡ handed self.old + 1) × (main_knows self.new ≡ one_more_pass (main_knows self.old))) }
        ensures err { OnErr result ((handed self.new ≡ handed self.old) × (main_knows self.new ≡ main_knows self.old)) }
    {
        let places = board.places;
        let order = VecDeque::with_capacity(alloc, usize::from(places) + 1)?;
        let held = Vec::from_elem(alloc, false, usize::from(places) + 1)?;
        let marks = Vec::with_capacity(alloc, tries as usize)?;
        let seat = board.table.shared.split_seat::<HandOut>(&mut self.seat);
        self.handed += 1;
        Ok(Pass {
            seat,
            worker: self.handed,
            places,
            order,
            held,
            claiming: false,
            spare: 0,
            seq: 0,
            marks,
            limit: tries,
        })
    }

    /// Takes back a pass that holds nothing, and answers its marks. It takes no memory.
    pub fn take_back(&mut self, board: &Board, pass: Pass) -> Marks
        requires board { IsMainOf self.old board.now }
        requires pass { IsOf pass board.now }
        requires empty { Empty (know pass) }
        ensures board { IsMainOf self.new board.now }
        ensures kept { (handed self.new ≡ handed self.old) × (main_knows self.new ≡ one_back (main_knows self.old) (know pass)) }
        ensures worker { result.worker ≡ (know pass).worker }
        ensures round { result.round ≡ round_of board.now }
        ensures list { result.list ≡ marks_of (know pass).tries }
    {
        let Pass {
            seat,
            worker,
            places: _,
            order: _,
            held: _,
            claiming: _,
            spare: _,
            seq: _,
            marks,
            limit: _,
        } = pass;
        board
            .table
            .shared
            .join_seat::<TakeBack>(&mut self.seat, seat);
        Marks::of(worker, board.round, marks)
    }
}
