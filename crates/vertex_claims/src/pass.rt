// A pass: the token of one worker, by which it claims, releases and commits.
ghost use Rattle.std.specs.Prelude.{◌≡◌, ◌≢◌, ◌+◌, ◌<◌, ◌≤◌, ℕ, IfOk, IfErr, OnOk, OnErr, IsSome, true, false, length, vec_len, vec_capacity, slice_index_or, nat_eq};
ghost use Rattle.std.specs.VecDeque.{deque_capacity};
ghost use Rattle.std.proofs.Props.{props};
ghost use mathlib.Core.Option.{some, none};
ghost use Rattle.board_rule.specs.Plays.{Sees};
ghost use Rattle.vertex_claims.specs.Held.{Ready, Flagged, HasBook, HasRoom, knows};
ghost use Rattle.vertex_claims.specs.Marks.{marks_of};

use crate::append::{append, know_faces, make_room, version_in};
use crate::board::Board;
use crate::count::count;
use crate::mark::{Found, Mark, first_mark};
use crate::reordering::bring;
use atomic_table::Seat;
use board_rule::{
    ClaimFirst, ClaimJournal, ClaimStar, Commit, Leave, Release, Slot, VersionedStar, View,
};
use flip_rules::{Entry, Flip};
use std::alloc::AllocError;
use std::collections::VecDeque;

/// A claim was refused: this other worker held the place.
#[derive(Clone, Copy, Debug, PartialEq, Eq)]
pub struct Claimed {
    /// The place.
    pub place: u16,
    /// The number of the worker who held it, from 1.
    pub owner: u16,
}

/// The token of one worker, by which it claims places of a board. It knows the star and version of
/// each place that it holds, as of its claim or its last commit.
#[derive(Drop)]
pub struct Pass {
    pub(crate) seat: Seat<Slot, View>,
    pub(crate) worker: u16,
    pub(crate) places: u16,
    // The places of the slots that the seat has, the one in front first.
    pub(crate) order: VecDeque<u16>,
    // For each place whether it is held.
    pub(crate) held: Vec<bool>,
    pub(crate) claiming: bool,
    // For how many entries the journal is known to have room.
    pub(crate) spare: usize,
    // How many entries it has committed.
    pub(crate) seq: u32,
    pub(crate) marks: Vec<Mark>,
    // How many tries it may make.
    pub(crate) limit: u32,
    ghost ready: { Ready seat.me order.items (places + 1) worker },
    ghost roomy: { places < deque_capacity order },
    ghost flagged: { Flagged seat.me held.items places },
    ghost claims: { claiming ≡ (knows seat.me).claiming },
    ghost book: { HasBook seat.me },
    ghost room: { HasRoom seat.me spare },
    ghost bound: { (vec_len marks ≤ limit) × (limit ≤ vec_capacity marks) },
    ghost marked: { marks.items ≡ marks_of (knows seat.me).tries },
    ghost next: { seq ≡ length (knows seat.me).mine },
    pub ghost sees: { Sees (knows seat.me) } by { Prim.hlevel props },
}

impl Pass {
    ghost use Rattle.complex_core.specs.Complexes.{ComplexView};
    ghost use Rattle.flip_rules.specs.Flips.{replay};
    ghost use Rattle.flip_rules.specs.Entries.{JournalEntry};
    ghost use Rattle.star_laws.specs.Stars.{LabelsPass};
    ghost use Rattle.board_rule.specs.Books.{Book};
    ghost use Rattle.board_rule.specs.Items.{item, has_item};
    ghost use Rattle.board_rule.specs.Views.{keeps, Empty, opened_by, lost_by, with_item, with_journal, counted, without_item, without_journal, committed};
    ghost use Rattle.board_rule.specs.Plays.{IsRefused};
    ghost use Rattle.board_rule.specs.Homes.{VersionedStar};
    ghost use Rattle.vertex_claims.specs.Passes.{IsOf, IsSame, know, slot, Puts, SameSlots, spare, limit, marks_left, places_on, entry_of};

    /// Its number, from 1.
    pub fn worker(&self) -> u16
        ensures { result ≡ (know self.now).worker }
    {
        self.worker
    }

    /// Whether it holds a place. It takes one look.
    pub fn holds(&self, place: u16) -> bool
        ensures { result ≡ keeps (know self.now) place }
    {
        match self.held.get(usize::from(place)) {
            Some(held) => *held,
            None => false,
        }
    }

    /// Whether it is claiming: from a first claim that was won up to its next release or commit.
    pub fn claiming(&self) -> bool
        ensures { result ≡ (know self.now).claiming }
    {
        self.claiming
    }

    /// Begins a try: claims a place from 1 in one atomic step, and adds a mark of it. It takes no
    /// memory and doesn't wait.
    ///
    /// # Errors
    /// `Claimed` exactly where that step found the place held by another worker.
    pub fn first_claim(&mut self, board: &Board, place: u16) -> Result<(), Claimed>
        requires board { IsOf self.old board.now }
        requires place { (0 < place) × (place ≤ places_on board.now) }
        requires empty { Empty (know self.old) }
        requires room { 0 < marks_left self.old }
        ensures same { IsSame self.old self.new }

        // It then holds the place, with its star and version, and knows of a complex with all stars
        // that it holds.
        ensures won { IfOk result (λ _. (x : VersionedStar) × (k : ComplexView) × (know self.new ≡ opened_by (know self.old) place x k) × Puts self.old self.new place (some (Slot.Home x))) }

        // Else the owner isn't this worker, and only the mark is new.
        ensures lost { IfErr result (λ c. (c.place ≡ place) × IsRefused (know self.old).worker c.owner × (know self.new ≡ lost_by (know self.old) place c.owner) × SameSlots self.old self.new) }
        ensures spare { spare self.new ≡ spare self.old }
    {
        let found = board.table.shared.compare_exchange::<ClaimFirst>(
            &mut self.seat,
            usize::from(place),
            0,
            u64::from(self.worker),
        );
        if found != 0 {
            let owner = found as u16;
            self.marks
                .push_reserved(first_mark(place, Found::Lost(owner)));
            return Err(Claimed { place, owner });
        }
        self.order.push_front_reserved(place);
        self.held[usize::from(place)] = true;
        self.claiming = true;
        let version = version_in(&mut self.seat, board, place);
        self.marks
            .push_reserved(first_mark(place, Found::Won(version)));
        Ok(())
    }

    /// Claims one more place of the try in one atomic step: one from 1, or the journal at place 0. A
    /// refused claim is counted in the last mark. It takes no memory and doesn't wait.
    ///
    /// # Errors
    /// `Claimed` exactly where that step found the place held by another worker.
    pub fn claim(&mut self, board: &Board, place: u16) -> Result<(), Claimed>
        requires board { IsOf self.old board.now }
        requires claiming { (know self.old).claiming ≡ true }
        requires place { place ≤ places_on board.now }
        requires free { keeps (know self.old) place ≡ false }
        ensures same { IsSame self.old self.new }

        // It then holds the place, with its star and version, and knows of a complex with all stars
        // that it holds.
        ensures star { 0 < place → IfOk result (λ _. (x : VersionedStar) × (k : ComplexView) × (know self.new ≡ with_item (know self.old) place x k) × Puts self.old self.new place (some (Slot.Home x)) × (spare self.new ≡ spare self.old)) }

        // It then holds the journal, and isn't known to have room in it.
        ensures journal { place ≡ 0 → IfOk result (λ _. (b : Book) × (know self.new ≡ with_journal (know self.old) b.entries) × Puts self.old self.new 0 (some (Slot.Journal b)) × (spare self.new ≡ 0)) }

        // Else the owner isn't this worker, and the refused claim is counted.
        ensures lost { IfErr result (λ c. (c.place ≡ place) × IsRefused (know self.old).worker c.owner × (know self.new ≡ counted (know self.old) place c.owner) × SameSlots self.old self.new × (spare self.new ≡ spare self.old)) }
    {
        if place == 0 {
            self.claim_journal(board)
        } else {
            self.claim_star(board, place)
        }
    }

    // Claims a place from 1.
    fn claim_star(&mut self, board: &Board, place: u16) -> Result<(), Claimed>
        requires board { IsOf self.old board.now }
        requires claiming { (know self.old).claiming ≡ true }
        requires place { (0 < place) × (place ≤ places_on board.now) }
        requires free { keeps (know self.old) place ≡ false }
        ensures same { IsSame self.old self.new }
        ensures won { IfOk result (λ _. (x : VersionedStar) × (k : ComplexView) × (know self.new ≡ with_item (know self.old) place x k) × Puts self.old self.new place (some (Slot.Home x))) }
        ensures lost { IfErr result (λ c. (c.place ≡ place) × IsRefused (know self.old).worker c.owner × (know self.new ≡ counted (know self.old) place c.owner) × SameSlots self.old self.new) }
        ensures spare { spare self.new ≡ spare self.old }
    {
        let found = board.table.shared.compare_exchange::<ClaimStar>(
            &mut self.seat,
            usize::from(place),
            0,
            u64::from(self.worker),
        );
        if found != 0 {
            let owner = found as u16;
            count(&mut self.marks, place, owner);
            return Err(Claimed { place, owner });
        }
        self.order.push_front_reserved(place);
        self.held[usize::from(place)] = true;
        Ok(())
    }

    // Claims the journal.
    fn claim_journal(&mut self, board: &Board) -> Result<(), Claimed>
        requires board { IsOf self.old board.now }
        requires free { (know self.old).has_journal ≡ false }
        ensures same { IsSame self.old self.new }
        ensures won { IfOk result (λ _. (b : Book) × (know self.new ≡ with_journal (know self.old) b.entries) × Puts self.old self.new 0 (some (Slot.Journal b)) × (spare self.new ≡ 0)) }
        ensures lost { IfErr result (λ c. (c.place ≡ 0) × IsRefused (know self.old).worker c.owner × (know self.new ≡ counted (know self.old) 0 c.owner) × SameSlots self.old self.new × (spare self.new ≡ spare self.old)) }
    {
        let found = board
            .table
            .shared
            .compare_exchange::<ClaimJournal>(&mut self.seat, 0, 0, u64::from(self.worker));
        if found != 0 {
            let owner = found as u16;
            count(&mut self.marks, 0, owner);
            return Err(Claimed { place: 0, owner });
        }
        self.order.push_front_reserved(0);
        self.held[0] = true;
        self.spare = 0;
        Ok(())
    }

    /// Takes the star of a place that it holds out of its slot, with its version: as they were claimed,
    /// or as they were put back last. It takes no memory.
    pub fn take_star(&mut self, board: &Board, place: u16) -> VersionedStar
        requires board { IsOf self.old board.now }
        requires star { (x : VersionedStar) × (slot self.old place ≡ some (Slot.Home x)) }
        ensures same { IsSame self.old self.new }
        ensures known { (know self.new ≡ know self.old) × (spare self.new ≡ spare self.old) }
        ensures star { slot self.old place ≡ some (Slot.Home result) }
        ensures slots { Puts self.old self.new place (some Slot.Out) }
    {
        bring(&mut self.seat, &mut self.order, place);
        match board
            .table
            .shared
            .exchange(&mut self.seat, usize::from(place), Slot::Out)
        {
            Slot::Home(home) => home,
            _ => unreachable!(),
        }
    }

    /// Puts a star into the slot of a place from which one was taken out. It takes no memory.
    pub fn put_star(&mut self, board: &Board, place: u16, home: VersionedStar)
        requires board { IsOf self.old board.now }
        requires out { slot self.old place ≡ some Slot.Out }
        ensures same { IsSame self.old self.new }
        ensures known { (know self.new ≡ know self.old) × (spare self.new ≡ spare self.old) }
        ensures slots { Puts self.old self.new place (some (Slot.Home home)) }
    {
        bring(&mut self.seat, &mut self.order, place);
        let _out = board
            .table
            .shared
            .exchange(&mut self.seat, usize::from(place), Slot::Home(home));
    }

    /// Gives back a place from 1, whose slot has the star and version that are known. It takes no
    /// memory.
    pub fn release(&mut self, board: &Board, place: u16)
        requires board { IsOf self.old board.now }
        requires place { 0 < place }
        requires known { (x : VersionedStar) × (slot self.old place ≡ some (Slot.Home x)) × (item (know self.old).items place ≡ some x) }
        ensures same { IsSame self.old self.new }
        ensures known { (know self.new ≡ without_item (know self.old) place) × (spare self.new ≡ spare self.old) }
        ensures slots { Puts self.old self.new place none }
    {
        bring(&mut self.seat, &mut self.order, place);
        let _place = self.order.pop_front();
        self.held[usize::from(place)] = false;
        self.claiming = false;
        board
            .table
            .shared
            .store::<Release>(&mut self.seat, usize::from(place), 0);
    }

    /// Makes room for an entry in the journal, which it holds.
    pub fn journal_room(&mut self, board: &Board) -> Result<(), AllocError>
        requires board { IsOf self.old board.now }
        requires held { (know self.old).has_journal ≡ true }
        ensures same { IsSame self.old self.new }
        ensures known { know self.new ≡ know self.old }
        ensures room { OnOk result (0 < spare self.new) }
        ensures err { OnErr result (spare self.new ≡ 0) }
        ensures slots { (q : ℕ) → q ≢ 0 → slot self.new q ≡ slot self.old q }
    {
        bring(&mut self.seat, &mut self.order, 0);
        let made = make_room(&mut self.seat, board);
        self.spare = match made {
            Ok(()) => 1,
            Err(_) => 0,
        };
        made
    }

    /// Writes one entry of these flips, of the board's round, this worker and its next number from 0,
    /// gives the journal back, and answers that number. The known star of each place becomes that
    /// after the flips, and the known version of each place that they touch rises by one. It takes no
    /// memory.
    pub fn commit(&mut self, board: &Board, flips: &[Flip]) -> u32
        requires board { IsOf self.old board.now }
        requires claiming { (know self.old).claiming ≡ true }
        requires journal { (know self.old).has_journal ≡ true }
        requires room { 0 < spare self.old }
        requires count { (0 < length flips.now) × (length flips.now ≤ 4) }
        requires held { LabelsPass (has_item (know self.old).items) flips.now }

        // They are legal in order on the known stars.
        requires legal { IsSome (replay (know self.old).seen flips.now) }

        ensures same { IsSame self.old self.new }
        ensures seq { result ≡ length (know self.old).mine }
        ensures known { (k : ComplexView) × (know self.new ≡ committed (know self.old) (entry_of self.old board.now flips.now) k) }
        ensures slots { Puts self.old self.new 0 none }
        ensures spare { spare self.new ≡ 0 }
    {
        know_faces(flips);
        let alloc = *self.marks.allocator();
        let seq = self.seq;
        let Ok(entry) = Entry::new(alloc, board.round, self.worker, seq, flips) else {
            unreachable!()
        };
        bring(&mut self.seat, &mut self.order, 0);
        append(&mut self.seat, board, entry);
        let _journal = self.order.pop_front();
        self.held[0] = false;
        self.claiming = false;
        self.spare = 0;
        board.table.shared.store::<Commit>(&mut self.seat, 0, 0);
        self.seq += 1;
        seq
    }

    /// Gives the journal back as it was taken. It takes no memory.
    pub fn leave_journal(&mut self, board: &Board)
        requires board { IsOf self.old board.now }
        requires held { (know self.old).has_journal ≡ true }
        ensures same { IsSame self.old self.new }
        ensures known { know self.new ≡ without_journal (know self.old) }
        ensures slots { Puts self.old self.new 0 none }
        ensures spare { spare self.new ≡ 0 }
    {
        bring(&mut self.seat, &mut self.order, 0);
        let _journal = self.order.pop_front();
        self.held[0] = false;
        self.spare = 0;
        board.table.shared.store::<Leave>(&mut self.seat, 0, 0);
    }
}
