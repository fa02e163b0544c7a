// Workers on boards of their own, and complexes, for the tests.

ghost use Rattle.std.specs.Prelude.{◌≡◌, ◌+◌, ◌<◌, ◌≤◌, [], true, length, IfOk, OnOk, None};
ghost use Rattle.board_rule.specs.Ends.{AllBack};
ghost use Rattle.board_rule.specs.Views.{one_more_pass, one_back};
ghost use Rattle.vertex_claims.specs.Passes.{IsMainOf, handed, know, main_knows, marks_left, places_on, start_of, workers_on};
ghost use Rattle.spec_worker.specs.Workers.{Works, IsSameWorker, ArePlaces, pass_of, number_of, tries_of, mine_of, answers_of, plan_of};

use anneal_plan::{Phase, Plan, free, live};
use complex_core::{Complex, Face};
use flip_rules::{Flip, Journal};
use held_stars::{Gate, OpenGate, Point, Step};
use round_rules::Tried;
use spec_worker::Worker;
use stars::StarMap;
use std::alloc::Global;
use std::test::Fail;
use std::thread::{Threads, join_mut, yield_now};
use vertex_claims::{Board, Main, Marks};

// The boundary of the octahedron, in which 1 and 6, 2 and 5, 3 and 4 are opposite.
pub(crate) const OCTAHEDRON: [&[u16]; 8] = [
    &[1, 2, 3],
    &[1, 2, 4],
    &[1, 3, 5],
    &[1, 4, 5],
    &[2, 3, 6],
    &[2, 4, 6],
    &[3, 5, 6],
    &[4, 5, 6],
];

// The boundary of the tetrahedron.
pub(crate) const TETRAHEDRON: [&[u16]; 4] = [&[1, 2, 3], &[1, 2, 4], &[1, 3, 4], &[2, 3, 4]];

pub(crate) fn complex(alloc: Global, sets: &[&[u16]]) -> Result<Complex, Fail> {
    let mut facets = Vec::new(alloc);
    for set in sets {
        facets.push(Face::from_slice(set)?)?;
    }
    Ok(Complex::from_facets(alloc, &facets)?)
}

pub(crate) fn flip(a: &[u16], b: &[u16]) -> Result<Flip, Fail> {
    Ok(Flip {
        a: Face::from_slice(a)?,
        b: Face::from_slice(b)?,
    })
}

// What a try is told.
#[derive(Clone, Copy)]
pub(crate) struct Told {
    pub(crate) phase: Phase,
    pub(crate) words: [u32; 8],
}

// A gate that ends a try when it was asked so many times before. It tells nothing of what it hears.
#[derive(Clone, Copy)]
pub(crate) struct Counting {
    left: u32,
    quits: u32,
    // Where it ended one.
    pub(crate) ended: Option<Point>,
}

impl Counting {
    pub(crate) fn new(before: u32) -> Counting {
        Counting {
            left: before,
            quits: 0,
            ended: None,
        }
    }
}

impl Gate for Counting {
    ghost quits = { λ g. g.quits };

    ghost heard = { λ _. None };

    fn at(&mut self, point: Point) -> Step {
        if self.left > 0 || self.quits == u32::MAX {
            self.left = self.left.saturating_sub(1);
            return Step::Go;
        }
        self.quits += 1;
        self.ended = Some(point);
        Step::Quit
    }

    fn committed(&mut self) {}
}

// What is left of a worker whose pass was taken back.
#[derive(Drop)]
pub(crate) struct Made {
    pub(crate) answers: Vec<Tried>,
    pub(crate) marks: Marks,
}

// What is left of a board that was closed.
#[derive(Drop)]
pub(crate) struct Ended {
    pub(crate) journal: Journal,
    pub(crate) end: Complex,
}

fn are_places(labels: &[u16], places: u16) -> bool
    ensures { result ≡ true → ArePlaces labels.now places }
{
    labels.iter().all(|label| 0 < *label && *label <= places)
}

// A worker with the next pass of a board.
fn hire(
    alloc: Global,
    board: &Board,
    main: &mut Main,
    start: &Complex,
    places: u16,
    plan: &Plan,
) -> Result<Worker, Fail>
    requires main { IsMainOf main.old board.now }
    requires few { handed main.old < workers_on board.now }
    requires board { (start_of board.now ≡ start.now) × (places_on board.now ≡ places) }
    requires dim { 1 ≤ start.now.dim }
    ensures main { IsMainOf main.new board.now }
    ensures handed { OnOk result (handed main.new ≡ handed main.old + 1) }
    ensures knows { OnOk result (main_knows main.new ≡ one_more_pass (main_knows main.old)) }
    ensures works { IfOk result (λ w. Works w board.now) }
    ensures number { IfOk result (λ w. number_of w ≡ handed main.old + 1) }
    ensures room { IfOk result (λ w. (plan_of w ≡ plan.now) × (plan.now.tries ≤ marks_left (pass_of w))) }
    ensures fresh { IfOk result (λ w. (answers_of w ≡ []) × (tries_of w ≡ []) × (mine_of w ≡ [])) }
{
    let live = live(start)?;
    let free = free(alloc, start, places)?;
    if live.is_empty() || !are_places(&live, places) || !are_places(&free, places) {
        return Err(Fail::new("not places of the board"));
    }
    let pass = main.hand_out(alloc, board, plan.tries())?;
    Ok(Worker::new(alloc, pass, plan, 0, live, free)?)
}

// Takes the pass of a worker back.
fn dismiss(board: &Board, main: &mut Main, worker: Worker) -> Made
    requires main { IsMainOf main.old board.now }
    requires works { Works worker board.now }
    ensures main { IsMainOf main.new board.now }
    ensures knows { main_knows main.new ≡ one_back (main_knows main.old) (know (pass_of worker)) }
{
    let (pass, answers) = worker.finish();
    let marks = main.take_back(board, pass);
    Made { answers, marks }
}

fn close(alloc: Global, board: Board, main: Main) -> Result<Ended, Fail>
    requires main { IsMainOf main board }
    requires back { AllBack (main_knows main) }
{
    let (journal, stars) = board.close(alloc, main)?;
    let end = stars.complex(alloc)?;
    Ok(Ended { journal, end })
}

// Makes tries, one after another.
fn make<G: Gate>(board: &Board, worker: &mut Worker, tries: &[Told], gate: &mut G)
    requires works { Works worker.old board.now }
    requires marks { length tries.now ≤ marks_left (pass_of worker.old) }
    requires answers { length (answers_of worker.old) + length tries.now ≤ (plan_of worker.old).tries }
    ensures works { Works worker.new board.now }
    ensures same { IsSameWorker worker.old worker.new }
{
    for told in tries {
        worker.attempt(board, &told.words, told.phase, gate);
    }
}

// One worker makes these tries on a board that begins with a complex, and has so many places.
pub(crate) fn attempted<G: Gate>(
    alloc: Global,
    start: &Complex,
    places: u16,
    plan: &Plan,
    tries: &[Told],
    gate: &mut G,
) -> Result<(Made, Ended), Fail> {
    if !StarMap::can_hold(start, places)
        || start.dim() == 0
        || tries.len() > plan.tries() as usize
    {
        return Err(Fail::new("no such board"));
    }
    let (board, mut main) = Board::open(alloc, start, places, 1, 0)?;
    let mut worker = hire(alloc, &board, &mut main, start, places, plan)?;
    make(&board, &mut worker, tries, gate);
    let made = dismiss(&board, &mut main, worker);
    Ok((made, close(alloc, board, main)?))
}

// Makes the same try again and again, until it commits.
fn commit(board: &Board, worker: &mut Worker, told: &Told) -> bool
    requires works { Works worker.old board.now }
    requires marks { 1000 ≤ marks_left (pass_of worker.old) }
    requires answers { length (answers_of worker.old) + 1000 ≤ (plan_of worker.old).tries }
    ensures works { Works worker.new board.now }
    ensures same { IsSameWorker worker.old worker.new }
{
    for _ in 0..1000u32 {
        match worker.attempt(board, &told.words, told.phase, &mut OpenGate) {
            Tried::Committed(_) => return true,
            Tried::Busy { place: _, owner: _ } => yield_now(),
            _ => return false,
        }
    }
    false
}

// Two workers, each in a thread of its own, commit what they are told.
fn commit_both<R: Threads + Sync>(
    rt: &R,
    board: &Board,
    one: &mut Worker,
    other: &mut Worker,
    first: &Told,
    second: &Told,
) -> bool
    requires works { Works one.old board.now × Works other.old board.now }
    requires marks { (1000 ≤ marks_left (pass_of one.old)) × (1000 ≤ marks_left (pass_of other.old)) }
    requires answers { (length (answers_of one.old) + 1000 ≤ (plan_of one.old).tries) × (length (answers_of other.old) + 1000 ≤ (plan_of other.old).tries) }
    ensures works { Works one.new board.now × Works other.new board.now }
    ensures same { IsSameWorker one.old one.new × IsSameWorker other.old other.new }
{
    let (one_made, other_made) = join_mut(
        rt,
        &mut || commit(board, one, first),
        &mut || commit(board, other, second),
    );
    one_made && other_made
}

// Two workers make a try each on a board of 8 places, at the same time.
pub(crate) fn committed_both<R: Threads + Sync>(
    rt: &R,
    alloc: Global,
    start: &Complex,
    plan: &Plan,
    first: &Told,
    second: &Told,
) -> Result<Ended, Fail> {
    if !StarMap::can_hold(start, 8) || start.dim() == 0 || plan.tries() < 1000 {
        return Err(Fail::new("no such board"));
    }
    let (board, mut main) = Board::open(alloc, start, 8, 2, 0)?;
    let mut one = hire(alloc, &board, &mut main, start, 8, plan)?;
    let mut other = hire(alloc, &board, &mut main, start, 8, plan)?;
    if !commit_both(rt, &board, &mut one, &mut other, first, second) {
        return Err(Fail::new("not committed"));
    }
    let _one = dismiss(&board, &mut main, one);
    let _other = dismiss(&board, &mut main, other);
    close(alloc, board, main)
}
