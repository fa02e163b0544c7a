//! Workers.

ghost use Rattle.std.specs.Prelude.{◌≡◌, ◌⊎◌, ◌+◌, ◌<◌, ◌≤◌, ◌++◌, ◌∷◌, [], true, false, IfOk, length, vec_len, vec_capacity};
ghost use Rattle.board_rule.specs.Tries.{Try};
ghost use Rattle.board_rule.specs.Views.{Empty};
ghost use Rattle.vertex_claims.specs.Passes.{know};
ghost use Rattle.held_stars.specs.Holding.{Roomy};
ghost use Rattle.round_rules.specs.Accounts.{GoesOn};

use crate::attempting::try_at;
use crate::turning::{TryPlan, ask};
use anneal_plan::{Phase, Plan, draw};
use held_stars::{Gate, Hold, Point};
use round_rules::Tried;
use std::alloc::{AllocError, Global};
use vertex_claims::{Board, Pass};

// Whether an answer ends its worker.
fn is_last(answer: &Tried) -> bool
    ensures last { result ≡ true → (answer.now ≡ Tried.Quit) ⊎ (answer.now ≡ Tried.NoMemory) }
    ensures goes_on { result ≡ false → GoesOn answer.now }
{
    match answer {
        Tried::Quit => true,
        Tried::NoMemory => true,
        _ => false,
    }
}

/// A worker of a round: it makes tries with one pass of a board, and keeps their answers. Between two
/// tries the pass holds nothing.
#[derive(Drop)]
pub struct Worker {
    pub(crate) pass: Pass,
    pub(crate) plan: Plan,
    pub(crate) round: u32,
    // The labels that were used when the round started, and the others.
    pub(crate) live: Vec<u16>,
    pub(crate) free: Vec<u16>,
    pub(crate) answers: Vec<Tried>,
    pub(crate) hold: Hold,
    ghost room: { (vec_len answers ≤ plan.tries) × (plan.tries ≤ vec_capacity answers) × Roomy hold },
    ghost some: { 0 < vec_len live },
    ghost empty: { Empty (know pass) },
}

impl Worker {
    ghost use Rattle.vertex_claims.specs.Passes.{marks_left, round_of};
    ghost use Rattle.round_rules.specs.Accounts.{OwnAll, Done, quits};
    ghost use Rattle.round_rules.specs.Own.{OwnTry};
    ghost use Rattle.held_stars.specs.Gates.{Follows, noted_in};
    ghost use Rattle.spec_worker.specs.Hearing.{RunHeard, TryHeard, flips_in};
    ghost use Rattle.spec_worker.specs.Workers.{Works, IsSameWorker, pass_of, number_of, tries_of, mine_of, answers_of, plan_of, round_in, live_of, free_of, task_of, task_in};

    /// A worker with a pass that holds nothing, and with the places that are used and that are free when
    /// the round starts. It takes room for all its answers. On want of memory the pass is given up with
    /// the board.
    pub fn new(
        alloc: Global,
        pass: Pass,
        plan: &Plan,
        round: u32,
        live: Vec<u16>,
        free: Vec<u16>,
    ) -> Result<Worker, AllocError>
        requires empty { Empty (know pass) }
        requires live { 0 < length live.items }
        requires room { plan.now.tries ≤ marks_left pass }
        ensures pass { IfOk result (λ w. pass_of w ≡ pass) }
        ensures plan { IfOk result (λ w. (plan_of w ≡ plan.now) × (round_in w ≡ round)) }
        ensures places { IfOk result (λ w. (live_of w ≡ live.items) × (free_of w ≡ free.items)) }
        ensures none { IfOk result (λ w. answers_of w ≡ []) }
    {
        let answers = Vec::with_capacity(alloc, plan.tries() as usize)?;
        let hold = Hold::new(alloc)?;
        Ok(Worker {
            pass,
            plan: *plan,
            round,
            live,
            free,
            answers,
            hold,
        })
    }

    /// One try, by eight words. Afterwards the pass holds nothing, and after every answer but
    /// `Committed` the stars went home as they came. Want of memory ends no try before its first flip.
    pub fn attempt<G: Gate>(
        &mut self,
        board: &Board,
        words: &[u32; 8],
        phase: Phase,
        gate: &mut G,
    ) -> Tried
        requires works { Works self.old board.now }
        requires room { (0 < marks_left (pass_of self.old)) × (length (answers_of self.old) < (plan_of self.old).tries) }
        ensures works { Works self.new board.now }
        ensures same { IsSameWorker self.old self.new }
        ensures answers { answers_of self.new ≡ answers_of self.old ++ result ∷ [] }

        // Its answer is judged on the stars and versions that the pass noted. Without a mark it is a quit
        // before the first claim.
        ensures own { ((t : Try) × (tries_of self.new ≡ t ∷ tries_of self.old) × OwnTry (task_of self.old board.now words.now phase) (round_of board.now) (number_of self.old) t (mine_of self.old) (mine_of self.new) result)
            ⊎ ((result ≡ Tried.Quit) × (know (pass_of self.new) ≡ know (pass_of self.old))) }
        ensures empty { Empty (know (pass_of self.new)) }
        ensures later { G.quits gate.old ≤ G.quits gate.new }
        ensures quit { result ≡ Tried.Quit → G.quits gate.old < G.quits gate.new }

        // What a gate hears of it, where it tells: it ends it exactly where the answer is a quit.
        ensures heard { Follows (G.heard gate.old) (G.heard gate.new) (TryHeard 1 result (noted_in (tries_of self.old)) (noted_in (tries_of self.new)) (flips_in (mine_of self.old)) (flips_in (mine_of self.new))) }
    {
        let answer = self.answer(board, words, phase, gate);
        self.keep(&answer);
        answer
    }

    // Keeps an answer, for which there is room.
    fn keep(&mut self, answer: &Tried)
        requires room { length (answers_of self.old) < (plan_of self.old).tries }
        ensures answers { answers_of self.new ≡ answers_of self.old ++ answer.now ∷ [] }
        ensures pass { pass_of self.new ≡ pass_of self.old }
        ensures same { IsSameWorker self.old self.new }
    {
        self.answers.push_reserved(*answer);
    }

    // The answer of the next try.
    fn answer<G: Gate>(
        &mut self,
        board: &Board,
        words: &[u32; 8],
        phase: Phase,
        gate: &mut G,
    ) -> Tried
        requires works { Works self.old board.now }
        requires room { 0 < marks_left (pass_of self.old) }
        ensures works { Works self.new board.now }
        ensures same { IsSameWorker self.old self.new }
        ensures answers { answers_of self.new ≡ answers_of self.old }
        ensures own { ((t : Try) × (tries_of self.new ≡ t ∷ tries_of self.old) × OwnTry (task_of self.old board.now words.now phase) (round_of board.now) (number_of self.old) t (mine_of self.old) (mine_of self.new) result)
            ⊎ ((result ≡ Tried.Quit) × (know (pass_of self.new) ≡ know (pass_of self.old))) }
        ensures empty { Empty (know (pass_of self.new)) }
        ensures later { G.quits gate.old ≤ G.quits gate.new }
        ensures quit { result ≡ Tried.Quit → G.quits gate.old < G.quits gate.new }
        ensures heard { Follows (G.heard gate.old) (G.heard gate.new) (TryHeard 1 result (noted_in (tries_of self.old)) (noted_in (tries_of self.new)) (flips_in (mine_of self.old)) (flips_in (mine_of self.new))) }
    {
        if let Err(answer) = ask(gate, Point::Start) {
            return answer;
        }
        let alloc = *self.answers.allocator();
        let try_plan = TryPlan {
            phase,
            words,
            free: &self.free,
            count: 1 + words[7] % self.plan.depth(),
            place: self.live[words[0] as usize % self.live.len()],
        };
        try_at(
            board,
            &mut self.pass,
            &mut self.hold,
            alloc,
            gate,
            &try_plan,
        )
    }

    /// Makes the tries of the plan, each with the next eight words of the worker's stream. It ends early
    /// only after `Quit` or `NoMemory`.
    pub fn run<G: Gate>(&mut self, board: &Board, gate: &mut G)
        requires works { Works self.old board.now }
        requires room { (plan_of self.old).tries ≤ marks_left (pass_of self.old) }
        requires fresh { (answers_of self.old ≡ []) × (tries_of self.old ≡ []) × (mine_of self.old ≡ []) }
        ensures works { Works self.new board.now }
        ensures same { IsSameWorker self.old self.new }

        // Try t was told draw t, and each answer is judged on what the pass noted.
        ensures own { OwnAll (task_in self.old board.now) (round_of board.now) (number_of self.old) (tries_of self.new) (answers_of self.new) (mine_of self.new) }
        ensures done { Done (plan_of self.old).tries (answers_of self.new) }
        ensures quits { G.quits gate.old + quits (answers_of self.new) ≤ G.quits gate.new }
        ensures heard { Follows (G.heard gate.old) (G.heard gate.new) (RunHeard (tries_of self.new) (answers_of self.new)) }
    {
        let mut stream = self.plan.stream(self.round, self.pass.worker());
        for t in 0..self.plan.tries() {
            let words = draw(&mut stream);
            let phase = self.plan.phase(t);
            let answer = self.attempt(board, &words, phase, gate);
            if is_last(&answer) {
                return;
            }
        }
    }

    /// The pass, which holds nothing, and the answers of all tries, in order.
    pub fn finish(self) -> (Pass, Vec<Tried>)
        ensures parts { (result.0 ≡ pass_of self) × (result.1.items ≡ answers_of self) }
        ensures empty { Empty (know result.0) }
    {
        let Worker {
            pass,
            plan: _,
            round: _,
            live: _,
            free: _,
            answers,
            hold: _,
        } = self;
        (pass, answers)
    }
}
