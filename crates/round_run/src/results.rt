//! The workers of a round, after they ran.

ghost use Rattle.std.specs.Prelude.{◌≡◌, ◌+◌, ◌∷◌, IfOk, OnOk, MatchBool, map, length};
ghost use Rattle.std.specs.List.{Contains};
ghost use Rattle.board_rule.specs.Views.{one_back};
ghost use Rattle.vertex_claims.specs.Marks.{marks_of};
ghost use Rattle.vertex_claims.specs.Passes.{IsMainOf, IsOf, know, main_knows, round_of};
ghost use Rattle.round_rules.specs.Tasks.{Scene};
ghost use Rattle.spec_worker.specs.Workers.{pass_of, number_of, tries_of, answers_of};
ghost use Rattle.round_run.specs.Crews.{NoneWanted, AreDone, AreSettled};

use round_rules::Tried;
use spec_worker::Worker;
use std::alloc::{AllocError, Global};
use vertex_claims::{Board, Main, Marks};

// Whether a try wanted memory.
fn wanted_memory(answers: &[Tried]) -> bool
    ensures { MatchBool result (Contains answers.now Tried.NoMemory) (NoneWanted answers.now) }
{
    for answer in answers {
        if let Tried::NoMemory = answer {
            return true;
        }
    }
    false
}

// What a worker leaves: the answers of its tries and their marks.
#[derive(Drop)]
struct Account {
    answers: Vec<Tried>,
    marks: Marks,
}

// Takes a worker back, unless a try of it wanted memory.
fn settle(board: &Board, main: &mut Main, worker: Worker) -> Result<Account, AllocError>
    requires main { IsMainOf main.old board.now }
    requires worker { IsOf (pass_of worker) board.now }
    ensures main { IsMainOf main.new board.now }
    ensures kept { main_knows main.new ≡ one_back (main_knows main.old) (know (pass_of worker)) }
    ensures answers { IfOk result (λ r. (r.answers.items ≡ answers_of worker) × NoneWanted r.answers.items) }
    ensures marks { IfOk result (λ r. (r.marks.worker ≡ number_of worker) × (r.marks.round ≡ round_of board.now) × (r.marks.list ≡ marks_of (tries_of worker))) }
{
    let (pass, answers) = worker.finish();
    let marks = main.take_back(board, pass);
    if wanted_memory(&answers) {
        return Err(AllocError);
    }
    Ok(Account { answers, marks })
}

// What all workers leave, from worker 1 on.
#[derive(Drop)]
pub(crate) struct Accounts {
    pub(crate) tries: Vec<Vec<Tried>>,
    pub(crate) marks: Vec<Marks>,
}

// Takes all workers back, unless a try of them wanted memory.
pub(crate) fn settle_all(
    alloc: Global,
    board: &Board,
    main: &mut Main,
    workers: Vec<Worker>,
) -> Result<Accounts, AllocError>
    requires main { IsMainOf main.old board.now }
    requires back { length (main_knows main.old).back ≡ length workers.items + 1 }
    requires done { (s : Scene) × AreDone s board.now 1 workers.items }
    ensures main { IsMainOf main.new board.now }
    ensures back { OnOk result (length (main_knows main.new).back ≡ length workers.items + 1) }
    ensures settled { IfOk result (λ r. AreSettled board.now (main_knows main.new) 1 workers.items r.marks.items (map (λ v. v.items) r.tries.items)) }
{
    let mut tries = Vec::with_capacity(alloc, workers.len())?;
    let mut marks = Vec::with_capacity(alloc, workers.len())?;
    for worker in workers {
        let account = settle(board, main, worker)?;
        tries.push(account.answers)?;
        marks.push(account.marks)?;
    }
    Ok(Accounts { tries, marks })
}
