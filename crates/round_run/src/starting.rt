//! The workers of a round, before they run.

ghost use Rattle.std.specs.Prelude.{◌≡◌, ◌+◌, ◌<◌, ◌≤◌, ◌∷◌, [], IfOk, OnOk, length};
ghost use Rattle.stars.specs.StarViews.{UsesUpTo};
ghost use Rattle.board_rule.specs.Views.{living, one_more_pass};
ghost use Rattle.vertex_claims.specs.Passes.{IsMainOf, IsTold, handed, main_knows};
ghost use Rattle.round_run.specs.Reports.{scene};
ghost use Rattle.round_run.specs.Crews.{IsNew, AreNew};

use anneal_plan::{Plan, free, live};
use complex_core::Complex;
use spec_worker::Worker;
use std::alloc::{AllocError, Global};
use vertex_claims::{Board, Main};

// One more worker of a round, with the next pass of the board.
fn hire(
    alloc: Global,
    board: &Board,
    main: &mut Main,
    start: &Complex,
    places: u16,
    plan: &Plan,
    round: u32,
) -> Result<Worker, AllocError>
    requires told { IsTold board.now start.now places plan.now.workers round }
    requires main { IsMainOf main.old board.now }
    requires room { handed main.old < plan.now.workers }
    requires dim { 1 ≤ start.now.dim }
    requires places { UsesUpTo start.now places }
    ensures main { IsMainOf main.new board.now }
    ensures worker { IfOk result (IsNew (scene start.now places round plan.now) board.now (handed main.old + 1)) }
    ensures counted { OnOk result ((handed main.new ≡ handed main.old + 1) × (main_knows main.new ≡ one_more_pass (main_knows main.old))) }
{
    let pass = main.hand_out(alloc, board, plan.tries())?;
    let live = live(start)?;
    let free = free(alloc, start, places)?;
    Worker::new(alloc, pass, plan, round, live, free)
}

// All workers of a round, in order, each with a pass of the board.
pub(crate) fn hire_all(
    alloc: Global,
    board: &Board,
    main: &mut Main,
    start: &Complex,
    places: u16,
    plan: &Plan,
    round: u32,
) -> Result<Vec<Worker>, AllocError>
    requires told { IsTold board.now start.now places plan.now.workers round }
    requires main { IsMainOf main.old board.now }
    requires none { (handed main.old ≡ 0) × ((main_knows main.old).back ≡ living ∷ []) }
    requires dim { 1 ≤ start.now.dim }
    requires places { UsesUpTo start.now places }
    ensures main { IsMainOf main.new board.now }
    ensures count { IfOk result (λ v. length v.items ≡ plan.now.workers) }
    ensures workers { IfOk result (λ v. AreNew (scene start.now places round plan.now) board.now 1 v.items) }
    ensures back { OnOk result (length (main_knows main.new).back ≡ plan.now.workers + 1) }
{
    let count = plan.workers();
    let mut workers = Vec::with_capacity(alloc, count as usize)?;
    for _ in 0..count {
        workers.push(hire(alloc, board, main, start, places, plan, round)?)?;
    }
    Ok(workers)
}
