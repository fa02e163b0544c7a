//! Rounds.

ghost use Rattle.std.specs.Prelude.{◌≡◌, ◌≤◌, IfOk, length, map};
ghost use Rattle.stars.specs.StarViews.{UsesUpTo};
ghost use Rattle.board_rule.specs.Ends.{AllBack};
ghost use Rattle.vertex_claims.specs.Passes.{IsMainOf, setup_of, main_knows};
ghost use Rattle.round_rules.specs.Rounds.{RoundOk};
ghost use Rattle.round_run.specs.Crews.{HasClosed};
ghost use Rattle.round_run.specs.Gates.{Rise, quits_at};
ghost use Rattle.round_run.specs.Reports.{scene};

use crate::record::RoundRecord;
use crate::results::{Accounts, settle_all};
use crate::running::run_all;
use crate::starting::hire_all;
use anneal_plan::Plan;
use complex_core::Complex;
use held_stars::Gate;
use std::alloc::{AllocError, Global};
use std::marker::Send;
use std::thread::Threads;
use vertex_claims::{Board, Main};

// Closes the board of a round: its record, and the complex that it ends with.
fn close_round(
    alloc: Global,
    board: Board,
    main: Main,
    round: u32,
    accounts: Accounts,
) -> Result<(RoundRecord, Complex), AllocError>
    requires main { IsMainOf main board }
    requires back { AllBack (main_knows main) }
    ensures closed { IfOk result (λ r. HasClosed (setup_of board) (main_knows main) r.0.entries r.1) }
    ensures round { IfOk result (λ r. r.0.round ≡ round) }
    ensures accounts { IfOk result (λ r. (r.0.tries ≡ map (λ v. v.items) accounts.tries.items) × (r.0.marks ≡ accounts.marks.items)) }
{
    let Accounts { tries, marks } = accounts;
    let (journal, stars) = board.close(alloc, main)?;
    let end = stars.complex(alloc)?;
    let record = RoundRecord {
        round,
        journal,
        tries,
        marks,
    };
    Ok((record, end))
}

/// Makes a round on a complex with places from 1 to `places`: as many workers as the plan has make its
/// tries at once, worker w with gate w - 1.
///
/// # Errors
/// `AllocError` where there isn't enough memory, also for a try of a worker.
pub fn run_round<R: Threads + Sync, G: Gate + Send>(
    rt: &R,
    alloc: Global,
    start: &Complex,
    places: u16,
    plan: &Plan,
    round: u32,
    gates: &mut [G],
) -> Result<(RoundRecord, Complex), AllocError>
    requires dim { 1 ≤ start.now.dim }
    requires places { UsesUpTo start.now places }
    requires gates { plan.now.workers ≤ length gates.old }

    // Its entries are one legal history from the complex to the one that is answered, and each try and
    // its mark are judged by it.
    ensures round { IfOk result (λ r. RoundOk (scene start.now places round plan.now) r.0 r.1) }
    ensures end { IfOk result (λ r. (r.1.dim ≡ start.now.dim) × UsesUpTo r.1 places) }

    // A try of worker w ends by a quit at most as often as the count of its gate rose.
    ensures quits { IfOk result (λ r. Rise (λ g. G.quits g) gates.old gates.new (quits_at r.0.tries)) }
    ensures later { Rise (λ g. G.quits g) gates.old gates.new (λ _. 0) }
{
    let (board, mut main) = Board::open(alloc, start, places, plan.workers() as u16, round)?;
    let workers = hire_all(alloc, &board, &mut main, start, places, plan, round)?;
    let workers = run_all(rt, &board, workers, gates);
    let accounts = settle_all(alloc, &board, &mut main, workers)?;
    close_round(alloc, board, main, round, accounts)
}
