//! Workers that make their tries at once.

ghost use Rattle.std.specs.Prelude.{◌≡◌, ◌<◌, ◌≤◌, All, length};
ghost use Rattle.std.specs.Thread.{IsSync};
ghost use Rattle.round_run.specs.Crews.{IsReady, HaveRun};

use held_stars::Gate;
use spec_worker::Worker;
use std::marker::Send;
use std::thread::{Threads, join_mut};
use vertex_claims::Board;

// The first worker makes its tries, with the first gate.
fn run_first<G: Gate>(board: &Board, workers: &mut [Worker], gates: &mut [G])
    requires one { length workers.old ≡ 1 }
    requires gates { 1 ≤ length gates.old }
    requires ready { All (IsReady board.now) workers.old }
    ensures { HaveRun (λ g. G.quits g) board.now workers.old workers.new gates.old gates.new }
{
    workers[0].run(board, &mut gates[0]);
}

// Two groups of workers make their tries, each group in a thread of its own, and each worker with the
// gate of its place.
#[cycle(halving)]
fn run_both<R: Threads + Sync, G: Gate + Send>(
    rt: &R,
    board: &Board,
    front: &mut [Worker],
    back: &mut [Worker],
    first: &mut [G],
    second: &mut [G],
)
    requires some { (0 < length front.old) × (0 < length back.old) }
    requires gates { (length front.old ≤ length first.old) × (length back.old ≤ length second.old) }
    requires ready { All (IsReady board.now) front.old × All (IsReady board.now) back.old }
    ensures front { HaveRun (λ g. G.quits g) board.now front.old front.new first.old first.new }
    ensures back { HaveRun (λ g. G.quits g) board.now back.old back.new second.old second.new }
{
    join_mut(
        rt,
        &mut ||
            requires rt { IsSync R.row }
            requires some { 0 < length front.now }
            requires gates { length front.now ≤ length first.now }
            requires ready { All (IsReady board.now) front.now }
            ensures { HaveRun (λ g. G.quits g) board.entry.now front.entry.now front.exit.now first.entry.now first.exit.now }
        { run_some(rt, board, front, first) },
        &mut ||
            requires rt { IsSync R.row }
            requires some { 0 < length back.now }
            requires gates { length back.now ≤ length second.now }
            requires ready { All (IsReady board.now) back.now }
            ensures { HaveRun (λ g. G.quits g) board.entry.now back.entry.now back.exit.now second.entry.now second.exit.now }
        { run_some(rt, board, back, second) },
    );
}

// Some workers make their tries at once, each with the gate of its place.
#[cycle(halving)]
fn run_some<R: Threads + Sync, G: Gate + Send>(
    rt: &R,
    board: &Board,
    workers: &mut [Worker],
    gates: &mut [G],
)
    requires some { 0 < length workers.old }
    requires gates { length workers.old ≤ length gates.old }
    requires ready { All (IsReady board.now) workers.old }
    ensures { HaveRun (λ g. G.quits g) board.now workers.old workers.new gates.old gates.new }
{
    if workers.len() == 1 {
        run_first(board, workers, gates);
        return;
    }
    let half = workers.len() / 2;
    let (front, back) = workers.split_at_mut(half);
    let (first, second) = gates.split_at_mut(half);
    run_both(rt, board, front, back, first, second);
}

// All workers of a round make their tries at once, each with the gate of its place.
pub(crate) fn run_all<R: Threads + Sync, G: Gate + Send>(
    rt: &R,
    board: &Board,
    mut workers: Vec<Worker>,
    gates: &mut [G],
) -> Vec<Worker>
    requires some { 0 < length workers.items }
    requires gates { length workers.items ≤ length gates.old }
    requires ready { All (IsReady board.now) workers.items }
    ensures ran { HaveRun (λ g. G.quits g) board.now workers.items result.items gates.old gates.new }
    ensures count { length result.items ≡ length workers.items }
{
    run_some(rt, board, workers.as_mut_slice(), gates);
    workers
}
