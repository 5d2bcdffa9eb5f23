// Four threads hand in random plans, legal and not, on 40 points; the plain program replays what came of it.
ghost use Rattle.std.specs.Prelude.{◌≡◌, All, IfOk, OnOk};
ghost use Rattle.std.specs.List.{AllByRecursion};
ghost use Rattle.seats.specs.Seats.{SeatSeen};

use super::making::{Answer, board_of, core_of, hand_in, last_of, pair, put_back};
use board::{Board, Pass};
use journal_defs::{Edit, after_all, first_illegal, is_within, opening};
use mcp_outside::OpenGate;
use partition_defs::is_convex_partition_plain;
use replay::Core;
use std::alloc::Global;
use std::process::Abort;
use std::test::Fail;
use std::thread;
use std::thread::Threads;

const PLANS: u32 = 5_000;

/// A pass at work, and how its plans went.
#[derive(Drop)]
pub struct Worker {
    pub pass: Pass,
    pub seed: u64,
    pub entered: u64,
    pub refused: u64,
}

// The next number of a linear congruence.
fn next(seed: u64) -> u64 {
    (seed % 0x8000_0000 * 1_103_515_245 + 12_345) % 0x8000_0000
}

// A number below a bound from it.
fn below(seed: u64, bound: u32) -> u32 {
    if bound == 0 {
        0
    } else {
        ((seed / 1024) % bound as u64) as u32
    }
}

// A vertex and a neighbour of it, whether their pair is kept, and the neighbours on either side of that one.
#[derive(Clone, Copy)]
struct Found {
    vertex: u32,
    other: u32,
    kept: bool,
    before: u32,
    behind: u32,
}

fn any_pair(board: &Board, pass: &mut Pass, seed: u64) -> Option<Found>
    requires of { pass.old.of ≡ board.now }
    ensures of { pass.new.of ≡ board.now }
{
    let vertex = below(seed, board.points().len());
    if vertex >= board.points().len() {
        return None;
    }
    let Ok(look) = board.look(pass, vertex) else {
        return None;
    };
    let degree = look.star.degree();
    let k = below(next(seed), degree);
    if k >= degree {
        return None;
    }
    let before = if k == 0 { degree - 1 } else { k - 1 };
    let behind = if k == degree - 1 { 0 } else { k + 1 };
    let (other, kept) = look.star.at(k);
    Some(Found {
        vertex,
        other,
        kept,
        before: look.star.at(before).0,
        behind: look.star.at(behind).0,
    })
}

fn stamp_of(board: &Board, pass: &mut Pass, v: u32) -> u64
    requires of { pass.old.of ≡ board.now }
    ensures of { pass.new.of ≡ board.now }
{
    if v >= board.points().len() {
        return 0;
    }
    match board.look(pass, v) {
        Ok(look) => look.stamp,
        Err(_) => 0,
    }
}

// A plan to drop or keep a pair. One in 32 is well meant; the others want to keep what is kept, or drop what isn't.
fn try_one(board: &Board, pass: &mut Pass, found: Found, seed: u64) -> Answer
    requires of { pass.old.of ≡ board.now }
    ensures of { pass.new.of ≡ board.now }
{
    let e = pair(found.vertex, found.other);
    let well = below(next(seed), 32) == 0;
    let edits = if found.kept == well {
        [Edit::Drop(e)]
    } else {
        [Edit::Keep(e)]
    };
    let lo = e.lo();
    let hi = e.hi();
    let claims = [
        (lo, stamp_of(board, pass, lo)),
        (hi, stamp_of(board, pass, hi)),
    ];
    hand_in(board, pass, &edits, &claims, &OpenGate)
}

// A plan to flip a pair.
fn try_flip(board: &Board, pass: &mut Pass, found: Found) -> Answer
    requires of { pass.old.of ≡ board.now }
    ensures of { pass.new.of ≡ board.now }
{
    let mut ends = [found.vertex, found.other, found.before, found.behind];
    ends.sort_unstable();
    let [a, b, c, d] = ends;
    let edits = [Edit::Flip {
        from: pair(found.vertex, found.other),
        to: pair(found.before, found.behind),
    }];
    let claims = [
        (a, stamp_of(board, pass, a)),
        (b, stamp_of(board, pass, b)),
        (c, stamp_of(board, pass, c)),
        (d, stamp_of(board, pass, d)),
    ];
    hand_in(board, pass, &edits, &claims, &OpenGate)
}

fn try_plan(board: &Board, pass: &mut Pass, seed: u64) -> Answer
    requires of { pass.old.of ≡ board.now }
    ensures of { pass.new.of ≡ board.now }
{
    let Some(found) = any_pair(board, pass, seed) else {
        return Answer::NoPlan;
    };
    let seed = next(next(seed));
    if below(seed, 32) == 0 {
        try_flip(board, pass, found)
    } else {
        try_one(board, pass, found, seed)
    }
}

fn work(board: &Board, worker: &mut Worker)
    requires { worker.old.pass.of ≡ board.now }
    ensures { worker.new.pass.of ≡ board.now }
{
    for _ in 0..PLANS {
        worker.seed = next(next(worker.seed));
        match try_plan(board, &mut worker.pass, worker.seed) {
            Answer::Entered(_) => worker.entered = worker.entered.saturating_add(1),
            _ => worker.refused = worker.refused.saturating_add(1),
        }
    }
}

fn work_all<R: Threads + Sync>(rt: &R, board: &Board, workers: &mut [Worker])
    requires { All (λ w. w.pass.of ≡ board.now) workers.old }
    ensures { All (λ w. w.pass.of ≡ board.now) workers.new }
{
    let threads = workers.len().max(1);
    thread::for_each_mut(
        rt,
        workers,
        threads,
        &|_, worker: &mut Worker|
            requires { worker.old.pass.of ≡ board.now }
            ensures { worker.new.pass.of ≡ board.entry.now }
        { work(board, worker) },
    );
}

fn add_worker(board: &Board, workers: &mut Vec<Worker>, pass: Pass, seed: u64) -> Result<(), Fail>
    requires pass { pass.of ≡ board.now }
    requires workers { All (λ w. w.pass.of ≡ board.now) workers.old.items }
    ensures { OnOk result (All (λ w. w.pass.of ≡ board.now) workers.new.items) }
{
    let _points = board.points();
    workers.push(Worker {
        pass,
        seed,
        entered: 0,
        refused: 0,
    })?;
    Ok(())
}

fn last_worker(board: &Board, workers: &mut Vec<Worker>) -> Result<Worker, Fail>
    requires { All (λ w. w.pass.of ≡ board.now) workers.old.items }
    ensures worker { IfOk result (λ w. w.pass.of ≡ board.now) }
    ensures rest { All (λ w. w.pass.of ≡ board.now) workers.new.items }
{
    let _points = board.points();
    let last = workers.pop();
    let Some(worker) = last else {
        return Err(Fail::from("no worker"));
    };
    Ok(worker)
}

// Four workers, each with a pass.
fn workers_of(alloc: Global, board: &Board, passes: &mut Vec<Pass>) -> Result<Vec<Worker>, Fail>
    requires { AllByRecursion (λ (p : SeatSeen). p.of ≡ board.now) passes.old.items }
    ensures workers { IfOk result (λ v. All (λ w. w.pass.of ≡ board.now) v.items) }
    ensures rest { OnOk result (AllByRecursion (λ (p : SeatSeen). p.of ≡ board.now) passes.new.items) }
{
    let mut workers = Vec::new(alloc);
    for seed in 1..5 {
        let pass = last_of(board, passes)?;
        add_worker(board, &mut workers, pass, seed)?;
    }
    Ok(workers)
}

// How many plans of theirs were entered and refused. Their passes are put back.
fn tally(
    board: &Board,
    workers: &mut Vec<Worker>,
    passes: &mut Vec<Pass>,
) -> Result<(u64, u64), Fail>
    requires workers { All (λ w. w.pass.of ≡ board.now) workers.old.items }
    requires passes { AllByRecursion (λ (p : SeatSeen). p.of ≡ board.now) passes.old.items }
    ensures { OnOk result (AllByRecursion (λ (p : SeatSeen). p.of ≡ board.now) passes.new.items) }
{
    let mut entered = 0u64;
    let mut refused = 0u64;
    for _ in 0..4 {
        let worker = last_worker(board, workers)?;
        entered = entered.saturating_add(worker.entered);
        refused = refused.saturating_add(worker.refused);
        put_back(board, passes, worker.pass)?;
    }
    Ok((entered, refused))
}

// The points of a small scatter.
fn scatter() -> [(i64, i64); 40] {
    let mut points = [(0, 0); 40];
    let mut seed = 7;
    for k in 0..40 {
        seed = next(seed);
        let x = below(seed, 1_000) as i64;
        seed = next(seed);
        points[k] = (x * 40 + k as i64, below(seed, 1_000) as i64);
    }
    points
}

// Before and after each commit of the journal the kept pairs are a convex partition, and the commit is legal in its turn,
// all by all pairs and all points. What is left last is what the core has.
fn are_legal(alloc: Global, core: &Core) -> Result<bool, Fail> {
    let points = core.points();
    let mut state = opening(alloc, core.start())?;
    for commit in core.journal() {
        if !is_within(points, &state) || !is_convex_partition_plain(points, state.kept()) {
            return Ok(false);
        }
        let edits = commit.edits.as_slice();
        if first_illegal(alloc, points, &state, edits)?.is_some() {
            return Ok(false);
        }
        state = after_all(alloc, edits, state)?;
    }
    let kept = core.kept()?;
    Ok(is_convex_partition_plain(points, state.kept()) && kept.as_slice() == state.kept())
}

#[test]
fn many_plans_of_four_threads(rt: HostRuntime) -> Result<(), Fail> {
    let core = core_of(&rt, rt.alloc(), &scatter())?;
    let (board, mut passes) = board_of(core, 4, 1_000)?;
    let mut workers = workers_of(rt.alloc(), &board, &mut passes)?;
    work_all(&rt, &board, workers.as_mut_slice());
    let (entered, refused) = tally(&board, &mut workers, &mut passes)?;
    let Ok(core) = board.finish(passes) else {
        return Err(Fail::from("not finished"));
    };
    assert_eq!(&rt; core.journal().len() as u64, entered);
    assert!(&rt; entered > 100 && refused > 100);
    assert!(&rt; are_legal(rt.alloc(), &core)?);
    Ok(())
}
