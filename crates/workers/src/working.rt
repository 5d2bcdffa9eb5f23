// All workers at work.
ghost use Rattle.std.specs.Prelude.{◌≡◌, ◌<◌, ◌≤◌, ℕ, length, All, IfOk, slice_index_or};
ghost use Rattle.std.specs.List.{AllByRecursion};
ghost use Rattle.seats.specs.Seats.{SeatSeen};
ghost use Rattle.workers.specs.Worked.{CanBePriced, HaveWorked, ArePriced};
ghost use Rattle.workers.specs.Jobs.{IsReady, IsDone};
ghost use Rattle.workers.specs.declared.jobs.Job.{Job as TheJob};

use crate::jobs::{Job, Plan, all_jobs, run_job};
use crate::results::results_of;
use board::{Board, Pass};
use cost_defs::Costs;
use dual_prices::Certificate;
use mcp_outside::{Gate, NoMemory};
use std::alloc::Global;
use std::thread::{Threads, for_each_mut};

// Does all jobs, each in a thread of its own where one can be made, else one after another.
fn run_jobs<R: Threads + Sync, G: Gate + Sync>(
    rt: &R,
    alloc: Global,
    board: &Board,
    costs: &Costs,
    start: &Certificate,
    plan: Plan,
    gate: &G,
    jobs: &mut [Job],
)
    requires rounds { plan.rounds ≤ 1000 }
    requires start { CanBePriced board.now.root.points costs.now start.now }
    requires ready { All (IsReady board.now) jobs.old }
    ensures len { length jobs.new ≡ length jobs.old }
    ensures done { (i : ℕ) (d : TheJob) → i < length jobs.old →
        IsDone board.now costs.now start.now plan.rounds plan.seed (slice_index_or jobs.old i d) (slice_index_or jobs.new i d) }
{
    let threads = jobs.len().max(1);
    for_each_mut(
        rt,
        jobs,
        threads,
        &|_, job: &mut Job|
            requires { IsReady board.now job.old × (plan.rounds ≤ 1000)
                × CanBePriced board.now.root.points costs.now start.now }
            ensures { IsDone board.entry.now costs.entry.now start.entry.now plan.rounds plan.seed job.old job.new }
        { run_job(alloc, board, costs, start, plan, gate, job) },
    );
}

/// Has all workers work beside each other: an edit worker for each pass of the board, with the words of the stream of its
/// caller, and so many bound workers from a certificate, worker b, from 1, with the words of the stream 100 + b. Each is in
/// a thread of its own where one can be made; else one works after another. It gives the passes in the same order, and
/// what each bound worker found. Without memory the passes are given up, and the commits made so far stand. (This
/// project's own.)
pub fn work_all<R: Threads + Sync, G: Gate + Sync>(
    rt: &R,
    alloc: Global,
    board: &Board,
    costs: &Costs,
    passes: Vec<Pass>,
    start: &Certificate,
    bound_workers: u32,
    rounds: u32,
    seed: u64,
    gate: &G,
) -> Result<(Vec<Pass>, Vec<Certificate>), NoMemory>
    requires some { 1 ≤ length passes.items }
    requires few { length passes.items ≤ 16 }
    requires of { AllByRecursion (λ (p : SeatSeen). p.of ≡ board.now) passes.items }
    requires bound_workers { bound_workers ≤ 16 }
    requires rounds { rounds ≤ 1000 }
    requires start { CanBePriced board.now.root.points costs.now start.now }
    ensures passes { IfOk result (λ r. HaveWorked board.now costs.now rounds seed passes.items r.0.items) }
    ensures found { IfOk result (λ r. length r.1.items ≡ bound_workers) }
    ensures priced { IfOk result (λ r.
        ArePriced board.now.root.points costs.now start.now rounds seed 1 r.1.items) }
{
    let plan = Plan { rounds, seed };
    let mut jobs = all_jobs(alloc, passes, bound_workers)?;
    run_jobs(
        rt,
        alloc,
        board,
        costs,
        start,
        plan,
        gate,
        jobs.as_mut_slice(),
    );
    let results = results_of(alloc, jobs)?;
    Ok((results.passes, results.found))
}
