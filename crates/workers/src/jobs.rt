// A worker's job.
ghost use Rattle.std.specs.Prelude.{◌≡◌, ◌+◌, ◌<◌, ◌≤◌, true, [], ◌++◌, map, length, IfOk, vec_capacity};
ghost use Rattle.index_sets.specs.Indices.{numbers_from};
ghost use Rattle.search_worker.specs.Working.{IsFurther};
ghost use Rattle.workers.specs.Worked.{CanBePriced, HasWorked};
ghost use Rattle.workers.specs.Jobs.{edit_job, bound_job, IsReady, IsDone, IsFoundOrNone};

use board::{Board, Pass};
use bound_worker::price;
use cost_defs::Costs;
use dual_prices::Certificate;
use mcp_outside::{Gate, NoMemory};
use search_worker::work;
use std::alloc::Global;

/// A job: an edit worker's owns its pass, and knows whether the work came to its end; a bound worker's has the place of
/// what it finds.
#[derive(Drop)]
pub(crate) enum Job {
    Edit {
        pass: Pass,
        ended: bool,
    },
    Bound {
        worker: u32,
        found: Option<Certificate>,
    },
}

/// How the workers work.
#[derive(Clone, Copy)]
pub(crate) struct Plan {
    pub(crate) rounds: u32,
    pub(crate) seed: u64,
}

// The words of bound worker b, from 1, have the stream 100 + b.
const FIRST_STREAM: u64 = 100;

// The jobs of the bound workers, after those of the passes.
fn add_bound_jobs(jobs: &mut Vec<Job>, bound_workers: u32) -> Result<(), NoMemory>
    requires few { bound_workers ≤ 16 }
    ensures { IfOk result (λ _. jobs.new.items ≡ jobs.old.items ++ map bound_job (numbers_from 1 bound_workers)) }
{
    for k in 0..bound_workers {
        jobs.push(Job::Bound {
            worker: k + 1,
            found: None,
        })?;
    }
    Ok(())
}

// The jobs of the passes, in order.
fn edit_jobs(alloc: Global, passes: Vec<Pass>) -> Result<Vec<Job>, NoMemory>
    ensures { IfOk result (λ jobs. jobs.items ≡ map edit_job passes.items) }
{
    let mut jobs = Vec::new(alloc);
    for pass in passes {
        jobs.push(Job::Edit { pass, ended: false })?;
    }
    Ok(jobs)
}

/// A job for each pass, in order, and then one for each bound worker.
pub(crate) fn all_jobs(
    alloc: Global,
    passes: Vec<Pass>,
    bound_workers: u32,
) -> Result<Vec<Job>, NoMemory>
    requires few { bound_workers ≤ 16 }
    ensures { IfOk result (λ jobs.
        jobs.items ≡ map edit_job passes.items ++ map bound_job (numbers_from 1 bound_workers)) }
{
    let mut jobs = edit_jobs(alloc, passes)?;
    add_bound_jobs(&mut jobs, bound_workers)?;
    Ok(jobs)
}

// An edit worker at work; true where it came to its end.
fn edit<G: Gate>(
    alloc: Global,
    board: &Board,
    costs: &Costs,
    pass: &mut Pass,
    plan: Plan,
    gate: &G,
) -> bool
    requires of { pass.old.of ≡ board.now }
    requires rounds { plan.rounds ≤ 1000 }
    ensures { result ≡ true → HasWorked board.now costs.now plan.rounds plan.seed pass.old pass.new }
{
    match work(alloc, board, costs, pass, plan.rounds, plan.seed, gate) {
        Ok(_log) => true,
        Err(NoMemory) => false,
    }
}

// A bound worker at work; none where memory wasn't found.
fn bound(
    alloc: Global,
    board: &Board,
    costs: &Costs,
    start: &Certificate,
    plan: Plan,
    worker: u32,
) -> Option<Certificate>
    requires few { worker ≤ 16 }
    requires start { CanBePriced board.now.root.points costs.now start.now }
    ensures { IsFoundOrNone board.now.root.points costs.now start.now plan.rounds plan.seed worker result }
{
    let stream = FIRST_STREAM + u64::from(worker);
    let points = board.points();
    match price(alloc, points, costs, start, plan.rounds, plan.seed, stream) {
        Ok(certificate) => Some(certificate),
        Err(NoMemory) => None,
    }
}

/// Does a job.
pub(crate) fn run_job<G: Gate>(
    alloc: Global,
    board: &Board,
    costs: &Costs,
    start: &Certificate,
    plan: Plan,
    gate: &G,
    job: &mut Job,
)
    requires ready { IsReady board.now job.old }
    requires rounds { plan.rounds ≤ 1000 }
    requires start { CanBePriced board.now.root.points costs.now start.now }
    ensures { IsDone board.now costs.now start.now plan.rounds plan.seed job.old job.new }
{
    match job {
        Job::Edit { pass, ended } => *ended = edit(alloc, board, costs, pass, plan, gate),
        Job::Bound { worker, found } => {
            *found = bound(alloc, board, costs, start, plan, *worker);
        }
    }
}
