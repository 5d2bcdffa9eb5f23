// The report of an instance that is solved.
ghost use Rattle.std.specs.Prelude.{◌≡◌, ◌≤◌, ◌<◌, ◌^◌, ℕ, length, IfOk};
ghost use Rattle.cost_defs.specs.Costs.{total};
ghost use Rattle.solver.specs.Solving.{IsSolvedBy};
ghost use Rattle.solve_report.specs.Reports.{IsSummary};
ghost use Rattle.solve_report.specs.Texts.{IsRunReport};

use crate::summing::summary_of;
use cost_defs::Costs;
use instance_io::{Instance, Name};
use mcp_outside::{Gate, NoMemory};
use plane::PairList;
use report_io::{CommitList, Report, Summary};
use solver::{Search, Solved, solve};
use std::alloc::Global;
use std::thread::Threads;

// A name again.
fn copy_of(alloc: Global, name: &Name) -> Result<Name, NoMemory>
    ensures { IfOk result (λ copy. copy ≡ name.now) }
{
    let text = String::from_str(alloc, name.as_str())?;
    Ok(Name::make(text))
}

// The report of the parts of a run.
fn report_of(name: Name, solution_name: Name, costs: Costs, run: Solved, summary: Summary) -> Report
    ensures { result ≡ record {
      instance = record { name = name; points = run.points; costs = costs };
      solution_name = solution_name;
      solution = run.kept.items;
      certificate = run.certificate;
      value = run.bound;
      start = run.start.items;
      commits = run.journal.items;
      summary = summary;
    } }
{
    Report {
        instance: Instance {
            name,
            points: run.points,
            costs,
        },
        solution_name,
        solution: PairList::make(run.kept),
        certificate: run.certificate,
        value: run.bound,
        start: PairList::make(run.start),
        commits: CommitList::make(run.journal),
        summary,
    }
}

/// Solves an instance with so many edit workers and so many bound workers, at most 16 each, of at most 1,000 rounds, and
/// reports it. The summary counts the commits of the callers 0 to `edit_workers`. (This project's own.)
pub fn solved_report<R: Threads + Sync, G: Gate + Sync>(
    rt: &R,
    alloc: Global,
    instance: Instance,
    edit_workers: u32,
    search: Search,
    gate: &G,
) -> Result<Report, NoMemory>
    requires edit_workers { edit_workers ≤ 16 }
    requires workers { search.workers ≤ 16 }
    requires rounds { search.rounds ≤ 1000 }
    ensures { IfOk result (IsRunReport instance edit_workers search.workers search.rounds search.seed) }
{
    let Instance {
        name,
        points,
        costs,
    } = instance;
    let _count = points.len();
    let solution_name = copy_of(alloc, &name)?;
    let run = solve(rt, alloc, points, &costs, edit_workers, search, gate)?;
    let summary = summary_of(alloc, &costs, &run, edit_workers)?;
    Ok(report_of(name, solution_name, costs, run, summary))
}
