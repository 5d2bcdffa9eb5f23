// The summary of a solved instance.
ghost use Rattle.std.specs.Prelude.{◌≡◌, ◌+◌, ◌<◌, ◌≤◌, ◌^◌, ℕ, length, map, IfOk};
ghost use Rattle.std.specs.List.{range_with_len};
ghost use Rattle.cost_defs.specs.Costs.{total};
ghost use Rattle.journal_defs.specs.Journal.{made};
ghost use Rattle.solve_report.specs.Reports.{counts, IsSummary};

use cost_defs::Costs;
use journal_defs::Commit;
use mcp_outside::NoMemory;
use report_io::{Counts, Summary};
use solver::Solved;
use std::alloc::Global;

// How many commits the caller has made.
fn made_by(journal: &[Commit], caller: u32) -> u32
    requires { length journal.now < 2 ^ 32 }
    ensures { result ≡ made caller journal.now }
{
    journal
        .iter()
        .filter(|commit| commit.caller == caller)
        .count() as u32
}

// How many commits each of the callers has made, from caller 0 on.
fn counts_of(alloc: Global, journal: &[Commit], edit_workers: u32) -> Result<Vec<u32>, NoMemory>
    requires few { length journal.now < 2 ^ 32 }
    requires workers { edit_workers ≤ 16 }
    ensures { IfOk result (λ list. list.items ≡ counts edit_workers journal.now) }
{
    let mut list = Vec::new(alloc);
    for caller in 0..edit_workers + 1 {
        list.push(made_by(journal, caller))?;
    }
    Ok(list)
}

/// The summary of what a run made of an instance, in version 2.
pub fn summary_of(
    alloc: Global,
    costs: &Costs,
    run: &Solved,
    edit_workers: u32,
) -> Result<Summary, NoMemory>
    requires workers { edit_workers ≤ 16 }
    requires few { length run.now.kept.items ≤ 15000 }
    requires short { length run.now.journal.items < 2 ^ 32 }
    requires below { run.now.bound ≤ total costs.now run.now.kept.items }
    ensures { IfOk result
        (IsSummary costs.now edit_workers run.now.journal.items run.now.kept.items run.now.bound) }
{
    let commits = counts_of(alloc, &run.journal, edit_workers)?;
    let cost = costs.total(&run.kept);
    Ok(Summary {
        bound: run.bound,
        commits: Counts::make(commits),
        cost,
        edges: run.kept.len() as u32,
        gap: cost - run.bound,
        optimal: cost == run.bound,
        version: 2,
    })
}
