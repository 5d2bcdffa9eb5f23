// The texts of the commands that solve.
ghost use Rattle.std.specs.Prelude.{◌≡◌, ◌≤◌, IfOk};
ghost use Rattle.report_io.specs.Report.{report_text};
ghost use Rattle.report_io.specs.declared.report.Report.{Report};
ghost use Rattle.solve_report.specs.Texts.{IsRunReport, IsSolvedLine};

use crate::reports::solved_report;
use generator::{Kind, generate};
use instance_io::Instance;
use mcp_outside::{Gate, NoMemory, OpenGate};
use report_io::{Part, write_part, write_report};
use solver::Search;
use std::alloc::Global;
use std::thread::Threads;

/// The text of the report of an instance, solved with so many edit workers and so many bound workers, at most 16 each, of
/// at most 1,000 rounds.
pub fn solved_text<R: Threads + Sync, G: Gate + Sync>(
    rt: &R,
    alloc: Global,
    instance: Instance,
    edit_workers: u32,
    search: Search,
    gate: &G,
) -> Result<Vec<u8>, NoMemory>
    requires edit_workers { edit_workers ≤ 16 }
    requires workers { search.workers ≤ 16 }
    requires rounds { search.rounds ≤ 1000 }
    ensures { IfOk result (λ text. (r : Report)
        × IsRunReport instance edit_workers search.workers search.rounds search.seed r
        × (text.items ≡ report_text r)) }
{
    let report = solved_report(rt, alloc, instance, edit_workers, search, gate)?;
    let text = write_report(alloc, &report)?;
    Ok(text)
}

/// The summary line of the report of an instance made from a number, solved without workers.
pub fn solved_line<R: Threads + Sync>(
    rt: &R,
    alloc: Global,
    kind: Kind,
    n: u32,
    seed: u64,
) -> Result<Vec<u8>, NoMemory>
    requires least { 3 ≤ n }
    requires most { n ≤ 5000 }
    ensures { IfOk result (λ text. IsSolvedLine kind n seed text.items) }
{
    let instance = generate(alloc, kind, n, seed)?;
    let search = Search {
        workers: 0,
        rounds: 0,
        seed,
    };
    let report = solved_report(rt, alloc, instance, 0, search, &OpenGate)?;
    let mut text = write_part(alloc, &report, Part::Summary)?;
    text.push(b'\n')?;
    Ok(text)
}
