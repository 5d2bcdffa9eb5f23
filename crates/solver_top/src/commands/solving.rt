// The commands `solve` and `gen-solve`.
ghost use Rattle.std.specs.Prelude.{◌≡◌, ◌≤◌, IfOk};
ghost use Rattle.text_defs.specs.Instances.{instance_from};
ghost use Rattle.instance_io.specs.Refusal.{Gives};
ghost use Rattle.solve_report.specs.Texts.{IsSolvedLine};
ghost use Rattle.solver_top.specs.Solving.{IsSolveAnswer};

use crate::answers::Answer;
use crate::commands::refusing::refused_instance;
use crate::status::Verdict;
use generator::Kind;
use instance_io::{Instance, InstanceFault, read_instance};
use mcp_outside::{Gate, NoMemory};
use solve_report::{Search, solved_line, solved_text};
use std::alloc::Global;
use std::thread::Threads;

/// What `solve` answers to an input.
pub fn solved<R: Threads + Sync, G: Gate + Sync>(
    rt: &R,
    alloc: Global,
    bytes: &[u8],
    edit_workers: u32,
    search: Search,
    gate: &G,
) -> Result<Answer, NoMemory>
    requires edit_workers { edit_workers ≤ 16 }
    requires workers { search.workers ≤ 16 }
    requires rounds { search.rounds ≤ 1000 }
    ensures { IfOk result (λ answer. IsSolveAnswer edit_workers search.workers search.rounds search.seed
        bytes.now answer.verdict answer.text.items) }
{
    match read_instance(alloc, bytes) {
        Ok(instance) => solved_instance(rt, alloc, bytes, instance, edit_workers, search, gate),
        Err(InstanceFault::NoMemory) => Err(NoMemory),
        Err(fault) => refused_instance(alloc, bytes, fault),
    }
}

// The report of the instance that an input is.
fn solved_instance<R: Threads + Sync, G: Gate + Sync>(
    rt: &R,
    alloc: Global,
    bytes: &[u8],
    instance: Instance,
    edit_workers: u32,
    search: Search,
    gate: &G,
) -> Result<Answer, NoMemory>
    requires read { Gives (instance_from bytes.now) instance.name instance.points instance.costs }
    requires edit_workers { edit_workers ≤ 16 }
    requires workers { search.workers ≤ 16 }
    requires rounds { search.rounds ≤ 1000 }
    ensures { IfOk result (λ answer. IsSolveAnswer edit_workers search.workers search.rounds search.seed
        bytes.now answer.verdict answer.text.items) }
{
    let _ = bytes;
    let _count = instance.points.len();
    let text = solved_text(rt, alloc, instance, edit_workers, search, gate)?;
    Ok(Answer {
        verdict: Verdict::Done,
        text,
    })
}

/// What `gen-solve` answers: the summary line of an instance made from a number.
pub fn solved_made<R: Threads + Sync>(
    rt: &R,
    alloc: Global,
    kind: Kind,
    n: u32,
    seed: u64,
) -> Result<Answer, NoMemory>
    requires least { 3 ≤ n }
    requires most { n ≤ 5000 }
    ensures done { IfOk result (λ answer. answer.verdict ≡ Verdict.Done) }
    ensures text { IfOk result (λ answer. IsSolvedLine kind n seed answer.text.items) }
{
    let text = solved_line(rt, alloc, kind, n, seed)?;
    Ok(Answer {
        verdict: Verdict::Done,
        text,
    })
}
