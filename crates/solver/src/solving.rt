// A run, from an instance to its parts.
ghost use Rattle.std.specs.Prelude.{◌≡◌, ◌≤◌, ◌⊎◌, length, IfOk};
ghost use Rattle.partition_defs.specs.Ascending.{IsAscending};
ghost use Rattle.triangulate.specs.Start.{IsStart};
ghost use Rattle.journal_defs.specs.Journal.{replay};
ghost use Rattle.solver.specs.Solving.{IsSolvedBy};

use crate::sweeping::{swept_again, swept_core};
use crate::working::work_on;
use cost_defs::Costs;
use dual_prices::Certificate;
use journal_defs::Commit;
use lower_bounds::{LowerBound, Search, basis_of, bound_from, lower_bound};
use mcp_outside::{Gate, NoMemory};
use plane::{Pair, Points};
use replay::Core;
use std::alloc::Global;
use std::thread::Threads;
use subdivision::Subdivision;
use triangulate::start;

/// A solved instance: its points, and what a run made of them.
#[derive(Drop)]
pub struct Solved {
    /// The points, as they were handed in.
    pub points: Points,
    /// The segments of the start triangulation, ascending.
    pub start: Vec<Pair>,
    /// What was done to the start, one commit after the other.
    pub journal: Vec<Commit>,
    /// The segments that are kept in the end, ascending: the solution.
    pub kept: Vec<Pair>,
    pub certificate: Certificate,
    /// What the certificate shows: no convex partition costs less.
    pub bound: u64,
}

/// Solves an instance with so many edit workers and so many bound workers, at most 16 each, of at most 1,000 rounds. The
/// start is the sweep triangulation; its sweep goes through it once, in ascending order, and drops each segment that can
/// go at its moment. Edit workers share a board of what is left, and what they leave is swept once more; without them a
/// second sweep would find nothing. (This project's own.)
pub fn solve<R: Threads + Sync, G: Gate + Sync>(
    rt: &R,
    alloc: Global,
    points: Points,
    costs: &Costs,
    edit_workers: u32,
    search: Search,
    gate: &G,
) -> Result<Solved, NoMemory>
    requires edit_workers { edit_workers ≤ 16 }
    requires workers { search.workers ≤ 16 }
    requires rounds { search.rounds ≤ 1000 }
    ensures { IfOk result (IsSolvedBy points costs.now edit_workers search) }
{
    let all = start(alloc, &points)?;
    if edit_workers == 0 || search.rounds == 0 {
        plain(rt, alloc, points, costs, all, edit_workers, search)
    } else {
        worked(rt, alloc, points, costs, all, edit_workers, search, gate)
    }
}

// The run in which no edit worker makes a round.
fn plain<R: Threads + Sync>(
    rt: &R,
    alloc: Global,
    points: Points,
    costs: &Costs,
    all: Subdivision,
    edit_workers: u32,
    search: Search,
) -> Result<Solved, NoMemory>
    requires none { (edit_workers ≡ 0) ⊎ (search.rounds ≡ 0) }
    requires workers { search.workers ≤ 16 }
    requires points { all.points ≡ points }
    requires kept { all.kept ≡ all.all }
    requires start { IsStart points all.all }
    requires ascending { IsAscending all.all }
    ensures { IfOk result (IsSolvedBy points costs.now edit_workers search) }
{
    let _count = points.len();
    let found = lower_bound(rt, alloc, &points, costs, &all, search)?;
    let core = swept_core(points, all)?;
    parts_of(core, found)
}

// The run with edit workers at work.
fn worked<R: Threads + Sync, G: Gate + Sync>(
    rt: &R,
    alloc: Global,
    points: Points,
    costs: &Costs,
    all: Subdivision,
    edit_workers: u32,
    search: Search,
    gate: &G,
) -> Result<Solved, NoMemory>
    requires some { (1 ≤ edit_workers) × (edit_workers ≤ 16) }
    requires workers { search.workers ≤ 16 }
    requires rounds { (1 ≤ search.rounds) × (search.rounds ≤ 1000) }
    requires points { all.points ≡ points }
    requires kept { all.kept ≡ all.all }
    requires start { IsStart points all.all }
    requires ascending { IsAscending all.all }
    ensures { IfOk result (IsSolvedBy points costs.now edit_workers search) }
{
    let _count = points.len();
    let basis = basis_of(alloc, &points, costs, &all)?;
    let core = swept_core(points, all)?;
    let first = &basis.first;
    let (core, found) = work_on(rt, alloc, core, costs, first, edit_workers, search, gate)?;
    let core = swept_again(core)?;
    let found = bound_from(core.points(), costs, basis, found, search)?;
    parts_of(core, found)
}

// The parts of a run.
fn parts_of(core: Core, found: LowerBound) -> Result<Solved, NoMemory>
    ensures points { IfOk result (λ run. run.points ≡ core.points) }
    ensures start { IfOk result (λ run. run.start.items ≡ core.start) }
    ensures journal { IfOk result (λ run. run.journal.items ≡ core.journal) }
    ensures kept { IfOk result (λ run. run.kept.items ≡ (replay core.start core.journal).kept) }
    ensures certificate { IfOk result (λ run. run.certificate ≡ found.certificate) }
    ensures bound { IfOk result (λ run. run.bound ≡ found.bound) }
{
    let kept = core.kept()?;
    let (points, start, journal, _) = core.into_parts();
    Ok(Solved {
        points,
        start,
        journal,
        kept,
        certificate: found.certificate,
        bound: found.bound,
    })
}
