// Edit workers on a board of a core, and bound workers beside them.
ghost use Rattle.std.specs.Prelude.{◌≡◌, ◌≤◌, length, IfOk};
ghost use Rattle.lower_bounds.specs.Found.{IsFirst, AreFound};
ghost use Rattle.solver.specs.Working.{HasBeenWorked};

use board::Board;
use cost_defs::Costs;
use dual_prices::Certificate;
use lower_bounds::Search;
use mcp_outside::{Gate, NoMemory};
use replay::Core;
use std::alloc::Global;
use std::thread::Threads;
use workers::work_all;

/// The core after so many edit workers have worked on a board of it, and what the bound workers beside them found from
/// the first certificate. The board has room for four commits a round of each.
pub fn work_on<R: Threads + Sync, G: Gate + Sync>(
    rt: &R,
    alloc: Global,
    core: Core,
    costs: &Costs,
    first: &Certificate,
    edit_workers: u32,
    search: Search,
    gate: &G,
) -> Result<(Core, Vec<Certificate>), NoMemory>
    requires some { (1 ≤ edit_workers) × (edit_workers ≤ 16) }
    requires workers { search.workers ≤ 16 }
    requires rounds { search.rounds ≤ 1000 }
    requires first { IsFirst core.points costs.now first.now }
    requires few { length core.journal ≤ 15000 }
    ensures worked { IfOk result (λ r. HasBeenWorked costs.now edit_workers search core r.0) }
    ensures found { IfOk result (λ r. AreFound core.points costs.now first.now search r.1.items) }
{
    let room = core.journal().len() as u64 + 4 * u64::from(edit_workers) * u64::from(search.rounds);
    let Ok((board, passes)) = Board::make(core, edit_workers, room) else {
        return Err(NoMemory);
    };
    let Search {
        workers,
        rounds,
        seed,
    } = search;
    let (passes, found) = work_all(
        rt, alloc, &board, costs, passes, first, workers, rounds, seed, gate,
    )?;
    match board.finish(passes) {
        Ok(core) => Ok((core, found)),
        Err(_) => Err(NoMemory),
    }
}
