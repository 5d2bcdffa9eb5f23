ghost use Rattle.std.specs.Prelude.{◌≡◌, ◌+◌, ◌*◌, ◌≤◌, length, IfOk, OnOk};
ghost use Rattle.board.specs.Passes.{IsPass};
ghost use Rattle.round_defs.specs.Rounds.{IsSearched};
ghost use Rattle.search_worker.specs.Working.{tries, HasAdded, IsFurther};

use crate::log::WorkLog;
use crate::round::round;
use board::{Board, Pass};
use cost_defs::Costs;
use mcp_outside::{Gate, NoMemory};
use rand_pcg::Pcg32;
use round_plans::Scratch;
use std::alloc::Global;

/// The rounds of an edit worker, with the words of `Pcg32::new(seed, c)`, c being the caller of the pass. In each round a
/// word picks a vertex; the worker looks at it and at the first 15 of its neighbours, and another word picks the neighbour
/// with which it begins to go through its candidates. It makes the first plan of each kind, and hands in the first four
/// of these; a stale one is refreshed and handed in once more. No Keeps of a plan cost more than its Drops. Without
/// memory the work ends, and what was committed stands. (This project's own.)
pub fn work<G: Gate>(
    alloc: Global,
    board: &Board,
    costs: &Costs,
    pass: &mut Pass,
    rounds: u32,
    seed: u64,
    gate: &G,
) -> Result<WorkLog, NoMemory>
    requires of { pass.old.of ≡ board.now }
    requires rounds { rounds ≤ 1000 }
    ensures added { IfOk result (λ log. HasAdded costs.now log.committed pass.old pass.new) }
    ensures counts { IfOk result (λ log. (log.committed ≤ log.tried) × (log.tried ≤ 4 * rounds)) }
    ensures tries { OnOk result (tries pass.old + rounds ≤ tries pass.new) }
    ensures searched { OnOk result (board.now.callers ≡ 1
        → length pass.old.seen + 4 * rounds ≤ board.now.root.room
        → IsSearched board.now.root.points costs.now board.now.root.start.items pass.old.seen rounds seed pass.new.seen) }
    ensures further { IsFurther pass.old pass.new }
    ensures valid { IsPass pass.new }
{
    let points = board.points();
    let _count = points.len();
    let mut words = Pcg32::new(seed, u64::from(pass.caller()));
    let mut scratch = Scratch::make(alloc);
    let mut log = WorkLog::empty();
    for k in 0..rounds {
        let one = round(board, costs, pass, &mut words, &mut scratch, gate)?;
        log.tried += one.tried;
        log.committed += one.committed;
    }
    Ok(log)
}
