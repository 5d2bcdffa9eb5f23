// A plain slow program for the definitions: edits are tested on the lists of a state, by all pairs and all points.
ghost use Rattle.std.specs.Prelude.{◌≡◌, ◌<◌, ◌^◌, ◌↔◌, ℕ, length, true, IfOk, IsTrue};
ghost use Rattle.std.specs.List.{Contains};
ghost use Rattle.partition_defs.specs.Partition.{AreWithin};
ghost use Rattle.journal_defs.specs.Edits.{is_end, touches};
ghost use Rattle.journal_defs.specs.Journal.{AreLegal};
ghost use Rattle.edit.specs.Plans.{are_touching};
ghost use Rattle.plan_defs.specs.Shown.{AreFine};

use crate::weighing::is_no_dearer;
use cost_defs::Costs;
use journal_defs::{Edit, Lists, first_illegal};
use mcp_outside::NoMemory;
use plane::{Pair, Points};
use std::alloc::Global;

fn has(looked: &[u32], v: u32) -> bool
    ensures { IsTrue result ↔ Contains looked.now v }
{
    looked.contains(&v)
}

fn has_ends(looked: &[u32], e: Pair) -> bool
    ensures { IsTrue result ↔ ((v : ℕ) → is_end e v ≡ true → Contains looked.now v) }
{
    has(looked, e.lo()) && has(looked, e.hi())
}

// Whether all that the edit touches was looked at.
fn has_touched(looked: &[u32], edit: &Edit) -> bool
    ensures { IsTrue result ↔ ((v : ℕ) → touches edit.now v ≡ true → Contains looked.now v) }
{
    match *edit {
        Edit::Drop(e) => has_ends(looked, e),
        Edit::Keep(e) => has_ends(looked, e),
        Edit::Flip { from, to } => has_ends(looked, from) && has_ends(looked, to),
    }
}

fn has_all_touched(looked: &[u32], edits: &[Edit]) -> bool
    ensures { IsTrue result ↔ ((v : ℕ) → are_touching edits.now v ≡ true → Contains looked.now v) }
{
    for e in edits {
        if !has_touched(looked, e) {
            return false;
        }
    }
    true
}

// Whether each edit is legal in its turn.
fn are_legal(
    alloc: Global,
    points: &Points,
    state: &Lists,
    edits: &[Edit],
) -> Result<bool, NoMemory>
    requires within { AreWithin points.now state.now.all }
    requires few { length edits.now < 2 ^ 32 }
    ensures { IfOk result (λ b. IsTrue b ↔ AreLegal points.now state.now edits.now) }
{
    match first_illegal(alloc, points, state, edits)? {
        None => Ok(true),
        Some(_) => Ok(false),
    }
}

/// Whether edits may be planned by a worker who looked at these vertices of the state: it looked at all that they touch,
/// each is legal in its turn by all pairs and all points, and the Keeps don't cost more than the Drops.
pub fn are_fine(
    alloc: Global,
    points: &Points,
    costs: &Costs,
    state: &Lists,
    looked: &[u32],
    edits: &[Edit],
) -> Result<bool, NoMemory>
    requires within { AreWithin points.now state.now.all }
    requires few { length edits.now < 2 ^ 32 }
    ensures { IfOk result (λ b. IsTrue b ↔ AreFine points.now costs.now state.now (Contains looked.now) edits.now) }
{
    if !has_all_touched(looked, edits) || !is_no_dearer(costs, edits) {
        return Ok(false);
    }
    are_legal(alloc, points, state, edits)
}
