// Whether the pairs that are kept in the end are those of the solution.
ghost use Rattle.std.specs.Prelude.{◌≡◌, ◌↔◌, length, IfOk, IsTrue};
ghost use Rattle.partition_defs.specs.Sets.{AreSame};
ghost use Rattle.partition_defs.specs.Triangulation.{AreDistinct};
ghost use Rattle.replay.specs.Replayed.{state_of};
ghost use Rattle.report_check.specs.Replays.{IsSortedOf};

use mcp_outside::NoMemory;
use plane::Pair;
use replay::Core;
use std::alloc::Global;

// The pairs, ascending.
fn sorted(alloc: Global, pairs: &[Pair]) -> Result<Vec<Pair>, NoMemory>
    requires { AreDistinct pairs.now }
    ensures { IfOk result (λ list. IsSortedOf pairs.now list.items) }
{
    let mut list = pairs.to_vec(alloc)?;
    list.sort_unstable();
    Ok(list)
}

// Whether two lists are the same.
fn are_equal(one: &[Pair], other: &[Pair]) -> bool
    ensures { IsTrue result ↔ (one.now ≡ other.now) }
{
    one == other
}

/// Whether the kept pairs are those of the solution, which has none twice.
pub fn has_result(alloc: Global, core: &Core, solution: &[Pair]) -> Result<bool, NoMemory>
    requires { AreDistinct solution.now }
    ensures same { IfOk result (λ b. IsTrue b ↔ AreSame (state_of core.now).kept solution.now) }
    ensures count { IfOk result (λ b. IsTrue b → length (state_of core.now).kept ≡ length solution.now) }
{
    let kept = core.kept()?;
    let wanted = sorted(alloc, solution)?;
    Ok(are_equal(kept.as_slice(), wanted.as_slice()))
}
