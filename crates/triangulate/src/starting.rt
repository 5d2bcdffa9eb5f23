// The start: the sweep triangulation as a subdivision, and as an ascending list.
ghost use Rattle.std.specs.Prelude.{◌≡◌, IfOk, OnOk};
ghost use Rattle.partition_defs.specs.Ascending.{IsAscending};
ghost use Rattle.subdivision.specs.Layout.{IsSubdivision};
ghost use Rattle.triangulate.specs.Start.{IsStart, IsSortedStart};

use crate::sweep::sweep_pairs;
use mcp_outside::NoMemory;
use plane::{Pair, Points};
use std::alloc::Global;
use subdivision::Subdivision;

/// The segments of the start, ascending by the smaller and then the larger index: exactly the sweep pairs, which are a
/// triangulation. (This project's own choice of a fixed start, after the textbook's sweep.)
pub fn start_pairs(alloc: Global, points: &Points) -> Result<Vec<Pair>, NoMemory>
    ensures ascending { IfOk result (λ list. IsAscending list.items) }
    ensures start { IfOk result (λ list. IsStart points.now list.items) }
{
    let mut list = sweep_pairs(alloc, points)?;
    sort(points, &mut list)?;
    Ok(list)
}

// Puts the segments of the start into ascending order.
fn sort(points: &Points, list: &mut Vec<Pair>) -> Result<(), NoMemory>
    requires { IsStart points.now list.old.items }
    ensures { OnOk result (IsSortedStart points.now list.new.items) }
{
    let _ = points;
    Ok(list.sort()?)
}

/// The start as a subdivision in which all segments are kept.
pub fn start(alloc: Global, points: &Points) -> Result<Subdivision, NoMemory>
    ensures points { IfOk result (λ s. s.points ≡ points.now) }
    ensures kept { IfOk result (λ s. s.kept ≡ s.all) }
    ensures start { IfOk result (λ s. IsStart points.now s.all) }
    ensures subdivision { IfOk result IsSubdivision }
{
    let list = start_pairs(alloc, points)?;
    Subdivision::from_pairs(alloc, points, list.as_slice())
}
