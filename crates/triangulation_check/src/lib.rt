//! Whether a list of segments is a triangulation of a point set. It takes no memory. The start of a report is tested by it.
#![tactic(auto)]

ghost use Rattle.std.specs.Prelude.{◌<◌, ◌^◌, ◌↔◌, length, IsTrue};
ghost use Rattle.partition_defs.specs.Partition.{AreWithin, IsConvexPartition};
ghost use Rattle.partition_defs.specs.Triangulation.{AreDistinct, IsTriangulation};

mod apexes;
mod ends;
mod joined;
mod plain;

use apexes::have_apexes;
use cp_judge::{Judgement, judge};
use joined::are_all_joined;
use partition_defs::laws::triangulation_is_convex_partition;
use plane::{Pair, Points};

// Whether the segments differ and are a convex partition.
fn is_partition(points: &Points, list: &[Pair]) -> bool
    requires within { AreWithin points.now list.now }
    requires fewer { length list.now < 2 ^ 32 }
    ensures { IsTrue result ↔ (AreDistinct list.now × IsConvexPartition points.now list.now) }
{
    match judge(points, list) {
        Judgement::Convex(_) => true,
        _ => false,
    }
}

/// Whether the segments differ and are a triangulation. The ends are indices of points. (Textbook. A triangulation is a
/// convex partition, so that is judged first; the triangles of one are told by the directions round each point.)
pub fn is_triangulation(points: &Points, list: &[Pair]) -> bool
    requires within { AreWithin points.now list.now }
    requires fewer { length list.now < 2 ^ 32 }
    ensures { IsTrue result ↔ (AreDistinct list.now × IsTriangulation points.now list.now) }
{
    triangulation_is_convex_partition(points);
    if !is_partition(points, list) {
        return false;
    }
    are_all_joined(points, list) && have_apexes(points, list)
}

#[cfg(test)]
mod tests;
