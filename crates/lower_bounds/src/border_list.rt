// The border pairs, told from the apexes of a triangulation.
ghost use Rattle.std.specs.Prelude.{◌≡◌, ◌↔◌, IfOk, IsTrue};
ghost use Rattle.std.specs.List.{Contains};
ghost use Rattle.plane.specs.Geometry.{IsBorderPair};
ghost use Rattle.partition_defs.specs.Ascending.{IsAscending};
ghost use Rattle.partition_defs.specs.Triangulation.{IsBorderList, IsTriangulation};

use mcp_outside::NoMemory;
use plane::{Pair, Points};
use std::alloc::Global;
use subdivision::Subdivision;

// Whether a segment of a triangulation has no apex on one of its sides, as the border pairs alone have none.
fn is_at_border(points: &Points, all: &Subdivision, e: Pair) -> bool
    requires points { all.now.points ≡ points.now }
    requires triangulation { IsTriangulation points.now all.now.all }
    requires there { Contains all.now.all e }
    ensures { IsTrue result ↔ IsBorderPair points.now e.lo e.hi }
{
    let is_left_free = all.apex(points, e.lo(), e.hi()).is_none();
    let is_right_free = all.apex(points, e.hi(), e.lo()).is_none();
    is_left_free || is_right_free
}

/// The border pairs, ascending. (Textbook: in a triangulation they are the segments with a triangle on one side alone.)
pub fn border_pairs(
    alloc: Global,
    points: &Points,
    all: &Subdivision,
    pairs: &[Pair],
) -> Result<Vec<Pair>, NoMemory>
    requires points { all.now.points ≡ points.now }
    requires triangulation { IsTriangulation points.now all.now.all }
    requires ascending { IsAscending all.now.all }
    requires pairs { pairs.now ≡ all.now.all }
    ensures { IfOk result (λ list. IsBorderList points.now list.items) }
{
    let mut list = Vec::new(alloc);
    for e in pairs {
        if is_at_border(points, all, *e) {
            list.push(*e)?;
        }
    }
    Ok(list)
}
