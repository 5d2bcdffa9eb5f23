// Points that are in no segment.
ghost use Rattle.std.specs.Prelude.{ℕ, ◌↔◌, IsTrue};
ghost use Rattle.partition_defs.specs.Partition.{HasEnds};
ghost use Rattle.triangulation_check.specs.Apexes.{IsJoined, AreAllJoined};

use plane::{Pair, Points};

// Whether the point is an end of the segment.
fn is_end(e: Pair, p: u32) -> bool
    ensures { IsTrue result ↔ ((q : ℕ) × HasEnds e p q) }
{
    e.lo() == p || e.hi() == p
}

// Whether the point is in some segment.
fn is_joined(list: &[Pair], p: u32) -> bool
    ensures { IsTrue result ↔ IsJoined list.now p }
{
    for e in list {
        if is_end(*e, p) {
            return true;
        }
    }
    false
}

/// Whether each point is in some segment.
pub fn are_all_joined(points: &Points, list: &[Pair]) -> bool
    ensures { IsTrue result ↔ AreAllJoined points.now list.now }
{
    for p in 0..points.len() {
        if !is_joined(list, p) {
            return false;
        }
    }
    true
}
