// The other ends of the segments at a point.
ghost use Rattle.std.specs.Prelude.{◌<◌, IsTrue, IsFalse};
ghost use Rattle.cp_judge.specs.Ends.{IsOtherEnd, AreEnds, count_at};

use arrayvec::ArrayVec;
use plane::{MOST_POINTS, Pair};

/// The other end of a segment at this point, or none where it isn't at it.
pub fn other_end(e: Pair, p: u32) -> Option<u32>
    ensures { IsOtherEnd e p result }
{
    if e.lo() == p {
        Some(e.hi())
    } else if e.hi() == p {
        Some(e.lo())
    } else {
        None
    }
}

/// Gathers the other ends of the segments at this point, in place of what was there. It answers whether there was room
/// for them, as there is for up to `MOST_POINTS` segments.
pub fn gather_ends(list: &[Pair], p: u32, ends: &mut ArrayVec<u32, MOST_POINTS>) -> bool
    ensures gathered { IsTrue result → AreEnds list.now p ends.new.items }
    ensures full { IsFalse result → MOST_POINTS < count_at list.now p }
{
    ends.clear();
    for e in list {
        if let Some(r) = other_end(*e, p) {
            if ends.try_push(r).is_err() {
                return false;
            }
        }
    }
    true
}
