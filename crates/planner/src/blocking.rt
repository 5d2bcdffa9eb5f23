// Drops that are seen not to fit before any edit of a plan is made.
ghost use Rattle.std.specs.Prelude.{◌≡◌, IsTrue};
ghost use Rattle.journal_defs.specs.Table.{IsOpened};
ghost use Rattle.journal_defs.specs.Turns.{FitInTurn};
ghost use Rattle.plan_defs.specs.Plans.{star_in};
ghost use Rattle.planner.specs.Region.{sights, AreFor, DoAgree};
ghost use Rattle.planner.specs.Blocking.{Blocks, OpensUntouched};

use crate::building::are_touched;
use crate::region::Region;
use edit::opens_without;
use journal_defs::Edit;
use plane::Points;
use star::Stars;

// Whether a need opens at v without its pair with w, as the region shows v.
fn opens_end(points: &Points, region: &Region, v: u32, w: u32) -> bool
    requires points { AreFor points.now region.now }
    requires agree { DoAgree points.now region.now }
    ensures { IsTrue result → IsOpened points.now (star_in points.now (sights region.now) v) v w }
{
    match region.star(v) {
        Some(star) => opens_without(points, star, w, true),
        None => false,
    }
}

fn opens_untouched(points: &Points, region: &Region, before: &[Edit], v: u32, w: u32) -> bool
    requires points { AreFor points.now region.now }
    requires agree { DoAgree points.now region.now }
    ensures { IsTrue result → OpensUntouched points.now (star_in points.now (sights region.now)) before.now v w }
{
    !are_touched(before, v) && opens_end(points, region, v, w)
}

// Whether the edit is a drop without which a need opens at an end that no edit before it touches.
fn blocks(points: &Points, region: &Region, before: &[Edit], edit: &Edit) -> bool
    requires points { AreFor points.now region.now }
    requires agree { DoAgree points.now region.now }
    ensures { IsTrue result → Blocks points.now (star_in points.now (sights region.now)) before.now edit.now }
{
    match *edit {
        Edit::Drop(e) => {
            opens_untouched(points, region, before, e.lo(), e.hi())
                || opens_untouched(points, region, before, e.hi(), e.lo())
        }
        _ => false,
    }
}

/// Whether one of the edits is seen not to fit in its turn, without making those before it. Most moves of a search are
/// refused so.
pub fn are_blocked(points: &Points, region: &Region, edits: &[Edit]) -> bool
    requires points { AreFor points.now region.now }
    requires agree { DoAgree points.now region.now }
    ensures { IsTrue result → ¬ FitInTurn points.now (star_in points.now (sights region.now)) edits.now }
{
    for k in 0..edits.len() {
        if blocks(points, region, &edits[..k], &edits[k]) {
            return true;
        }
    }
    false
}
