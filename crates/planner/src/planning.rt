// Edits that are given, tried on a region and made a plan.
ghost use Rattle.std.specs.Prelude.{◌≤◌, ◌<◌, ◌↔◌, ◌∷◌, [], List, length, IfOk, IsTrue};
ghost use Rattle.cost_defs.specs.Costs.{Costed};
ghost use Rattle.journal_defs.specs.Turns.{FitInTurn};
ghost use Rattle.plan_defs.specs.Plans.{IsNoDearer, star_in};
ghost use Rattle.planner.specs.Region.{sights, AreFor, DoAgree, IsAsBefore};
ghost use Rattle.planner.specs.Answers.{IsAnswer, IsFlipThen};
ghost use Rattle.planner.specs.Steps.{AreHeld, AreLooked, AreMarks};

use crate::blocking::are_blocked;
use crate::building::{has_all_touched, plan_of};
use crate::moves::{does_fit, try_edits, try_flip};
use crate::region::Region;
use cost_defs::Costs;
use edit::Plan;
use journal_defs::Edit;
use mcp_outside::NoMemory;
use plan_defs::is_no_dearer;
use plane::{Pair, Points};

/// The plan of one edit that costs nothing.
pub fn plan_one(points: &Points, region: &Region, edit: Edit) -> Option<Plan>
    requires held { AreHeld points.now region.now }
    requires free { (D : List Costed) → IsNoDearer D (edit ∷ []) }
    ensures { (D : List Costed) → IsAnswer points.now D (sights region.now) (edit ∷ []) result }
{
    let edits = [edit];
    if !has_all_touched(region, &edits) {
        return None;
    }
    if !does_fit(points, region, &edit) {
        return None;
    }
    Some(plan_of(region, &edits))
}

/// The plan of edits of marks alone.
pub fn plan_marks(
    points: &Points,
    costs: &Costs,
    region: &mut Region,
    edits: &[Edit],
) -> Option<Plan>
    requires held { AreHeld points.now region.old }
    requires agree { DoAgree points.now region.old }
    requires marks { AreMarks edits.now }
    requires some { 0 < length edits.now }
    requires few { length edits.now ≤ 8 }
    ensures answer { IsAnswer points.now costs.now (sights region.old) edits.now result }
    ensures before { IsAsBefore points.now region.old region.new }
{
    if !has_all_touched(region, edits) {
        return None;
    }
    if !is_no_dearer(costs, edits) {
        return None;
    }
    if are_blocked(points, region, edits) {
        return None;
    }
    if !try_edits(points, region, edits) {
        return None;
    }
    Some(plan_of(region, edits))
}

// Whether a flip and then edits of marks fit in their turn.
fn try_flip_all(
    points: &Points,
    region: &mut Region,
    from: Pair,
    to: Pair,
    edits: &[Edit],
) -> Result<bool, NoMemory>
    requires held { AreHeld points.now region.old }
    requires agree { DoAgree points.now region.old }
    requires edits { IsFlipThen from to edits.now }
    requires looked { AreLooked region.old edits.now }
    ensures fit { IfOk result (λ b. IsTrue b ↔ FitInTurn points.now (star_in points.now (sights region.old)) edits.now) }
    ensures before { IsAsBefore points.now region.old region.new }
{
    match edits.split_first() {
        Some((_, rest)) => try_flip(points, region, from, to, rest),
        None => unreachable!(),
    }
}

/// The plan of a flip and edits of marks.
pub fn plan_flip_then(
    points: &Points,
    costs: &Costs,
    region: &mut Region,
    from: Pair,
    to: Pair,
    edits: &[Edit],
) -> Result<Option<Plan>, NoMemory>
    requires held { AreHeld points.now region.old }
    requires agree { DoAgree points.now region.old }
    requires edits { IsFlipThen from to edits.now }
    requires few { length edits.now ≤ 8 }
    ensures answer { IfOk result (IsAnswer points.now costs.now (sights region.old) edits.now) }
    ensures before { IsAsBefore points.now region.old region.new }
{
    if !has_all_touched(region, edits) {
        return Ok(None);
    }
    if !is_no_dearer(costs, edits) {
        return Ok(None);
    }
    if are_blocked(points, region, edits) {
        return Ok(None);
    }
    let fit = try_flip_all(points, region, from, to, edits)?;
    if fit {
        Ok(Some(plan_of(region, edits)))
    } else {
        Ok(None)
    }
}
