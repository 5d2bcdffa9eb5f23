// Edits that are tried on the stars of a region, and taken back.
ghost use Rattle.std.specs.Prelude.{◌≡◌, ◌↔◌, ◌∷◌, ℕ, List, true, IsTrue, IfOk, OnOk};
ghost use Rattle.plane.specs.declared.coordinates.Point.{Point as ThePoint};
ghost use Rattle.journal_defs.specs.Edits.{inverse as inverse_spec, is_end, touches};
ghost use Rattle.journal_defs.specs.Table.{Fits};
ghost use Rattle.journal_defs.specs.Turns.{FitInTurn};
ghost use Rattle.plan_defs.specs.Plans.{has_look, star_in};
ghost use Rattle.planner.specs.Region.{sights, AreFor, DoAgree, IsAsBefore};
ghost use Rattle.planner.specs.Steps.{AreHeld, AreLooked, AreMarks, CanTry, HasMade, HasRoomFor, HaveStepped, IsReady, IsTried};

use crate::region::Region;
use edit::fits;
use journal_defs::Edit;
use mcp_outside::NoMemory;
use plane::{Pair, Points};

// The edit that leads back.
fn inverse(edit: &Edit) -> Edit
    ensures { result ≡ inverse_spec edit.now }
{
    match *edit {
        Edit::Drop(e) => Edit::Keep(e),
        Edit::Keep(e) => Edit::Drop(e),
        Edit::Flip { from, to } => Edit::Flip { from: to, to: from },
    }
}

/// Whether the edit fits the region.
pub fn does_fit(points: &Points, region: &Region, edit: &Edit) -> bool
    requires held { AreHeld points.now region.now }
    requires looked { (v : ℕ) → touches edit.now v ≡ true → has_look (sights region.now) v ≡ true }
    ensures { IsTrue result ↔ Fits points.now (star_in points.now (sights region.now)) edit.now }
{
    match fits(points, region, edit) {
        Ok(()) => true,
        Err(_) => false,
    }
}

// Takes the stars of a pair's ends through the edit.
fn step_ends(points: &Points, region: &mut Region, e: Pair, edit: &Edit)
    requires held { AreHeld points.now region.old }
    requires ready { (v : ℕ) → is_end e v ≡ true → IsReady points.now edit.now region.old v }
    ensures { HaveStepped points.now edit.now (is_end e) region.old region.new }
{
    region.step_at(points, e.lo(), edit);
    region.step_at(points, e.hi(), edit);
}

// Makes an edit on the stars that it touches.
fn make(points: &Points, region: &mut Region, edit: &Edit)
    requires held { AreHeld points.now region.old }
    requires ready { (v : ℕ) → touches edit.now v ≡ true → IsReady points.now edit.now region.old v }
    ensures { HasMade points.now edit.now region.old region.new }
{
    match *edit {
        Edit::Drop(e) => step_ends(points, region, e, edit),
        Edit::Keep(e) => step_ends(points, region, e, edit),
        Edit::Flip { from, to } => {
            step_ends(points, region, from, edit);
            step_ends(points, region, to, edit);
        }
    }
}

/// Whether each of the edits, of marks alone, fits in its turn. They are made on the region's stars, and taken back.
pub fn try_edits(points: &Points, region: &mut Region, edits: &[Edit]) -> bool
    requires { CanTry points.now region.old edits.now }
    ensures fit { IsTrue result ↔ FitInTurn points.now (star_in points.now (sights region.old)) edits.now }
    ensures back { IsTried points.now region.old region.new }
{
    let _count = points.len();
    let Some((first, rest)) = edits.split_first() else {
        return true;
    };
    if !does_fit(points, region, first) {
        return false;
    }
    if rest.is_empty() {
        return true;
    }
    make(points, region, first);
    let fit = try_edits(points, region, rest);
    make(points, region, &inverse(first));
    fit
}

// Makes room for the new pair of a flip.
fn reserve_ends(region: &mut Region, to: Pair) -> Result<(), NoMemory>
    requires { (v : ℕ) → is_end to v ≡ true → has_look (sights region.old) v ≡ true }
    ensures sights { sights region.new ≡ sights region.old }
    ensures points { (S : List ThePoint) → AreFor S region.old → AreFor S region.new }
    ensures room { OnOk result (HasRoomFor to region.new) }
{
    region.reserve_at(to.lo())?;
    region.reserve_at(to.hi())
}

/// Whether a flip and then edits of marks fit in their turn. They are made on the region's stars, and taken back.
pub fn try_flip(
    points: &Points,
    region: &mut Region,
    from: Pair,
    to: Pair,
    rest: &[Edit],
) -> Result<bool, NoMemory>
    requires held { AreHeld points.now region.old }
    requires agree { DoAgree points.now region.old }
    requires looked { AreLooked region.old (Edit.Flip from to ∷ rest.now) }
    requires marks { AreMarks rest.now }
    ensures fit { IfOk result (λ b. IsTrue b ↔ FitInTurn points.now (star_in points.now (sights region.old)) (Edit.Flip from to ∷ rest.now)) }
    ensures before { IsAsBefore points.now region.old region.new }
{
    let _count = points.len();
    let flip = Edit::Flip { from, to };
    if !does_fit(points, region, &flip) {
        return Ok(false);
    }
    reserve_ends(region, to)?;
    make(points, region, &flip);
    let fit = try_edits(points, region, rest);
    make(points, region, &inverse(&flip));
    Ok(fit)
}
