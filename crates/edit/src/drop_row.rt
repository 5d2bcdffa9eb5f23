// The row of a drop and that of a keep in the table of refusals.
ghost use Rattle.std.specs.Prelude.{◌≡◌, ◌<◌, ◌⊎◌, ◌↔◌, length, IsTrue, MatchResult, None, true};
ghost use Rattle.plane.specs.Geometry.{IsBorderPair};
ghost use Rattle.journal_defs.specs.Table.{IsAt, Shows, FitsDrop, FitsKeep, RefusesDrop, RefusesKeep};
ghost use Rattle.edit.specs.DropRow.{IsKeptOrWhy, AreTrueEnds};

use crate::marks::{far_apex, near_apex, opens_high, opens_low, pair_mark};
use journal_defs::Why;
use plane::{Pair, Points};
use star::Star;

// The refusals of a drop that go by the pair's mark.
fn is_kept(points: &Points, lower: &Star, e: Pair) -> Result<(), Why>
    requires { IsAt points.now lower.now e.lo }
    ensures { IsKeptOrWhy lower.now e result }
{
    match pair_mark(points, lower, e) {
        None => Err(Why::NotThere),
        Some(kept) => { if kept { Ok(()) } else { Err(Why::NotKept) } }
    }
}

// Whether one of the two is missing.
fn is_missing(near: Option<u32>, far: Option<u32>) -> bool
    ensures { IsTrue result ↔ ((near ≡ None) ⊎ (far ≡ None)) }
{
    near.is_none() || far.is_none()
}

// Whether the pair is a border pair. Where each of the two stars shows a point on its left of the pair, none has to be
// looked for, and neither where the stars are those of a state.
fn is_border(points: &Points, lower: &Star, upper: &Star, e: Pair, are_true: bool) -> bool
    requires lower { IsAt points.now lower.now e.lo }
    requires upper { IsAt points.now upper.now e.hi }
    requires within { e.hi < length points.now }
    requires there { Shows lower.now e }
    requires known { are_true ≡ true → AreTrueEnds points.now lower.now upper.now e }
    ensures { IsTrue result ↔ IsBorderPair points.now e.lo e.hi }
{
    let near = near_apex(points, lower, e);
    let far = far_apex(points, upper, e);
    if is_missing(near, far) {
        are_true || points.is_border(e)
    } else {
        false
    }
}

/// The first refusal of a drop that applies, as the stars of the pair's ends say. With `are_true` they are those of a
/// state.
pub fn drop_fits(
    points: &Points,
    lower: &Star,
    upper: &Star,
    e: Pair,
    are_true: bool,
) -> Result<(), Why>
    requires lower { IsAt points.now lower.now e.lo }
    requires upper { IsAt points.now upper.now e.hi }
    requires known { are_true ≡ true → AreTrueEnds points.now lower.now upper.now e }
    ensures { MatchResult result
        (λ _. FitsDrop points.now lower.now upper.now e)
        (λ why. RefusesDrop points.now lower.now upper.now e why) }
{
    let _degree = upper.degree();
    is_kept(points, lower, e)?;
    if is_border(points, lower, upper, e, are_true) {
        return Err(Why::Border);
    }
    if opens_low(points, lower, e, are_true) {
        return Err(Why::Opens(e.lo()));
    }
    if opens_high(points, upper, e, are_true) {
        return Err(Why::Opens(e.hi()));
    }
    Ok(())
}

/// The first refusal of a keep that applies, as the star of the pair's smaller end says.
pub fn keep_fits(points: &Points, lower: &Star, e: Pair) -> Result<(), Why>
    requires { IsAt points.now lower.now e.lo }
    ensures { MatchResult result (λ _. FitsKeep lower.now e) (λ why. RefusesKeep lower.now e why) }
{
    match pair_mark(points, lower, e) {
        None => Err(Why::NotThere),
        Some(kept) => { if kept { Err(Why::NotSpare) } else { Ok(()) } }
    }
}
