// The row of a flip in the table of refusals, read on three stars: those of the old pair's ends, and that of the new
// pair's smaller end.
ghost use Rattle.std.specs.Prelude.{◌≡◌, ◌<◌, ◌⊎◌, ◌↔◌, length, IsTrue, MatchResult, Some};
ghost use Rattle.journal_defs.specs.Table.{IsAt, FitsFlip, RefusesFlip, IsLowRight, IsHighLeft};
ghost use Rattle.edit.specs.FlipRow.{IsFreshOrWhy, AreApexesOrWhy, AreSidesOrWhy};

use crate::marks::{far_apex, near_apex, pair_mark, shows};
use journal_defs::Why;
use plane::{Pair, Points, Turn};
use star::Star;

// The refusals that no apex has to do with.
fn is_fresh(points: &Points, lower: &Star, fresh: &Star, from: Pair, to: Pair) -> Result<(), Why>
    requires lower { IsAt points.now lower.now from.lo }
    requires fresh { IsAt points.now fresh.now to.lo }
    ensures { IsFreshOrWhy lower.now fresh.now from to result }
{
    match pair_mark(points, lower, from) {
        None => return Err(Why::NotThere),
        Some(kept) => {
            if kept {
                return Err(Why::NotSpare);
            }
        }
    }
    if shows(points, fresh, to) {
        return Err(Why::AlreadyThere);
    }
    Ok(())
}

// Whether v is one of the two.
fn is_either(near: Option<u32>, far: Option<u32>, v: u32) -> bool
    ensures { IsTrue result ↔ ((near ≡ Some v) ⊎ (far ≡ Some v)) }
{
    near == Some(v) || far == Some(v)
}

// The least end of the new pair that is none of the apexes, if there is one.
fn are_apexes(near: Option<u32>, far: Option<u32>, to: Pair) -> Result<(), Why>
    ensures { AreApexesOrWhy near far to result }
{
    if !is_either(near, far, to.lo()) {
        return Err(Why::NotApex(to.lo()));
    }
    if !is_either(near, far, to.hi()) {
        return Err(Why::NotApex(to.hi()));
    }
    Ok(())
}

// Whether the smaller end of the old pair is strictly on its own side of the line from k to l.
fn is_low_right(points: &Points, from: Pair, k: u32, l: u32) -> bool
    requires k_in { k < length points.now }
    requires l_in { l < length points.now }
    requires within { from.hi < length points.now }
    ensures { IsTrue result ↔ IsLowRight points.now from k l }
{
    points.orient(k, l, from.lo()) == Turn::Right
}

// Whether the larger end of the old pair is strictly on its own side of the line from k to l.
fn is_high_left(points: &Points, from: Pair, k: u32, l: u32) -> bool
    requires k_in { k < length points.now }
    requires l_in { l < length points.now }
    requires within { from.hi < length points.now }
    ensures { IsTrue result ↔ IsHighLeft points.now from k l }
{
    points.orient(k, l, from.hi()) == Turn::Left
}

// The least end of the old pair that isn't strictly on its own side of the line from k to l, if there is one.
fn are_on_sides(points: &Points, from: Pair, k: u32, l: u32) -> Result<(), Why>
    requires k_in { k < length points.now }
    requires l_in { l < length points.now }
    requires within { from.hi < length points.now }
    ensures { AreSidesOrWhy points.now from k l result }
{
    if !is_low_right(points, from, k, l) {
        return Err(Why::Bent(from.lo()));
    }
    if !is_high_left(points, from, k, l) {
        return Err(Why::Bent(from.hi()));
    }
    Ok(())
}

/// The first refusal of a flip that applies, as the stars of the old pair's ends and of the new pair's smaller end say.
pub fn flip_fits(
    points: &Points,
    lower: &Star,
    upper: &Star,
    fresh: &Star,
    from: Pair,
    to: Pair,
) -> Result<(), Why>
    requires lower { IsAt points.now lower.now from.lo }
    requires upper { IsAt points.now upper.now from.hi }
    requires fresh { IsAt points.now fresh.now to.lo }
    ensures { MatchResult result
        (λ _. FitsFlip points.now lower.now upper.now fresh.now from to)
        (λ why. RefusesFlip points.now lower.now upper.now fresh.now from to why) }
{
    let _degree = upper.degree();
    is_fresh(points, lower, fresh, from, to)?;
    let near = near_apex(points, lower, from);
    let far = far_apex(points, upper, from);
    match are_apexes(near, far, to) {
        Err(why) => Err(why),
        Ok(()) => match (near, far) {
            (Some(k), Some(l)) => are_on_sides(points, from, k, l),
            _ => unreachable!(),
        },
    }
}
