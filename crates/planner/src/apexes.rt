// The pair across from a pair: that of its apexes.
ghost use Rattle.std.specs.Prelude.{◌≡◌, ◌<◌, length, true};
ghost use Rattle.plan_defs.specs.Plans.{has_look, star_in};
ghost use Rattle.planner.specs.Region.{sights};
ghost use Rattle.planner.specs.Answers.{IsAcrossOrNone, IsPairOf, IsShown};
ghost use Rattle.planner.specs.Steps.{AreHeld};

use crate::region::Region;
use plane::{Pair, Points};
use star::{Star, Stars};

// The apex of the centre to q that the star shows, or none.
fn shown_apex(points: &Points, star: &Star, q: u32) -> Option<u32>
    requires points { points.now ≡ star.now.points }
    requires within { q < length points.now }
    ensures { IsShown points.now star.now star.now.centre q result }
{
    let _degree = star.degree();
    let r = star.next(points, q)?;
    if points.is_left(star.centre(), q, r) {
        Some(r)
    } else {
        None
    }
}

// The apex of p to q that the region shows, or none: also where the star of p shows no q.
fn apex(points: &Points, region: &Region, p: u32, q: u32) -> Option<u32>
    requires { AreHeld points.now region.now }
    ensures { has_look (sights region.now) p ≡ true → IsShown points.now (star_in points.now (sights region.now) p) p q result }
{
    match region.star(p) {
        Some(star) => shown_if_within(points, star, q),
        None => None,
    }
}

fn shown_if_within(points: &Points, star: &Star, q: u32) -> Option<u32>
    requires { points.now ≡ star.now.points }
    ensures { IsShown points.now star.now star.now.centre q result }
{
    let _degree = star.degree();
    if q < points.len() {
        shown_apex(points, star, q)
    } else {
        None
    }
}

// The pair of two points, or none where one is lacking or they are one.
fn pair_of(near: Option<u32>, far: Option<u32>) -> Option<Pair>
    ensures { IsPairOf near far result }
{
    let k = near?;
    let l = far?;
    if k == l { None } else { Some(Pair::of(k, l)) }
}

/// The pair of the apexes of a pair whose ends were looked at, or none where one is lacking.
pub fn across(points: &Points, region: &Region, e: Pair) -> Option<Pair>
    requires { AreHeld points.now region.now }
    ensures { IsAcrossOrNone points.now (sights region.now) e result }
{
    if !region.has(e.lo()) {
        return None;
    }
    if !region.has(e.hi()) {
        return None;
    }
    let near = apex(points, region, e.lo(), e.hi());
    let far = apex(points, region, e.hi(), e.lo());
    pair_of(near, far)
}
