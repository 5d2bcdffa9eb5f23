ghost use Rattle.std.specs.Prelude.{◌≡◌, ◌<◌, ◌↔◌, length, IsTrue, Some};
ghost use Rattle.partition_defs.specs.Triangulation.{HasLeft};
ghost use Rattle.star.specs.Stars.{HasMark, IsNext, IsStar, entry};
ghost use Rattle.planner.specs.Region.{AreFor, DoAgree};
ghost use Rattle.planner.specs.Agreeing.{AgreesAt, AgreesWith, HasCorner, IsSide, MeetsInside};

use crate::region::Region;
use plane::Points;
use star::{Star, Stars};

// Whether some point is strictly left of the line from p to q.
fn has_left(points: &Points, p: u32, q: u32) -> bool
    requires p_in { p < length points.now }
    requires q_in { q < length points.now }
    ensures { IsTrue result ↔ HasLeft points.now p q }
{
    for r in 0..points.len() {
        if points.is_left(p, q, r) {
            return true;
        }
    }
    false
}

fn is_same(a: bool, b: bool) -> bool
    ensures { IsTrue result ↔ (a ≡ b) }
{
    a == b
}

// Whether the star has p as a neighbour with this mark.
fn has_mark(points: &Points, star: &Star, p: u32, kept: bool) -> bool
    requires { points.now ≡ star.now.points }
    ensures { IsTrue result ↔ HasMark star.now p kept }
{
    let _degree = star.degree();
    match star.place(points, p) {
        Some(k) => is_same(star.at(k).1, kept),
        None => false,
    }
}

// Whether the neighbour after the other's centre is before the star's centre there.
fn has_corner(points: &Points, star: &Star, other: &Star) -> bool
    requires star { points.now ≡ star.now.points }
    requires other { points.now ≡ other.now.points }
    ensures { IsTrue result ↔ HasCorner star.now other.now }
{
    let _degree = star.degree();
    match star.next(points, other.centre()) {
        Some(r) => is_next(points, other, r, star.centre()),
        None => false,
    }
}

// Whether p is the neighbour after r.
fn is_next(points: &Points, star: &Star, r: u32, p: u32) -> bool
    requires { points.now ≡ star.now.points }
    ensures { IsTrue result ↔ IsNext star.now r (Some p) }
{
    let _degree = star.degree();
    match star.next(points, r) {
        Some(q) => q == p,
        None => false,
    }
}

// Whether the stars have the same corner on the left of their centres, if there are points. These are looked for last.
fn is_side(points: &Points, star: &Star, other: &Star) -> bool
    requires star { points.now ≡ star.now.points }
    requires other { points.now ≡ other.now.points }
    ensures { IsTrue result ↔ IsSide points.now star.now other.now }
{
    let (p, q) = (star.centre(), other.centre());
    has_corner(points, star, other) || !has_left(points, p, q)
}

// Whether the star agrees with that of its neighbour at a position, where this was looked at.
fn agrees_with(points: &Points, region: &Region, star: &Star, k: u32) -> bool
    requires points { points.now ≡ star.now.points }
    requires region { AreFor points.now region.now }
    requires place { k < length star.now.list }
    ensures { IsTrue result ↔ AgreesWith points.now region.now star.now (entry star.now.list k) }
{
    let (q, kept) = star.at(k);
    match region.star(q) {
        Some(other) => agree_both(points, star, other, kept),
        None => true,
    }
}

fn agree_both(points: &Points, star: &Star, other: &Star, kept: bool) -> bool
    requires star { points.now ≡ star.now.points }
    requires other { points.now ≡ other.now.points }
    ensures { IsTrue result ↔ (HasMark other.now star.now.centre kept × IsSide points.now star.now other.now) }
{
    has_mark(points, other, star.centre(), kept) && is_side(points, star, other)
}

// Whether the kept neighbours meet the needs of the centre, where it is an inner point.
fn meets_inside(points: &Points, star: &Star) -> bool
    requires { points.now ≡ star.now.points }
    ensures { IsTrue result ↔ MeetsInside points.now star.now }
{
    let centre = star.centre();
    if !star.misses_some() {
        return true;
    }
    if points.is_inner(centre) {
        return false;
    }
    true
}

// Whether the star agrees with those of its neighbours.
fn agrees_at(points: &Points, region: &Region, star: &Star) -> bool
    requires points { points.now ≡ star.now.points }
    requires region { AreFor points.now region.now }
    ensures agrees { IsTrue result ↔ AgreesAt points.now region.now star.now }
    ensures order { IsStar star.now }
{
    let _degree = star.degree();
    if !meets_inside(points, star) {
        return false;
    }
    for k in 0..star.degree() {
        if !agrees_with(points, region, star, k) {
            return false;
        }
    }
    true
}

/// Whether the stars of the region agree: where one has another's centre as a neighbour, both have each other, with the
/// same mark, and on each side of the two where there are points the same corner; and the kept neighbours of each inner
/// centre meet its needs. (This project's own.)
pub fn agree(points: &Points, region: &Region) -> bool
    requires { AreFor points.now region.now }
    ensures { IsTrue result ↔ DoAgree points.now region.now }
{
    for k in 0..region.count() {
        if !agrees_at(points, region, &region.look(k).star) {
            return false;
        }
    }
    true
}
