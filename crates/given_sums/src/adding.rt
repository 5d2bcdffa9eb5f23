// One row is added to the sums of a strip.
ghost use Rattle.std.specs.Prelude.{◌≡◌, ◌≢◌, ◌+◌, ◌<◌, ◌≤◌, length, set, Some};
ghost use Rattle.plane.specs.Accepted.{IsNear};
ghost use Rattle.plane.specs.Geometry.{point};
ghost use Rattle.plane.specs.declared.coordinates.Turn.TheVariants.{Left};
ghost use Rattle.price_defs.specs.Loads.{given};
ghost use Rattle.price_defs.specs.Rows.{IsRight, stand, weight};
ghost use Rattle.given_sums.specs.Sums.{entry, IsAim, IsAhead, HasRoom, HasRoomFor, IsAdded, IsAddedAfter, IsAddedBefore};

use crate::strip::{STRIP, place_of};
use plane::{Point, Points, Turn, lies_between, turn_at};
use price_defs::{MOST_WEIGHT, Row, stand_of};

// 1 for a left turn, else 0.
fn one_if_left(turn: Turn) -> u64
    ensures left { turn ≡ Left → result ≡ 1 }
    ensures not_left { turn ≢ Left → result ≡ 0 }
    ensures small { result ≤ 1 }
{
    match turn {
        Turn::Left => 1,
        Turn::Straight => 0,
        Turn::Right => 0,
    }
}

// The weight where a point is strictly left of the line from one point to another, or straight opposite to the other one;
// else 0. Left and right are told apart without a branch, since neither is rare.
fn weight_ahead(from: Point, to: Point, at: Point, w: u64) -> u64
    requires near_from { IsNear from }
    requires near_to { IsNear to }
    requires near_at { IsNear at }
    requires light { w ≤ MOST_WEIGHT }
    ensures ahead { IsAhead from to at → result ≡ w }
    ensures not_ahead { ¬ IsAhead from to at → result ≡ 0 }
    ensures small { result ≤ w }
{
    let turn = turn_at(from, to, at);
    match turn {
        Turn::Straight => { if lies_between(from, to, at) { w } else { 0 } }
        _ => w * one_if_left(turn),
    }
}

// The point for whose need a Half row stands; of another row the one that is handed in.
fn aim_of(points: &Points, row: Row, other: Point) -> Point
    requires right { IsRight points.now row }
    requires near { IsNear other }
    ensures aim { IsAim points.now row result }
    ensures near { IsNear result }
{
    match row {
        Row::Half { p: _, q, w: _ } => points.at(q),
        Row::Three { p: _, w: _ } => other,
        Row::Cross { e: _, f: _, w: _ } => other,
        Row::Cap { e: _, w: _ } => other,
    }
}

// What a row at p gives to the pair of p and r.
fn given_to(points: &Points, row: Row, p: u32, from: Point, aim: Point, r: u32) -> u64
    requires right { IsRight points.now row }
    requires light { weight row ≤ MOST_WEIGHT }
    requires stand { stand row ≡ Some p }
    requires from { from ≡ point points.now p }
    requires near { IsNear from }
    requires aim { IsAim points.now row aim }
    requires near_aim { IsNear aim }
    requires r_in { r < length points.now }
    requires apart { r ≢ p }
    ensures given { result ≡ given points.now p r row }
    ensures small { result ≤ MOST_WEIGHT }
{
    match row {
        Row::Half { p: _, q: _, w } => weight_ahead(from, aim, points.at(r), w),
        Row::Three { p: _, w } => w,
        Row::Cross { e: _, f: _, w: _ } => 0,
        Row::Cap { e: _, w: _ } => 0,
    }
}

// Adds to the sum at a position.
fn add_at(sums: &mut [u64], k: usize, more: u64)
    requires place { k < length sums.old }
    requires small { entry sums.old k ≤ 300000000000000000 }
    requires step { more ≤ MOST_WEIGHT }
    ensures { sums.new ≡ set sums.old k (entry sums.old k + more) }
{
    sums[k] += more;
}

// Adds what a row at p gives to the pairs of p and the points behind it, where p is one of the strip's points.
fn add_after(points: &Points, row: Row, p: u32, first: u32, width: u32, sums: &mut [u64])
    requires right { IsRight points.now row }
    requires light { weight row ≤ MOST_WEIGHT }
    requires stand { stand row ≡ Some p }
    requires p_in { p < length points.now }
    requires reach { first + width ≡ length points.now }
    requires room { HasRoom width sums.old }
    ensures { IsAddedAfter points.now row p first width sums.old sums.new }
{
    let _count = points.len();
    if p < first || p - first >= STRIP {
        return;
    }
    let a = p - first;
    let from = points.at(p);
    let aim = aim_of(points, row, from);
    for b in a + 1..width {
        let more = given_to(points, row, p, from, aim, first + b);
        add_at(sums, place_of(width, a, b), more);
    }
}

// Adds what a row at p gives to the pairs of p and the strip's points before it.
fn add_before(points: &Points, row: Row, p: u32, first: u32, width: u32, sums: &mut [u64])
    requires right { IsRight points.now row }
    requires light { weight row ≤ MOST_WEIGHT }
    requires stand { stand row ≡ Some p }
    requires p_in { p < length points.now }
    requires reach { first + width ≡ length points.now }
    requires room { HasRoom width sums.old }
    ensures { IsAddedBefore points.now row p first width sums.old sums.new }
{
    let _count = points.len();
    if p <= first {
        return;
    }
    let b = p - first;
    let from = points.at(p);
    let aim = aim_of(points, row, from);
    for a in 0..b.min(STRIP) {
        let more = given_to(points, row, p, from, aim, first + a);
        add_at(sums, place_of(width, a, b), more);
    }
}

// Adds what a row at p gives to all pairs of the strip.
fn add_at_point(points: &Points, row: Row, p: u32, first: u32, width: u32, sums: &mut [u64])
    requires right { IsRight points.now row }
    requires light { weight row ≤ MOST_WEIGHT }
    requires stand { stand row ≡ Some p }
    requires reach { first + width ≡ length points.now }
    requires room { HasRoomFor width sums.old }
    ensures { IsAdded points.now row first width sums.old sums.new }
{
    add_after(points, row, p, first, width, sums);
    add_before(points, row, p, first, width, sums);
}

/// Adds what a row gives to the pairs of the strip.
pub fn add_row(points: &Points, row: Row, first: u32, width: u32, sums: &mut [u64])
    requires right { IsRight points.now row }
    requires light { weight row ≤ MOST_WEIGHT }
    requires reach { first + width ≡ length points.now }
    requires room { HasRoomFor width sums.old }
    ensures { IsAdded points.now row first width sums.old sums.new }
{
    if let Some(p) = stand_of(row) {
        add_at_point(points, row, p, first, width, sums);
    }
}
