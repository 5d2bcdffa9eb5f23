// What the pairs that a row counts may still get.
ghost use Rattle.std.specs.Prelude.{◌≡◌, ◌≢◌, ◌<◌, ◌≤◌, ◌+◌, ◌↔◌, length, IsTrue, IfSome};
ghost use Rattle.plane.specs.Geometry.{IsClear};
ghost use Rattle.price_defs.specs.Loads.{IsValid};
ghost use Rattle.price_defs.specs.Rows.{IsRight};
ghost use Rattle.dual_prices.specs.Rooms.{IsRoomFor, IsLeastRoom, IsBelowRoom, IsZeroRoom};

use cost_defs::Costs;
use directions::ClearPairs;
use plane::{Pair, Points};
use point_rows::PointRows;
use price_defs::{MOST_DIVISOR, Row, is_counted};

// What the pair of a row's point and another end may still get.
#[derive(Clone, Copy)]
pub struct Room {
    pub more: u64,
    pub end: u32,
}

// Whether there is less room than the least so far, or it is the first.
fn is_less(more: u64, least: Option<Room>) -> bool
    ensures { IsBelowRoom more least result }
{
    match least {
        Some(room) => more < room.more,
        None => true,
    }
}

// Whether the least room so far is none.
fn is_used_up(least: Option<Room>) -> bool
    ensures { IsZeroRoom least result }
{
    match least {
        Some(room) => room.more == 0,
        None => false,
    }
}

// Whether no point is strictly between two points: by the set of clear pairs, or by a walk over all points.
fn is_clear_between(points: &Points, clear: Option<&ClearPairs>, p: u32, r: u32) -> bool
    requires p_in { p < length points.now }
    requires r_in { r < length points.now }
    requires apart { p ≢ r }
    requires clear { IfSome clear (λ set. set.now ≡ points.now) }
    ensures { IsTrue result ↔ IsClear points.now p r }
{
    let e = Pair::of(p, r);
    match clear {
        Some(set) => set.has(e),
        None => points.is_clear(e),
    }
}

// What the pair of p and r may still get, or none where the row doesn't count it. A pair that has more than is allowed
// isn't clear.
fn room_with(
    points: &Points,
    costs: &Costs,
    q: u64,
    kept: &PointRows,
    row: Row,
    p: u32,
    r: u32,
) -> Option<u64>
    requires points { points.now ≡ kept.now.points }
    requires valid { IsValid points.now costs.now q kept.now.rows }
    requires small { q ≤ MOST_DIVISOR }
    requires right { IsRight points.now row }
    requires p_in { p < length points.now }
    requires r_in { r < length points.now }
    ensures { IsRoomFor points.now costs.now q kept.now.rows row p r result }
{
    if r == p {
        return None;
    }
    if !is_counted(points, row, p, r) {
        return None;
    }
    let e = Pair::of(p, r);
    let allowed = q * u64::from(costs.of(e)) + kept.takes(e);
    let given = kept.gives(points, p, r);
    if given <= allowed {
        Some(allowed - given)
    } else {
        None
    }
}

// The least room with the points up to r, from that with the points before it. Whether a pair is clear is asked only
// where its room is less than the least so far.
fn lesser_room(
    points: &Points,
    costs: &Costs,
    q: u64,
    clear: Option<&ClearPairs>,
    kept: &PointRows,
    row: Row,
    p: u32,
    r: u32,
    least: Option<Room>,
) -> Option<Room>
    requires points { points.now ≡ kept.now.points }
    requires valid { IsValid points.now costs.now q kept.now.rows }
    requires small { q ≤ MOST_DIVISOR }
    requires clear { IfSome clear (λ set. set.now ≡ points.now) }
    requires right { IsRight points.now row }
    requires p_in { p < length points.now }
    requires r_in { r < length points.now }
    requires least { IsLeastRoom points.now costs.now q kept.now.rows row p r least }
    ensures { IsLeastRoom points.now costs.now q kept.now.rows row p (r + 1) result }
{
    let Some(more) = room_with(points, costs, q, kept, row, p, r) else {
        return least;
    };
    if !is_less(more, least) {
        return least;
    }
    if is_clear_between(points, clear, p, r) {
        Some(Room { more, end: r })
    } else {
        least
    }
}

// The lesser of the least room so far and that with one end.
fn hinted_room(
    points: &Points,
    costs: &Costs,
    q: u64,
    clear: Option<&ClearPairs>,
    kept: &PointRows,
    row: Row,
    p: u32,
    end: u32,
    least: Option<Room>,
) -> Option<Room>
    requires points { points.now ≡ kept.now.points }
    requires valid { IsValid points.now costs.now q kept.now.rows }
    requires small { q ≤ MOST_DIVISOR }
    requires clear { IfSome clear (λ set. set.now ≡ points.now) }
    requires right { IsRight points.now row }
    requires p_in { p < length points.now }
    requires least { IsLeastRoom points.now costs.now q kept.now.rows row p 0 least }
    ensures { IsLeastRoom points.now costs.now q kept.now.rows row p 0 result }
{
    if end >= points.len() {
        return least;
    }
    let Some(more) = room_with(points, costs, q, kept, row, p, end) else {
        return least;
    };
    if !is_less(more, least) {
        return least;
    }
    if is_clear_between(points, clear, p, end) {
        Some(Room { more, end })
    } else {
        least
    }
}

// The least room with the ends that are to be looked at first.
fn first_room(
    points: &Points,
    costs: &Costs,
    q: u64,
    clear: Option<&ClearPairs>,
    kept: &PointRows,
    row: Row,
    p: u32,
    hints: &[u32],
) -> Option<Room>
    requires points { points.now ≡ kept.now.points }
    requires valid { IsValid points.now costs.now q kept.now.rows }
    requires small { q ≤ MOST_DIVISOR }
    requires clear { IfSome clear (λ set. set.now ≡ points.now) }
    requires right { IsRight points.now row }
    requires p_in { p < length points.now }
    ensures { IsLeastRoom points.now costs.now q kept.now.rows row p 0 result }
{
    let mut least = None;
    for end in hints {
        least = hinted_room(points, costs, q, clear, kept, row, p, *end, least);
        if is_used_up(least) {
            return least;
        }
    }
    least
}

// The least room over all other ends. None is looked at besides the first ones where one of these has no room.
pub fn least_room(
    points: &Points,
    costs: &Costs,
    q: u64,
    clear: Option<&ClearPairs>,
    kept: &PointRows,
    row: Row,
    p: u32,
    hints: &[u32],
) -> Option<Room>
    requires points { points.now ≡ kept.now.points }
    requires valid { IsValid points.now costs.now q kept.now.rows }
    requires small { q ≤ MOST_DIVISOR }
    requires clear { IfSome clear (λ set. set.now ≡ points.now) }
    requires right { IsRight points.now row }
    requires p_in { p < length points.now }
    ensures { IsLeastRoom points.now costs.now q kept.now.rows row p (length points.now) result }
{
    let mut least = first_room(points, costs, q, clear, kept, row, p, hints);
    if is_used_up(least) {
        return least;
    }
    for r in 0..points.len() {
        least = lesser_room(points, costs, q, clear, kept, row, p, r, least);
        if is_used_up(least) {
            return least;
        }
    }
    least
}
