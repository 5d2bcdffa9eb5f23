// Apexes, seen from the ends at a point: mostly the next end that a left turn leads to shows one. Where it doesn't, all points
// are tried.
ghost use Rattle.std.specs.Prelude.{◌≡◌, ◌<◌, ◌≤◌, ◌*◌, ◌^◌, ◌⊎◌, ◌↔◌, length, IsTrue, IfSome, pos, ◌<ℤ◌};
ghost use Rattle.plane.specs.Geometry.{orientation};
ghost use Rattle.partition_defs.specs.Partition.{Joins, AreWithin, IsConvexPartition};
ghost use Rattle.triangulation_check.specs.Apexes.{HasApex, HasApexWhereLeft, HaveApexes};
ghost use Rattle.triangulation_check.specs.Ends.{AreEndsOf, LeadWithin, IsLeftEnd, IsAmid, HasNoneAmid};

use crate::ends::{End, leads_to, run_of, set_ends};
use crate::plain::has_apex_where_left;
use plane::{Pair, Points};

// The most segments whose ends are put in order on the stack.
const MOST_ORDERED: usize = 20_000;

const MOST_ENDS: usize = 40_000;

// Whether a point is left of p to q, and seen from p before the best one so far.
fn is_better(points: &Points, p: u32, q: u32, s: u32, best: Option<u32>) -> bool
    requires p_in { p < length points.now }
    requires q_in { q < length points.now }
    requires s_in { s < length points.now }
    requires best_in { IfSome best (λ b. b < length points.now) }
    ensures { IsTrue result → pos 0 <ℤ orientation points.now p q s }
{
    match best {
        None => points.is_left(p, q, s),
        Some(b) => points.is_left(p, q, s) && points.is_left(p, s, b),
    }
}

// An end left of p to q, mostly the first one.
fn next_left(points: &Points, run: &[End], p: u32, q: u32) -> Option<u32>
    requires p_in { p < length points.now }
    requires q_in { q < length points.now }
    requires within { LeadWithin points.now run.now }
    ensures { IfSome result (IsLeftEnd points.now run.now p q) }
{
    let mut best = None;
    for end in run {
        if is_better(points, p, q, end.to, best) {
            best = Some(end.to);
        }
    }
    best
}

// Whether p sees a point between q and r.
fn is_amid(points: &Points, p: u32, q: u32, r: u32, s: u32) -> bool
    requires p_in { p < length points.now }
    requires q_in { q < length points.now }
    requires r_in { r < length points.now }
    requires s_in { s < length points.now }
    ensures { IsTrue result ↔ IsAmid points.now p q r s }
{
    points.is_left(p, q, s) && points.is_left(p, s, r)
}

// Whether no end leads to a point that p sees between q and r.
fn has_none_amid(points: &Points, run: &[End], p: u32, q: u32, r: u32) -> bool
    requires p_in { p < length points.now }
    requires q_in { q < length points.now }
    requires r_in { r < length points.now }
    requires within { LeadWithin points.now run.now }
    ensures { IsTrue result → HasNoneAmid points.now run.now p q r }
{
    for end in run {
        if is_amid(points, p, q, r, end.to) {
            return false;
        }
    }
    true
}

// Whether the ends show the apex of p to q.
fn shows_apex(points: &Points, list: &[Pair], ends: &[End], p: u32, q: u32) -> bool
    requires partition { IsConvexPartition points.now list.now }
    requires ends { AreEndsOf list.now ends.now }
    requires joined { Joins list.now p q }
    requires p_in { p < length points.now }
    requires q_in { q < length points.now }
    ensures { IsTrue result → HasApex points.now list.now p q }
{
    let _count = points.len();
    let run = run_of(ends, p);
    match next_left(points, run, p, q) {
        None => false,
        Some(r) => has_none_amid(points, run, p, q, r) && leads_to(run_of(ends, q), r),
    }
}

// Whether p to q has an apex, or no point is left of it.
fn has_apex_at(points: &Points, list: &[Pair], ends: &[End], p: u32, q: u32) -> bool
    requires partition { IsConvexPartition points.now list.now }
    requires ends { (length ends.now ≡ 0) ⊎ AreEndsOf list.now ends.now }
    requires joined { Joins list.now p q }
    requires p_in { p < length points.now }
    requires q_in { q < length points.now }
    ensures { IsTrue result ↔ HasApexWhereLeft points.now list.now p q }
{
    if !ends.is_empty() && shows_apex(points, list, ends, p, q) {
        return true;
    }
    has_apex_where_left(points, list, p, q)
}

// The same for both directions of a pair.
fn has_apexes_at(points: &Points, list: &[Pair], ends: &[End], p: u32, q: u32) -> bool
    requires partition { IsConvexPartition points.now list.now }
    requires ends { (length ends.now ≡ 0) ⊎ AreEndsOf list.now ends.now }
    requires joined { Joins list.now p q }
    requires p_in { p < length points.now }
    requires q_in { q < length points.now }
    ensures { IsTrue result ↔ (HasApexWhereLeft points.now list.now p q × HasApexWhereLeft points.now list.now q p) }
{
    let forth = has_apex_at(points, list, ends, p, q);
    let back = has_apex_at(points, list, ends, q, p);
    forth && back
}

// The same for all pairs.
fn have_apexes_by(points: &Points, list: &[Pair], ends: &[End]) -> bool
    requires partition { IsConvexPartition points.now list.now }
    requires ends { (length ends.now ≡ 0) ⊎ AreEndsOf list.now ends.now }
    ensures { IsTrue result ↔ HaveApexes points.now list.now }
{
    for e in list {
        if !has_apexes_at(points, list, ends, e.lo(), e.hi()) {
            return false;
        }
    }
    true
}

// The same, with room for the ends.
fn have_apexes_within(points: &Points, list: &[Pair], room: &mut [End]) -> bool
    requires partition { IsConvexPartition points.now list.now }
    requires few { length list.now < 2 ^ 32 }
    requires room { 2 * length list.now ≤ length room.old }
    ensures { IsTrue result ↔ HaveApexes points.now list.now }
{
    let ends = &mut room[..2 * list.len()];
    set_ends(list, ends);
    have_apexes_by(points, list, ends)
}

/// Whether each direction of a segment with a point on its left has an apex.
pub fn have_apexes(points: &Points, list: &[Pair]) -> bool
    requires partition { IsConvexPartition points.now list.now }
    requires few { length list.now < 2 ^ 32 }
    ensures { IsTrue result ↔ HaveApexes points.now list.now }
{
    if list.len() > MOST_ORDERED {
        return have_apexes_by(points, list, &[]);
    }
    have_apexes_within(points, list, &mut [End { at: 0, to: 0 }; MOST_ENDS])
}
