// The table of refusals by a plain slow program, over the lists of a state, by all pairs and all points.
ghost use Rattle.std.specs.Prelude.{◌<◌, length, IfSome};

use crate::{Edit, Why};
use journal_defs::{Lists, after};
use partition_defs::{joins, meets_needs_at};
use plane::{Pair, Points, Turn};
use std::alloc::Global;
use std::test::Fail;

fn has(list: &[Pair], e: Pair) -> bool {
    joins(list, e.lo(), e.hi())
}

// Whether some need of v, which is an inner point, isn't met by the pairs.
fn is_opened(points: &Points, pairs: &[Pair], v: u32) -> bool
    requires { v < length points.now }
{
    points.is_inner(v) && !meets_needs_at(points, pairs, v)
}

fn why_no_drop(alloc: Global, points: &Points, lists: &Lists, e: Pair) -> Result<Option<Why>, Fail>
    requires { e.hi < length points.now }
{
    let rest = after(alloc, Edit::Drop(e), lists)?;
    Ok(if !has(lists.all(), e) {
        Some(Why::NotThere)
    } else if !has(lists.kept(), e) {
        Some(Why::NotKept)
    } else if points.is_border(e) {
        Some(Why::Border)
    } else if is_opened(points, rest.kept(), e.lo()) {
        Some(Why::Opens(e.lo()))
    } else if is_opened(points, rest.kept(), e.hi()) {
        Some(Why::Opens(e.hi()))
    } else {
        None
    })
}

fn why_no_keep(lists: &Lists, e: Pair) -> Option<Why> {
    if !has(lists.all(), e) {
        Some(Why::NotThere)
    } else if has(lists.kept(), e) {
        Some(Why::NotSpare)
    } else {
        None
    }
}

// Whether s lies in the closed triangle of the three, which are counterclockwise.
fn is_in_triangle(points: &Points, p: u32, q: u32, r: u32, s: u32) -> bool
    requires p_in { p < length points.now }
    requires q_in { q < length points.now }
    requires r_in { r < length points.now }
    requires s_in { s < length points.now }
{
    let sides = [
        points.orient(p, q, s),
        points.orient(q, r, s),
        points.orient(r, p, s),
    ];
    sides.iter().all(|turn| *turn != Turn::Right)
}

// Whether the closed triangle of the three has no further point.
fn is_empty(points: &Points, p: u32, q: u32, r: u32) -> bool
    requires p_in { p < length points.now }
    requires q_in { q < length points.now }
    requires r_in { r < length points.now }
{
    for s in 0..points.len() {
        if s != p && s != q && s != r && is_in_triangle(points, p, q, r, s) {
            return false;
        }
    }
    true
}

// The apex of p to q: with them it spans an empty triangle of the pairs, on the left.
fn apex(points: &Points, pairs: &[Pair], p: u32, q: u32) -> Option<u32>
    requires p_in { p < length points.now }
    requires q_in { q < length points.now }
    ensures { IfSome result (λ r. r < length points.now) }
{
    for r in 0..points.len() {
        if joins(pairs, p, r)
            && joins(pairs, q, r)
            && points.is_left(p, q, r)
            && is_empty(points, p, q, r)
        {
            return Some(r);
        }
    }
    None
}

fn why_bent(points: &Points, e: Pair, k: u32, l: u32) -> Option<Why>
    requires k_in { k < length points.now }
    requires l_in { l < length points.now }
    requires within { e.hi < length points.now }
{
    if points.orient(k, l, e.lo()) != Turn::Right {
        Some(Why::Bent(e.lo()))
    } else if points.orient(k, l, e.hi()) != Turn::Left {
        Some(Why::Bent(e.hi()))
    } else {
        None
    }
}

fn why_no_flip(points: &Points, lists: &Lists, e: Pair, f: Pair) -> Option<Why>
    requires { e.hi < length points.now }
{
    if let Some(why) = why_no_keep(lists, e) {
        return Some(why);
    }
    if has(lists.all(), f) {
        return Some(Why::AlreadyThere);
    }
    let near = apex(points, lists.all(), e.lo(), e.hi());
    let far = apex(points, lists.all(), e.hi(), e.lo());
    let is_no_apex = |v: u32| near != Some(v) && far != Some(v);
    if is_no_apex(f.lo()) {
        return Some(Why::NotApex(f.lo()));
    }
    if is_no_apex(f.hi()) {
        return Some(Why::NotApex(f.hi()));
    }
    match (near, far) {
        (Some(k), Some(l)) => why_bent(points, e, k, l),
        _ => None,
    }
}

// That of a drop of points.
fn why_no_drop_of(
    alloc: Global,
    points: &Points,
    lists: &Lists,
    e: Pair,
) -> Result<Option<Why>, Fail> {
    if e.hi() >= points.len() {
        return Err(Fail::from("an end beyond the points"));
    }
    why_no_drop(alloc, points, lists, e)
}

// That of a flip of points.
fn why_no_flip_of(points: &Points, lists: &Lists, e: Pair, f: Pair) -> Result<Option<Why>, Fail> {
    if e.hi() >= points.len() {
        return Err(Fail::from("an end beyond the points"));
    }
    Ok(why_no_flip(points, lists, e, f))
}

/// The first refusal that applies to the edit, or none.
pub(crate) fn why_not(
    alloc: Global,
    points: &Points,
    lists: &Lists,
    edit: Edit,
) -> Result<Option<Why>, Fail> {
    match edit {
        Edit::Drop(e) => why_no_drop_of(alloc, points, lists, e),
        Edit::Keep(e) => Ok(why_no_keep(lists, e)),
        Edit::Flip { from, to } => why_no_flip_of(points, lists, from, to),
    }
}
