// What the stars of a pair's ends show.
ghost use Rattle.std.specs.Prelude.{◌≡◌, ◌<◌, ◌≤◌, ◌↔◌, length, IsTrue, IfSome, MatchOption, true, false};
ghost use Rattle.plane.specs.Geometry.{IsInner};
ghost use Rattle.star.specs.Stars.{IsNeighbour, IsStar, HasMark, entry};
ghost use Rattle.star.specs.Gaps.{IsKept, MeetsWithout, MissesWithout};
ghost use Rattle.journal_defs.specs.Table.{IsAt, StaysMet, IsOpened, Shows};
ghost use Rattle.edit.specs.Shown.{IsMarkOf, IsShownApex, IsMetInside};

use plane::{Pair, Points};
use star::Star;

// The mark of q, or none where it isn't a neighbour.
fn mark_of(points: &Points, star: &Star, q: u32) -> Option<bool>
    requires { points.now ≡ star.now.points }
    ensures { IsMarkOf star.now q result }
{
    let k = star.place(points, q)?;
    Some(star.at(k).1)
}

/// The mark of the pair in the star of its smaller end, or none where it isn't there.
pub fn pair_mark(points: &Points, lower: &Star, e: Pair) -> Option<bool>
    requires { IsAt points.now lower.now e.lo }
    ensures mark { IsMarkOf lower.now e.hi result }
    ensures order { IsStar lower.now }
{
    let _degree = lower.degree();
    mark_of(points, lower, e.hi())
}

// Whether q is a neighbour.
fn shows_neighbour(points: &Points, star: &Star, q: u32) -> bool
    requires { points.now ≡ star.now.points }
    ensures { IsTrue result ↔ IsNeighbour star.now q }
{
    star.place(points, q).is_some()
}

/// Whether the pair is there, as the star of its smaller end says.
pub fn shows(points: &Points, lower: &Star, e: Pair) -> bool
    requires { IsAt points.now lower.now e.lo }
    ensures { IsTrue result ↔ Shows lower.now e }
{
    shows_neighbour(points, lower, e.hi())
}

// The apex of the centre to q that the star shows, or none.
fn shown_apex(points: &Points, star: &Star, q: u32) -> Option<u32>
    requires points { points.now ≡ star.now.points }
    requires within { q < length points.now }
    ensures apex { IsShownApex points.now star.now star.now.centre q result }
    ensures within { IfSome result (λ r. r < length points.now) }
{
    let _degree = star.degree();
    let r = star.next(points, q)?;
    if points.is_left(star.centre(), q, r) {
        Some(r)
    } else {
        None
    }
}

/// The apex of the pair from its smaller end that the star there shows, or none.
pub fn near_apex(points: &Points, lower: &Star, e: Pair) -> Option<u32>
    requires lower { IsAt points.now lower.now e.lo }
    requires within { e.hi < length points.now }
    ensures apex { IsShownApex points.now lower.now e.lo e.hi result }
    ensures within { IfSome result (λ r. r < length points.now) }
    ensures order { IsStar lower.now }
{
    let _degree = lower.degree();
    shown_apex(points, lower, e.hi())
}

/// The apex of the pair from its larger end that the star there shows, or none.
pub fn far_apex(points: &Points, upper: &Star, e: Pair) -> Option<u32>
    requires upper { IsAt points.now upper.now e.hi }
    requires within { e.hi < length points.now }
    ensures apex { IsShownApex points.now upper.now e.hi e.lo result }
    ensures within { IfSome result (λ r. r < length points.now) }
    ensures order { IsStar upper.now }
{
    let _degree = upper.degree();
    shown_apex(points, upper, e.lo())
}

// The position of q where it is a kept neighbour, or none.
fn kept_place(points: &Points, star: &Star, q: u32) -> Option<u32>
    requires { points.now ≡ star.now.points }
    ensures { MatchOption result
        (¬ HasMark star.now q true)
        (λ k. IsKept star.now.list k × ((entry star.now.list k).0 ≡ q)) }
{
    let _degree = star.degree();
    let k = star.place(points, q)?;
    if star.at(k).1 { Some(k) } else { None }
}

// Whether some need of the centre isn't met by the kept neighbours other than q.
fn misses_without(points: &Points, star: &Star, q: u32) -> bool
    requires { points.now ≡ star.now.points }
    ensures missed { IsTrue result ↔ MissesWithout star.now q }
    ensures met { result ≡ false → MeetsWithout star.now q }
{
    match kept_place(points, star, q) {
        None => star.misses_some(),
        Some(k) => star.opens_at(k),
    }
}

// The last kept neighbour at a position from `from` to `to`.
fn last_kept(star: &Star, from: u32, to: u32) -> Option<u32>
    requires { to ≤ length star.now.list }
    ensures { IfSome result (λ r. r < length star.now.points) }
{
    for k in (from..to).rev() {
        let (r, kept) = star.at(k);
        if kept {
            return Some(r);
        }
    }
    None
}

// The kept neighbour before that at k.
fn kept_before(star: &Star, k: u32) -> Option<u32>
    requires { k ≤ length star.now.list }
    ensures { IfSome result (λ r. r < length star.now.points) }
{
    let degree = star.degree();
    match last_kept(star, 0, k) {
        Some(r) => Some(r),
        None => last_kept(star, k, degree),
    }
}

// Whether the centre is strictly inside the triangle of the three, counterclockwise.
fn is_strictly_inside(points: &Points, centre: u32, a: u32, b: u32, c: u32) -> bool
    requires centre_in { centre < length points.now }
    requires a_in { a < length points.now }
    requires b_in { b < length points.now }
    requires c_in { c < length points.now }
    ensures { IsTrue result → IsInner points.now centre }
{
    let _count = points.len();
    if !points.is_left(a, b, centre) {
        return false;
    }
    if !points.is_left(b, c, centre) {
        return false;
    }
    points.is_left(c, a, centre)
}

// Through as many neighbours a star is gone for a centre that they surround.
const FEW: u32 = 16;

// Whether q and the kept neighbours before and after it are seen to surround the centre. Among many neighbours these aren't
// looked for.
fn is_surrounded(points: &Points, star: &Star, q: u32) -> bool
    requires { points.now ≡ star.now.points }
    ensures { IsTrue result → IsInner points.now star.now.centre }
{
    let degree = star.degree();
    if degree > FEW {
        return false;
    }
    match star.place(points, q) {
        None => false,
        Some(k) => match (kept_before(star, k), star.kept_next(points, q)) {
            (Some(a), Some(b)) => is_strictly_inside(points, star.centre(), a, q, b),
            _ => false,
        },
    }
}

// Whether the centre is an inner point. Where q and the kept neighbours beside it surround the centre, it is one, and no
// point has to be looked for.
fn is_inner(points: &Points, star: &Star, q: u32) -> bool
    requires { points.now ≡ star.now.points }
    ensures { IsTrue result ↔ IsInner points.now star.now.centre }
{
    is_surrounded(points, star, q) || points.is_inner(star.centre())
}

// Whether some need of the centre is missed where all needs of an inner centre are known to be met: then the centre is
// none.
fn is_outer(star: &Star, are_met: bool) -> bool
    requires { are_met ≡ true → IsMetInside star.now }
    ensures { IsTrue result → ¬ IsInner star.now.points star.now.centre }
{
    are_met && star.misses_some()
}

/// Whether the centre is an inner point with a need that opens without its pair with `q`. With `are_met`, all needs of it
/// are known to be met where it is an inner point. (This project's own.)
pub fn opens_without(points: &Points, star: &Star, q: u32, are_met: bool) -> bool
    requires points { points.now ≡ star.now.points }
    requires met { are_met ≡ true → IsMetInside star.now }
    ensures opened { IsTrue result → IsOpened points.now star.now star.now.centre q }
    ensures met { result ≡ false → StaysMet points.now star.now star.now.centre q }
{
    if is_outer(star, are_met) {
        return false;
    }
    misses_without(points, star, q) && is_inner(points, star, q)
}

/// Whether a need of the pair's smaller end opens without the pair. With `are_met`, all needs of it are met where it is an
/// inner point.
pub fn opens_low(points: &Points, lower: &Star, e: Pair, are_met: bool) -> bool
    requires lower { IsAt points.now lower.now e.lo }
    requires met { are_met ≡ true → IsMetInside lower.now }
    ensures opened { IsTrue result → IsOpened points.now lower.now e.lo e.hi }
    ensures met { result ≡ false → StaysMet points.now lower.now e.lo e.hi }
{
    opens_without(points, lower, e.hi(), are_met)
}

/// Whether a need of the pair's larger end opens without the pair. With `are_met`, all needs of it are met where it is an
/// inner point.
pub fn opens_high(points: &Points, upper: &Star, e: Pair, are_met: bool) -> bool
    requires upper { IsAt points.now upper.now e.hi }
    requires met { are_met ≡ true → IsMetInside upper.now }
    ensures opened { IsTrue result → IsOpened points.now upper.now e.hi e.lo }
    ensures met { result ≡ false → StaysMet points.now upper.now e.hi e.lo }
{
    opens_without(points, upper, e.lo(), are_met)
}
