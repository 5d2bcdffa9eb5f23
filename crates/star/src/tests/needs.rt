// The needs of a centre by trying all directions and all kept neighbours, and stars that are held against it.
ghost use Rattle.std.specs.Prelude.{◌≡◌, ◌≢◌, ◌<◌, ℕ, length, IsTrue, ◌↔◌, false};
ghost use Rattle.star.specs.Stars.{entry};
ghost use Rattle.star.specs.Gaps.{IsKept, MeetsWithout};
ghost use Rattle.star.specs.Plain.{MeetsAt, IsMetWithout};

use super::{accepted, put_in, take_out, turn_mark};
use crate::Star;
use plane::{Point, Points};
use std::alloc::Global;
use std::test::Fail;

// Whether the neighbour at k is kept, isn't q, and is in the need of the centre for u.
fn meets(points: &Points, star: &Star, u: u32, q: u32, k: u32) -> bool
    requires points { points.now ≡ star.now.points }
    requires within { u < length points.now }
    requires apart { u ≢ star.now.centre }
    requires place { k < length star.now.list }
    ensures { IsTrue result ↔ MeetsAt star.now u q k }
{
    let (r, kept) = star.at(k);
    let other = r != q;
    if kept && other {
        points.in_need(star.centre(), u, r)
    } else {
        false
    }
}

// Whether a kept neighbour other than q is in the need of the centre for u.
fn is_met_without(points: &Points, star: &Star, u: u32, q: u32) -> bool
    requires points { points.now ≡ star.now.points }
    requires within { u < length points.now }
    requires apart { u ≢ star.now.centre }
    ensures { IsTrue result ↔ IsMetWithout star.now u q }
{
    for k in 0..star.degree() {
        if meets(points, star, u, q, k) {
            return true;
        }
    }
    false
}

// Whether the need of the centre for u is missed by the kept neighbours other than q.
fn is_missed(points: &Points, star: &Star, u: u32, q: u32) -> bool
    requires points { points.now ≡ star.now.points }
    requires within { u < length points.now }
    ensures missed { IsTrue result → (u ≢ star.now.centre) × ¬ IsMetWithout star.now u q }
    ensures met { result ≡ false → u ≢ star.now.centre → IsMetWithout star.now u q }
{
    if u == star.centre() {
        false
    } else {
        !is_met_without(points, star, u, q)
    }
}

// Whether the kept neighbours other than q meet all needs of the centre.
fn meets_without(points: &Points, star: &Star, q: u32) -> bool
    requires { points.now ≡ star.now.points }
    ensures { IsTrue result ↔ MeetsWithout star.now q }
{
    for u in 0..points.len() {
        if is_missed(points, star, u, q) {
            return false;
        }
    }
    true
}

// Holds the answers of the star at its kept neighbours against the needs.
fn is_exact(points: &Points, star: &Star) -> bool
    requires { points.now ≡ star.now.points }
{
    for k in 0..star.degree() {
        let (q, kept) = star.at(k);
        if kept && !agrees(points, star, k, q) {
            return false;
        }
    }
    true
}

// Whether the answers for the kept neighbour q at k are those of the needs.
fn agrees(points: &Points, star: &Star, k: u32, q: u32) -> bool
    requires points { points.now ≡ star.now.points }
    requires kept { IsKept star.now.list k }
    requires name { (entry star.now.list k).0 ≡ q }
{
    let met = meets_without(points, star, q);
    star.opens_at(k) != met && star.opens(points, q) != met && star.place(points, q) == Some(k)
}

// The next number of a fixed sequence, below a limit.
fn draw(seed: &mut u64, limit: u32) -> u32
    requires { 0 < limit }
    ensures { result < limit }
{
    *seed = seed
        .wrapping_mul(6364136223846793005)
        .wrapping_add(1442695040888963407);
    ((*seed >> 33) % limit as u64) as u32
}

// One change by chance: a point that isn't there is put in, a neighbour changes its mark, or goes.
fn change(points: &Points, star: &mut Star, q: u32, odds: u32) -> Result<(), Fail>
    requires points { points.now ≡ star.old.points }
    ensures points { star.new.points ≡ star.old.points }
{
    if star.place(points, q).is_none() {
        put_in(points, star, q)
    } else if odds == 0 {
        take_out(points, star, q);
        Ok(())
    } else {
        turn_mark(points, star, q);
        Ok(())
    }
}

// A grid of five by four points.
fn wide_grid(alloc: Global) -> Result<Points, Fail> {
    let mut list = Vec::new(alloc);
    for k in 0..20i64 {
        list.push(Point { x: k % 5, y: k / 5 })?;
    }
    accepted(list)
}

// Changes one star by chance, some of the time going on with its copy, and counts the faults.
fn faults(points: &Points, star: Star, steps: u32, seed: &mut u64) -> Result<u32, Fail>
    requires { points.now ≡ star.points }
{
    let mut star = star;
    let mut count = 0u32;
    for _step in 0..steps {
        let q = draw(seed, 20);
        let odds = draw(seed, 8);
        change(points, &mut star, q, odds)?;
        if odds == 7 {
            star = star.copy(points)?;
        }
        if !is_exact(points, &star) {
            count = count.saturating_add(1);
        }
    }
    Ok(count)
}

// Each point of a grid as the centre: corners, points inside a side, and inner ones between two others.
#[test]
fn random_changes_agree_with_the_needs(rt: HostRuntime) -> Result<(), Fail> {
    let points = wide_grid(rt.alloc())?;
    let mut seed = 7u64;
    for centre in 0..points.len() {
        let star = Star::make(rt.alloc(), &points, centre);
        assert_eq!(rt; faults(&points, star, 200, &mut seed)?, 0);
    }
    Ok(())
}
