// Stars made from a list of segments.
ghost use Rattle.std.specs.Prelude.{◌≡◌, ◌≢◌, ◌<◌, ℕ, [], length, IfOk, OnOk, vec_len};
ghost use Rattle.star.specs.Stars.{IsStar, IsFree};
ghost use Rattle.star.specs.StarOf.{IsStarOf};
ghost use Rattle.partition_defs.specs.Triangulation.{IsTriangulation, AreDistinct};
ghost use Rattle.subdivision.specs.Layout.{star_at, AreStarsOf};
ghost use Rattle.subdivision.specs.Joining.{GainsKept, GainsKeptEnds};

use mcp_outside::NoMemory;
use plane::{Pair, Points};
use star::Star;
use std::alloc::Global;

/// The stars of all points, by index, in a triangulation whose segments are all kept.
pub fn stars_of(alloc: Global, points: &Points, pairs: &[Pair]) -> Result<Vec<Star>, NoMemory>
    requires distinct { AreDistinct pairs.now }
    requires triangulation { IsTriangulation points.now pairs.now }
    ensures { IfOk result (λ stars. AreStarsOf points.now pairs.now pairs.now stars.items) }
{
    let _count = points.len();
    let mut stars = bare_stars(alloc, points)?;
    for pair in pairs {
        link_ends(points, &mut stars, *pair)?;
    }
    Ok(stars)
}

// A star without neighbours for each point.
fn bare_stars(alloc: Global, points: &Points) -> Result<Vec<Star>, NoMemory>
    ensures { IfOk result (λ stars. AreStarsOf points.now [] [] stars.items) }
{
    let mut stars = Vec::with_capacity(alloc, points.len() as usize)?;
    for v in 0..points.len() {
        stars.push(bare_star(alloc, points, v))?;
    }
    Ok(stars)
}

fn bare_star(alloc: Global, points: &Points, v: u32) -> Star
    requires { v < length points.now }
    ensures { IsStarOf points.now [] [] v result }
{
    Star::make(alloc, points, v)
}

// Makes each end of the segment a kept neighbour of the other.
fn link_ends(points: &Points, stars: &mut [Star], pair: Pair) -> Result<(), NoMemory>
    requires count { length stars.old ≡ length points.now }
    requires within { pair.hi < length points.now }
    requires points { (v : ℕ) → v < length points.now → (star_at stars.old v).points ≡ points.now }
    requires centres { (v : ℕ) → v < length points.now → (star_at stars.old v).centre ≡ v }
    requires lower { IsFree (star_at stars.old pair.lo) pair.hi }
    requires upper { IsFree (star_at stars.old pair.hi) pair.lo }
    ensures { OnOk result (GainsKeptEnds stars.old stars.new pair) }
{
    let lower = &mut stars[pair.lo() as usize];
    link(points, lower, pair.hi())?;
    let upper = &mut stars[pair.hi() as usize];
    link(points, upper, pair.lo())
}

// Makes w a kept neighbour.
fn link(points: &Points, star: &mut Star, w: u32) -> Result<(), NoMemory>
    requires points { points.now ≡ star.old.points }
    requires within { w < length points.now }
    requires apart { w ≢ star.old.centre }
    requires free { IsFree star.old w }
    ensures { OnOk result (GainsKept star.old star.new w) }
{
    star.reserve(1)?;
    star.insert(points, w);
    star.keep_mark(points, w);
    Ok(())
}
