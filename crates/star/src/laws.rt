//! How the needs at a point follow from the gaps between its kept neighbours in turning order. (This project's own law;
//! the challenge's condition asks for the gaps.) Each function does nothing; its contract is the law.
ghost use Rattle.std.specs.Prelude.{◌≡◌, ◌⊎◌, ◌↔◌};
ghost use Rattle.star.specs.Stars.{entry};
ghost use Rattle.star.specs.Gaps.{IsKept, IsKeptAfter, IsKeptBefore, IsWide, MeetsAll, MissesSome, MissesWithout, HasNoWideGap, HasWideGap};

use crate::Star;
use plane::Points;

/// The needs of the centre are met exactly where some neighbour is kept and no gap between a kept one and the next is
/// more than straight.
pub fn needs_by_gaps(points: &Points, star: &Star)
    requires { points.now ≡ star.now.points }
    ensures met { MeetsAll points.now star.now.centre star.now.list ↔ HasNoWideGap points.now star.now.centre star.now.list }
    ensures missed { MissesSome points.now star.now.centre star.now.list ↔ HasWideGap points.now star.now.centre star.now.list }
{
    let _count = points.len();
    let _centre = star.centre();
}

/// At most one gap is more than straight.
pub fn one_wide_gap(points: &Points, star: &Star, i: u32, j: u32, k: u32, l: u32)
    requires points { points.now ≡ star.now.points }
    requires first { IsKept star.now.list i }
    requires after_first { IsKeptAfter star.now.list i j }
    requires second { IsKept star.now.list k }
    requires after_second { IsKeptAfter star.now.list k l }
    ensures { IsWide points.now star.now.centre (entry star.now.list i).0 (entry star.now.list j).0
        → IsWide points.now star.now.centre (entry star.now.list k).0 (entry star.now.list l).0 → i ≡ k }
{
    let _count = points.len();
    let _centre = star.centre();
}

/// Without a kept neighbour some need is missed exactly where one is missed already, or the gap from the kept
/// neighbour before it to the one after it is more than straight. Both are the neighbour itself where it is alone.
pub fn needs_without(points: &Points, star: &Star, k: u32, a: u32, b: u32)
    requires points { points.now ≡ star.now.points }
    requires kept { IsKept star.now.list k }
    requires before { IsKeptBefore star.now.list k a }
    requires after { IsKeptAfter star.now.list k b }
    ensures { MissesWithout star.now (entry star.now.list k).0
        ↔ (MissesSome points.now star.now.centre star.now.list
        ⊎ IsWide points.now star.now.centre (entry star.now.list a).0 (entry star.now.list b).0) }
{
    let _count = points.len();
    let _centre = star.centre();
}

/// With a kept neighbour that splits a gap of more than straight some need is missed exactly where one of its two
/// parts is more than straight.
pub fn needs_with(points: &Points, star: &Star, k: u32, a: u32, b: u32)
    requires points { points.now ≡ star.now.points }
    requires kept { IsKept star.now.list k }
    requires before { IsKeptBefore star.now.list k a }
    requires after { IsKeptAfter star.now.list k b }
    requires wide { IsWide points.now star.now.centre (entry star.now.list a).0 (entry star.now.list b).0 }
    ensures { MissesSome points.now star.now.centre star.now.list
        ↔ (IsWide points.now star.now.centre (entry star.now.list a).0 (entry star.now.list k).0
        ⊎ IsWide points.now star.now.centre (entry star.now.list k).0 (entry star.now.list b).0) }
{
    let _count = points.len();
    let _centre = star.centre();
}
