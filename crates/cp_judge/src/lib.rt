//! The judge: whether a list of segments is a convex partition of a point set, and else its first violation. It takes no
//! memory.
#![tactic(auto)]

ghost use Rattle.std.specs.Prelude.{◌≡◌, ◌<◌, ◌^◌, ◌↔◌, length};
ghost use Rattle.partition_defs.specs.Partition.{AreWithin, IsConvexPartition};
ghost use Rattle.partition_defs.specs.Triangulation.{AreDistinct};
ghost use Rattle.cp_judge.specs.declared.answer.Judgement.{Judgement};
ghost use Rattle.cp_judge.specs.Judgement.{IsJudgement};

mod answer;
mod blocks;
mod border;
mod clear;
mod crossing;
mod doubled;
mod ends;
mod needs;
mod outline;
mod turning;

pub use answer::Judgement;
use border::first_missing_border;
use clear::first_not_clear;
use crossing::first_crossing;
use doubled::first_doubled;
use needs::first_unmet;
use plane::{MOST_POINTS, Pair, Points};

// The most pairs that are put in order on the stack; a longer list is compared pair by pair.
const MOST_ORDERED: usize = 20_000;

// The first violation, or that there is none.
fn first_violation(points: &Points, list: &[Pair]) -> Judgement
    requires within { AreWithin points.now list.now }
    requires fewer { length list.now < 2 ^ 32 }
    ensures { IsJudgement points.now list.now result }
{
    if let Some(e) = first_doubled(list) {
        return Judgement::Doubled(e);
    }
    if let Some((e, p)) = first_not_clear(points, list) {
        return Judgement::NotClear(e, p);
    }
    if let Some((e, f)) = first_crossing(points, list) {
        return Judgement::Crossing(e, f);
    }
    let _count = points.len();
    let mut marks = [false; MOST_POINTS];
    if let Some(e) = first_missing_border(points, list, &mut marks) {
        return Judgement::MissingBorder(e);
    }
    if let Some((p, q)) = first_unmet(points, list, &marks) {
        return Judgement::Unmet(p, q);
    }
    Judgement::Convex(list.len() as u32)
}

/// The judgement on a list of segments: the first violation in the order of the variants of `Judgement`, or `Convex`
/// exactly where the list has no pair twice and its set is a convex partition. Each variant shows the first case of its
/// kind, so the judgement is determined. The ends are indices of points. (The challenge's condition; the order is this
/// project's own.)
pub fn judge(points: &Points, list: &[Pair]) -> Judgement
    requires within { AreWithin points.now list.now }
    requires fewer { length list.now < 2 ^ 32 }
    ensures first { IsJudgement points.now list.now result }
    ensures only { (j : Judgement) → IsJudgement points.now list.now j → j ≡ result }
    ensures convex { (result ≡ Judgement.Convex (length list.now)) ↔ (AreDistinct list.now × IsConvexPartition points.now list.now) }
{
    first_violation(points, list)
}

#[cfg(test)]
mod tests;
