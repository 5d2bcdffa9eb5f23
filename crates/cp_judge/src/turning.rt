// The ends of all segments, by the point that they are at and then in turning order round it. No clause says that they stand
// so: where the order fails, the needs of a point aren't seen to be met, and all is asked in the plain way.
ghost use Rattle.std.specs.Prelude.{◌≡◌, ◌<◌, ◌≤◌, ◌*◌, ◌^◌, length, IsTrue};
ghost use Rattle.std.specs.List.{All};
ghost use Rattle.std.specs.List.Sorted.{IsPermutation};
ghost use Rattle.cp_judge.specs.Ends.{AreOthers, MeetsNeedsAmong};
ghost use Rattle.cp_judge.specs.Turning.{AreEndsOf, IsTarget};

use arrayvec::ArrayVec;
use plane::{MOST_POINTS, Pair, Points, Turn};
use std::cmp::Ordering;

// One end of a segment: at this point, with its other end there.
#[derive(Clone, Copy)]
pub struct End {
    pub at: u32,
    pub to: u32,
}

// Puts both ends of each segment in order.
pub fn set_ends(points: &Points, list: &[Pair], ends: &mut [End])
    requires few { length list.now < 2 ^ 32 }
    requires room { length ends.old ≡ 2 * length list.now }
    ensures { AreEndsOf list.now ends.new }
{
    copy_ends(list, ends);
    turn_ends(points, ends);
}

fn copy_ends(list: &[Pair], ends: &mut [End])
    requires few { length list.now < 2 ^ 32 }
    requires room { length ends.old ≡ 2 * length list.now }
    ensures { AreEndsOf list.now ends.new }
{
    for k in 0..list.len() {
        let e = list[k];
        let (i, j) = (e.lo(), e.hi());
        ends[2 * k] = End { at: i, to: j };
        ends[2 * k + 1] = End { at: j, to: i };
    }
}

fn turn_ends(points: &Points, ends: &mut [End])
    ensures { IsPermutation ends.old ends.new }
{
    ends.sort_unstable_by(|e, f| turning_order(points, *e, *f));
}

// By the point, then counterclockwise from the direction of the positive x axis.
fn turning_order(points: &Points, e: End, f: End) -> Ordering {
    let count = points.len();
    if e.at != f.at || e.at >= count || e.to >= count || f.to >= count {
        return e.at.cmp(&f.at);
    }
    match (is_upper(points, e), is_upper(points, f)) {
        (true, false) => Ordering::Less,
        (false, true) => Ordering::Greater,
        _ => match points.orient(e.at, e.to, f.to) {
            Turn::Left => Ordering::Less,
            Turn::Straight => Ordering::Equal,
            Turn::Right => Ordering::Greater,
        },
    }
}

// Whether the direction is in the first half of the turn.
fn is_upper(points: &Points, e: End) -> bool
    requires at_in { e.at < length points.now }
    requires to_in { e.to < length points.now }
{
    let (p, q) = (points.at(e.at), points.at(e.to));
    p.y < q.y || (p.y == q.y && p.x < q.x)
}

// Puts the ends from this index on that are at p into the run, in place of what was there. It answers the index after them.
pub fn next_run(ends: &[End], from: usize, p: u32, run: &mut ArrayVec<u32, MOST_POINTS>) -> usize
    requires { from ≤ length ends.now }
    ensures within { result ≤ length ends.now }
    ensures run { All (IsTarget ends.now p) run.new.items }
{
    run.clear();
    for k in from..ends.len() {
        let end = ends[k];
        if end.at != p {
            return k;
        }
        if run.try_push(end.to).is_err() {
            return k;
        }
    }
    ends.len()
}

// Whether each end of the run has the next one, and the last the first, in the need of p for it.
pub fn is_met_round(points: &Points, run: &[u32], p: u32) -> bool
    requires p_in { p < length points.now }
    requires others { AreOthers points.now p run.now }
    ensures { IsTrue result → MeetsNeedsAmong points.now run.now p }
{
    let _count = points.len();
    for k in 0..run.len() {
        let next = if k + 1 < run.len() { k + 1 } else { 0 };
        if !points.in_need(p, run[k], run[next]) {
            return false;
        }
    }
    !run.is_empty()
}
