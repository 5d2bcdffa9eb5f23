// The segments of a list by their ends, in an order in which neighbours lie near each other.
ghost use Rattle.std.specs.Prelude.{◌≡◌, ◌<◌, ◌^◌, length, IsTrue, IsFalse, ◌≤ℤ◌};
ghost use Rattle.std.specs.List.Sorted.{IsPermutation};
ghost use Rattle.plane.specs.Accepted.{IsNear};
ghost use Rattle.partition_defs.specs.Partition.{AreWithin};
ghost use Rattle.crossings.specs.Segments.{AreSegments, AreEndsOf};

use plane::{Pair, Point, Points};

// How many segments a strip has.
const STRIP: usize = 64;

/// A segment by its ends, and the position at which its pair stands. The first end is left of the other, or below it where both
/// have one x.
#[derive(Clone, Copy)]
pub struct Segment {
    pub from: Point,
    pub to: Point,
    pub place: u32,
}

impl Segment {
    /// A segment of no length, which fills room.
    pub fn nowhere() -> Segment
        ensures near_from { IsNear result.from }
        ensures near_to { IsNear result.to }
    {
        let origin = Point { x: 0, y: 0 };
        Segment {
            from: origin,
            to: origin,
            place: 0,
        }
    }

    // The length as a sum of its steps across and upward.
    fn span(&self) -> u64 {
        let across = self.from.x.abs_diff(self.to.x);
        across.saturating_add(self.from.y.abs_diff(self.to.y))
    }

    // The class of its length, and how far left it begins.
    fn key(&self) -> (u32, i64) {
        ((64 - self.span().leading_zeros()) / 3, self.from.x)
    }
}

// Whether the first point is left of the second, or below it.
fn is_first(p: Point, q: Point) -> bool
    ensures first { IsTrue result → p.x ≤ℤ q.x }
    ensures second { IsFalse result → q.x ≤ℤ p.x }
{
    p.x < q.x || (p.x == q.x && p.y < q.y)
}

/// The segment of a pair that stands at a position.
pub fn segment_of(points: &Points, e: Pair, place: u32) -> Segment
    requires { e.hi < length points.now }
    ensures ends { AreEndsOf points.now e result.from result.to }
    ensures near_from { IsNear result.from }
    ensures near_to { IsNear result.to }
    ensures forward { result.from.x ≤ℤ result.to.x }
    ensures place { result.place ≡ place }
{
    let (p, q) = (points.at(e.lo()), points.at(e.hi()));
    if is_first(p, q) {
        Segment {
            from: p,
            to: q,
            place,
        }
    } else {
        Segment {
            from: q,
            to: p,
            place,
        }
    }
}

/// Puts the segment of each pair at the pair's position.
pub fn copy_segments(points: &Points, list: &[Pair], segments: &mut [Segment])
    requires within { AreWithin points.now list.now }
    requires count { length list.now < 2 ^ 32 }
    requires room { length segments.old ≡ length list.now }
    ensures { AreSegments points.now list.now segments.new }
{
    for place in 0..list.len() {
        segments[place] = segment_of(points, list[place], place as u32);
    }
}

// Puts segments into an order in which neighbours mostly lie near each other: long ones apart from short ones, those of a
// class in strips by their left ends, and those of a strip upward.
fn arrange(segments: &mut [Segment])
    ensures { IsPermutation segments.old segments.new }
{
    segments.sort_unstable_by_key(|z| z.key());
    for i in 0..segments.len() / STRIP + 1 {
        arrange_strip(segments, i * STRIP);
    }
}

// Puts the segments of the strip that begins here in order.
fn arrange_strip(segments: &mut [Segment], from: usize)
    ensures { IsPermutation segments.old segments.new }
{
    let to = segments.len().min(from.saturating_add(STRIP));
    if from < to {
        segments[from..to].sort_unstable_by_key(|z| (z.from.y, z.to.y));
    }
}

// Puts the segments of a list in order. It needs as much room as there are pairs.
pub fn set_segments(points: &Points, list: &[Pair], segments: &mut [Segment])
    requires within { AreWithin points.now list.now }
    requires count { length list.now < 2 ^ 32 }
    requires room { length segments.old ≡ length list.now }
    ensures { AreSegments points.now list.now segments.new }
{
    copy_segments(points, list, segments);
    arrange(segments);
}
