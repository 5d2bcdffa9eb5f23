// Blocks of points that lie near each other, and strips of blocks, each with a box round it. Whether some point is between two
// others is asked of the boxes first.
ghost use Rattle.std.specs.Prelude.{◌≡◌, ◌+◌, ◌*◌, ◌<◌, ◌≤◌, ◌^◌, ℕ, length, IsFalse};
ghost use Rattle.std.specs.List.Sorted.{IsPermutation};
ghost use Rattle.plane.specs.Geometry.{point};
ghost use Rattle.plane.specs.Accepted.{IsNear, AreNear};
ghost use Rattle.boxes.specs.Bounds.{IsWithin, HasNearCorners};
ghost use Rattle.crossings.specs.Segments.{IsInBlock};
ghost use Rattle.cp_judge.specs.Blocks.{bounds_at, AreBoundedBelow, AreBlocks, NoneBetween};

use boxes::Bounds;
use plane::{Point, Points, lies_between};

// How many points a block has.
const BLOCK: usize = 32;

// How many points a strip has, and how many blocks.
const STRIP: usize = 288;

const STRIP_BLOCKS: usize = 9;

// As many blocks and strips as the most points fill.
pub const BLOCK_COUNT: usize = 157;

pub const STRIP_COUNT: usize = 18;

// Puts the points into blocks and strips. It needs as much room as there are points.
pub fn set_blocks(
    points: &Points,
    places: &mut [Point],
    bounds: &mut [Bounds; BLOCK_COUNT],
    strips: &mut [Bounds; STRIP_COUNT],
)
    requires room { length places.old ≡ length points.now }
    requires corners { (i : ℕ) → i < length bounds.old → HasNearCorners (bounds_at bounds.old i) }
    requires strip_corners { (i : ℕ) → i < length strips.old → HasNearCorners (bounds_at strips.old i) }
    ensures { AreBlocks points.now places.new bounds.new strips.new }
{
    let _count = points.len();
    copy_points(points, places);
    arrange(places);
    bound_blocks(places, bounds, BLOCK);
    bound_blocks(places, strips, STRIP);
}

// The points by their index.
fn copy_points(points: &Points, places: &mut [Point])
    requires { length places.old ≡ length points.now }
    ensures { (k : ℕ) → k < length points.now → point places.new k ≡ point points.now k }
{
    for k in 0..points.len() {
        places[k as usize] = points.at(k);
    }
}

// Puts the points into an order in which neighbours mostly lie near each other: in strips by x, and those of a strip upward.
fn arrange(places: &mut [Point])
    ensures { IsPermutation places.old places.new }
{
    places.sort_unstable();
    for i in 0..places.len() / STRIP + 1 {
        arrange_strip(places, i * STRIP);
    }
}

// Puts the points of the strip that begins here in order.
fn arrange_strip(places: &mut [Point], from: usize)
    ensures { IsPermutation places.old places.new }
{
    let to = places.len().min(from.saturating_add(STRIP));
    if from < to {
        places[from..to].sort_unstable_by_key(|p| p.y);
    }
}

// Puts the box round each block of so many points.
fn bound_blocks(places: &[Point], bounds: &mut [Bounds], size: usize)
    requires near { AreNear places.now }
    requires corners { (i : ℕ) → i < length bounds.old → HasNearCorners (bounds_at bounds.old i) }
    ensures { AreBoundedBelow size places.now bounds.new (length bounds.new) }
{
    for i in 0..bounds.len() {
        let from = i.saturating_mul(size);
        if from < places.len() {
            bounds[i] = bounds_of(places, from, size);
        }
    }
}

// The box round so many points from an index on.
fn bounds_of(places: &[Point], from: usize, size: usize) -> Bounds
    requires near { AreNear places.now }
    requires some { from < length places.now }
    ensures near { HasNearCorners result }
    ensures has { (k : ℕ) → from ≤ k → k < from + size → k < length places.now → IsWithin result (point places.now k) }
{
    let mut bounds = Bounds::around(places[from]);
    for k in from..places.len().min(from.saturating_add(size)) {
        bounds = bounds.with(places[k]);
    }
    bounds
}

// Whether some point may be between a and b. Where none is said to be, none is.
pub fn may_have_between(
    places: &[Point],
    bounds: &[Bounds],
    strips: &[Bounds],
    a: Point,
    b: Point,
) -> bool
    requires near { AreNear places.now }
    requires few { length bounds.now < 2 ^ 32 }
    requires few_strips { length strips.now < 2 ^ 32 }
    requires room { length places.now ≤ 32 * length bounds.now }
    requires bounded { AreBoundedBelow 32 places.now bounds.now (length bounds.now) }
    requires strips_bounded { AreBoundedBelow 288 places.now strips.now (length strips.now) }
    requires near_a { IsNear a }
    requires near_b { IsNear b }
    ensures { IsFalse result → NoneBetween (λ k. k < 288 * length strips.now) places.now a b }
{
    for s in 0..strips.len() {
        if strip_may_have_between(places, bounds, strips, s, a, b) {
            return true;
        }
    }
    false
}

// The same of the points of a strip.
fn strip_may_have_between(
    places: &[Point],
    bounds: &[Bounds],
    strips: &[Bounds],
    s: usize,
    a: Point,
    b: Point,
) -> bool
    requires near { AreNear places.now }
    requires few { length bounds.now < 2 ^ 32 }
    requires s_few { s < 2 ^ 32 }
    requires room { length places.now ≤ 32 * length bounds.now }
    requires bounded { AreBoundedBelow 32 places.now bounds.now (length bounds.now) }
    requires strips_bounded { AreBoundedBelow 288 places.now strips.now (length strips.now) }
    requires s_in { s < length strips.now }
    requires near_a { IsNear a }
    requires near_b { IsNear b }
    ensures { IsFalse result → NoneBetween (IsInBlock 288 s) places.now a b }
{
    !strips[s].is_beside(a, b) && blocks_may_have_between(places, bounds, s, a, b)
}

// The same, by the blocks of the strip.
fn blocks_may_have_between(
    places: &[Point],
    bounds: &[Bounds],
    s: usize,
    a: Point,
    b: Point,
) -> bool
    requires near { AreNear places.now }
    requires few { length bounds.now < 2 ^ 32 }
    requires s_few { s < 2 ^ 32 }
    requires room { length places.now ≤ 32 * length bounds.now }
    requires bounded { AreBoundedBelow 32 places.now bounds.now (length bounds.now) }
    requires near_a { IsNear a }
    requires near_b { IsNear b }
    ensures { IsFalse result → NoneBetween (IsInBlock 288 s) places.now a b }
{
    let from = s * STRIP_BLOCKS;
    for i in from..bounds.len().min(from + STRIP_BLOCKS) {
        if block_may_have_between(places, bounds, i, a, b) {
            return true;
        }
    }
    false
}

// The same of the points of a block.
fn block_may_have_between(places: &[Point], bounds: &[Bounds], i: usize, a: Point, b: Point) -> bool
    requires near { AreNear places.now }
    requires few { i < 2 ^ 32 }
    requires within { i < length bounds.now }
    requires bounded { AreBoundedBelow 32 places.now bounds.now (length bounds.now) }
    requires near_a { IsNear a }
    requires near_b { IsNear b }
    ensures { IsFalse result → NoneBetween (IsInBlock 32 i) places.now a b }
{
    !bounds[i].is_beside(a, b) && block_has_between(places, i, a, b)
}

// Whether some point of a block is between a and b.
fn block_has_between(places: &[Point], i: usize, a: Point, b: Point) -> bool
    requires near { AreNear places.now }
    requires few { i < 2 ^ 32 }
    requires near_a { IsNear a }
    requires near_b { IsNear b }
    ensures { IsFalse result → NoneBetween (IsInBlock 32 i) places.now a b }
{
    let from = i * BLOCK;
    for k in from..places.len().min(from + BLOCK) {
        if lies_between(places[k], a, b) {
            return true;
        }
    }
    false
}
