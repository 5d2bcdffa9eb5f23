// Blocks of segments that lie near each other and groups of blocks, with boxes round their first ends, round their other ends,
// and round all. Whether some segment of a group or a block crosses another one is asked of the boxes first.
ghost use Rattle.std.specs.Prelude.{◌≡◌, ◌+◌, ◌*◌, ◌<◌, ◌≤◌, ◌^◌, ◌↔◌, ℕ, length, IsTrue, IsFalse};
ghost use Rattle.plane.specs.Geometry.{DoCross};
ghost use Rattle.plane.specs.Accepted.{IsNear};
ghost use Rattle.partition_defs.specs.Partition.{AreWithin};
ghost use Rattle.crossings.specs.declared.segments.Segment.{Segment};
ghost use Rattle.crossings.specs.Crossings.{DoCrossAt, CrossesLater};
ghost use Rattle.crossings.specs.Segments.{segment, block, IsSegment, AreSegments, HasNearBoxes};
ghost use Rattle.crossings.specs.Segments.{HasSegment, IsInBlock, AreBoundedBelow, AreInBlocks};
ghost use Rattle.crossings.specs.Trying.{AreNearSegments, CrossesNone, HaveCommonEnd};

use crate::segments::{Segment, set_segments};
use boxes::Bounds;
use plane::{Pair, Point, Points};

/// How many segments a block has.
pub const BLOCK: usize = 16;

/// How many segments a group of blocks has.
pub const GROUP: usize = 256;

// How many blocks a group has.
const GROUP_BLOCKS: usize = 16;

/// The boxes of a block or of a group: round the first ends of its segments, round their other ends, and round both.
#[derive(Clone, Copy)]
pub struct Block {
    pub from: Bounds,
    pub to: Bounds,
    pub both: Bounds,
}

impl Block {
    /// The block of one segment.
    pub fn around(z: Segment) -> Block
        requires near_from { IsNear z.from }
        requires near_to { IsNear z.to }
        ensures near { HasNearBoxes result }
        ensures has { HasSegment result z }
    {
        let from = Bounds::around(z.from);
        Block {
            from,
            to: Bounds::around(z.to),
            both: from.with(z.to),
        }
    }

    // The block with one more segment.
    fn with(&self, z: Segment) -> Block
        requires near { HasNearBoxes self.now }
        requires near_from { IsNear z.from }
        requires near_to { IsNear z.to }
        ensures near { HasNearBoxes result }
        ensures has { HasSegment result z }
        ensures kept { (w : Segment) → HasSegment self.now w → HasSegment result w }
    {
        Block {
            from: self.from.with(z.from),
            to: self.to.with(z.to),
            both: self.both.with(z.from).with(z.to),
        }
    }

    // Whether no end is right of the line from a to b.
    fn has_none_right(&self, a: Point, b: Point) -> bool
        requires near { HasNearBoxes self.now }
        requires near_a { IsNear a }
        requires near_b { IsNear b }
        ensures { IsTrue result → (z : Segment) → HasSegment self.now z → ¬ DoCross a b z.from z.to }
    {
        self.from.has_none_right(a, b) && self.to.has_none_right(a, b)
    }

    // The same of the line from b to a, with the ends of a crossing the other way round.
    fn has_none_left(&self, a: Point, b: Point) -> bool
        requires near { HasNearBoxes self.now }
        requires near_a { IsNear a }
        requires near_b { IsNear b }
        ensures { IsTrue result → (z : Segment) → HasSegment self.now z → ¬ DoCross a b z.from z.to }
    {
        self.from.has_none_right(b, a) && self.to.has_none_right(b, a)
    }

    // Whether the block is seen to have no segment that crosses that from a to b: it is out of range, or has no ends on one
    // side of the line.
    fn is_beside(&self, a: Point, b: Point) -> bool
        requires near { HasNearBoxes self.now }
        requires near_a { IsNear a }
        requires near_b { IsNear b }
        ensures { IsTrue result → (z : Segment) → HasSegment self.now z → ¬ DoCross a b z.from z.to }
    {
        if self.both.is_out_of_range(a, b) {
            return true;
        }
        self.has_none_right(a, b) || self.has_none_left(a, b)
    }
}

// The boxes round as many segments as a block has, from an index on.
fn block_of(segments: &[Segment], from: usize, size: usize) -> Block
    requires near { AreNearSegments segments.now }
    requires some { from < length segments.now }
    ensures near { HasNearBoxes result }
    ensures has { (k : ℕ) → from ≤ k → k < from + size → k < length segments.now → HasSegment result (segment segments.now k) }
{
    let mut block = Block::around(segments[from]);
    for k in from..segments.len().min(from.saturating_add(size)) {
        block = block.with(segments[k]);
    }
    block
}

// Puts the boxes round each block of so many segments.
fn bound_blocks(segments: &[Segment], blocks: &mut [Block], size: usize)
    requires near { AreNearSegments segments.now }
    requires near_blocks { (i : ℕ) → i < length blocks.old → HasNearBoxes (block blocks.old i) }
    ensures { AreBoundedBelow size segments.now blocks.new (length blocks.new) }
{
    for i in 0..blocks.len() {
        let from = i.saturating_mul(size);
        if from < segments.len() {
            blocks[i] = block_of(segments, from, size);
        }
    }
}

/// Puts the segments of a list into blocks and groups of neighbours, with boxes. It needs as much room as there are pairs, a
/// block for each `BLOCK` of them, and a group for each `GROUP`.
pub fn set_blocks(
    points: &Points,
    list: &[Pair],
    segments: &mut [Segment],
    blocks: &mut [Block],
    groups: &mut [Block],
)
    requires within { AreWithin points.now list.now }
    requires count { length list.now < 2 ^ 32 }
    requires room { length segments.old ≡ length list.now }
    requires enough { length list.now ≤ 16 * length blocks.old }
    requires enough_groups { length list.now ≤ 256 * length groups.old }
    requires near_blocks { (i : ℕ) → i < length blocks.old → HasNearBoxes (block blocks.old i) }
    requires near_groups { (i : ℕ) → i < length groups.old → HasNearBoxes (block groups.old i) }
    ensures { AreInBlocks points.now list.now segments.new blocks.new groups.new }
{
    set_segments(points, list, segments);
    bound_blocks(segments, blocks, BLOCK);
    bound_blocks(segments, groups, GROUP);
}

/// Whether the segments at two positions cross. (Textbook.)
pub fn cross_at(points: &Points, list: &[Pair], a: u32, b: u32) -> bool
    requires within { AreWithin points.now list.now }
    requires a_in { a < length list.now }
    requires b_in { b < length list.now }
    ensures { IsTrue result ↔ DoCrossAt points.now list.now a b }
{
    let (e, f) = (list[a as usize], list[b as usize]);
    !have_common_end(e, f) && points.cross(e, f)
}

// Whether two pairs have an end in common. Such pairs don't cross.
fn have_common_end(e: Pair, f: Pair) -> bool
    ensures { IsTrue result → HaveCommonEnd e f }
{
    e.lo() == f.lo() || e.lo() == f.hi() || e.hi() == f.lo() || e.hi() == f.hi()
}

// Whether the pair at position a crosses a later one whose segment is in a block.
fn crosses_in_block(points: &Points, list: &[Pair], segments: &[Segment], i: usize, a: u32) -> bool
    requires within { AreWithin points.now list.now }
    requires segments { AreSegments points.now list.now segments.now }
    requires few { i < 2 ^ 32 }
    requires a_in { a < length list.now }
    ensures { IsFalse result → CrossesNone (IsInBlock 16 i) points.now list.now segments.now a }
{
    let from = i * BLOCK;
    for k in from..segments.len().min(from + BLOCK) {
        let b = segments[k].place;
        if a < b && cross_at(points, list, a, b) {
            return true;
        }
    }
    false
}

// The same, with a look at the block's boxes first.
fn may_cross_block(
    points: &Points,
    list: &[Pair],
    segments: &[Segment],
    blocks: &[Block],
    i: usize,
    z: Segment,
) -> bool
    requires within { AreWithin points.now list.now }
    requires segments { AreSegments points.now list.now segments.now }
    requires boxes { AreBoundedBelow 16 segments.now blocks.now (length blocks.now) }
    requires few { i < 2 ^ 32 }
    requires i_in { i < length blocks.now }
    requires z_of { IsSegment points.now list.now z }
    ensures { IsFalse result → CrossesNone (IsInBlock 16 i) points.now list.now segments.now z.place }
{
    !blocks[i].is_beside(z.from, z.to) && crosses_in_block(points, list, segments, i, z.place)
}

// The same of the blocks of a group.
fn may_cross_blocks(
    points: &Points,
    list: &[Pair],
    segments: &[Segment],
    blocks: &[Block],
    g: usize,
    z: Segment,
) -> bool
    requires within { AreWithin points.now list.now }
    requires segments { AreSegments points.now list.now segments.now }
    requires boxes { AreBoundedBelow 16 segments.now blocks.now (length blocks.now) }
    requires room { length segments.now ≤ 16 * length blocks.now }
    requires few { length blocks.now < 2 ^ 32 }
    requires g_few { g < 2 ^ 32 }
    requires z_of { IsSegment points.now list.now z }
    ensures { IsFalse result → CrossesNone (IsInBlock 256 g) points.now list.now segments.now z.place }
{
    let from = g * GROUP_BLOCKS;
    for i in from..blocks.len().min(from + GROUP_BLOCKS) {
        if may_cross_block(points, list, segments, blocks, i, z) {
            return true;
        }
    }
    false
}

// The same, with a look at the group's boxes first.
fn may_cross_group(
    points: &Points,
    list: &[Pair],
    segments: &[Segment],
    blocks: &[Block],
    groups: &[Block],
    g: usize,
    z: Segment,
) -> bool
    requires within { AreWithin points.now list.now }
    requires in_blocks { AreInBlocks points.now list.now segments.now blocks.now groups.now }
    requires few { length blocks.now < 2 ^ 32 }
    requires g_few { g < 2 ^ 32 }
    requires g_in { g < length groups.now }
    requires z_of { IsSegment points.now list.now z }
    ensures { IsFalse result → CrossesNone (IsInBlock 256 g) points.now list.now segments.now z.place }
{
    !groups[g].is_beside(z.from, z.to) && may_cross_blocks(points, list, segments, blocks, g, z)
}

/// Whether the pair of this segment crosses a later one, by the boxes of groups and blocks first. Where it says no, none does.
pub fn may_cross(
    points: &Points,
    list: &[Pair],
    segments: &[Segment],
    blocks: &[Block],
    groups: &[Block],
    z: Segment,
) -> bool
    requires within { AreWithin points.now list.now }
    requires in_blocks { AreInBlocks points.now list.now segments.now blocks.now groups.now }
    requires few { length blocks.now < 2 ^ 32 }
    requires few_groups { length groups.now < 2 ^ 32 }
    requires z_of { IsSegment points.now list.now z }
    ensures { IsFalse result → (b : ℕ) → ¬ CrossesLater points.now list.now z.place b }
{
    for g in 0..groups.len() {
        if may_cross_group(points, list, segments, blocks, groups, g, z) {
            return true;
        }
    }
    false
}
