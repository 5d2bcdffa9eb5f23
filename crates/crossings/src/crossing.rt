// The crossing positions of a list, in order.
ghost use Rattle.std.specs.Prelude.{◌≡◌, ℕ, ◌+◌, ◌*◌, ◌<◌, ◌≤◌, ◌^◌, length, IfOk, OnOk};
ghost use Rattle.partition_defs.specs.Partition.{AreWithin};
ghost use Rattle.crossings.specs.Crossings.{AreFirstPairs, CrossesLater};
ghost use Rattle.crossings.specs.Segments.{block, HasNearBoxes, AreInBlocks};
ghost use Rattle.crossings.specs.Trying.{CrossesBefore};

use crate::blocks::{BLOCK, Block, GROUP, cross_at, may_cross, set_blocks};
use crate::segments::{Segment, segment_of};
use mcp_outside::NoMemory;
use plane::{Pair, Points};
use std::alloc::Global;

// Adds two positions where their segments cross and there is room.
fn add_if_crossing(
    points: &Points,
    list: &[Pair],
    a: u32,
    b: u32,
    most: u32,
    found: &mut Vec<(u32, u32)>,
) -> Result<(), NoMemory>
    requires within { AreWithin points.now list.now }
    requires order { a < b }
    requires b_in { b < length list.now }
    requires so_far { AreFirstPairs (CrossesBefore points.now list.now a b) most found.old.items }
    ensures { OnOk result (AreFirstPairs (CrossesBefore points.now list.now a (b + 1)) most found.new.items) }
{
    if found.len() >= most as usize {
        return Ok(());
    }
    if !cross_at(points, list, a, b) {
        return Ok(());
    }
    found.push((a, b))?;
    Ok(())
}

// Adds the later positions that cross this one, as far as there is room.
fn add_crossed(
    points: &Points,
    list: &[Pair],
    a: u32,
    most: u32,
    found: &mut Vec<(u32, u32)>,
) -> Result<(), NoMemory>
    requires within { AreWithin points.now list.now }
    requires count { length list.now < 2 ^ 32 }
    requires a_in { a < length list.now }
    requires so_far { AreFirstPairs (CrossesBefore points.now list.now a 0) most found.old.items }
    ensures { OnOk result (AreFirstPairs (CrossesBefore points.now list.now (a + 1) 0) most found.new.items) }
{
    for b in a + 1..list.len() as u32 {
        add_if_crossing(points, list, a, b, most, found)?;
    }
    Ok(())
}

// The same, where some later position may cross this one.
fn add_from(
    points: &Points,
    list: &[Pair],
    segments: &[Segment],
    blocks: &[Block],
    groups: &[Block],
    a: u32,
    most: u32,
    found: &mut Vec<(u32, u32)>,
) -> Result<(), NoMemory>
    requires within { AreWithin points.now list.now }
    requires count { length list.now < 2 ^ 32 }
    requires in_blocks { AreInBlocks points.now list.now segments.now blocks.now groups.now }
    requires few { length blocks.now < 2 ^ 32 }
    requires few_groups { length groups.now < 2 ^ 32 }
    requires a_in { a < length list.now }
    requires so_far { AreFirstPairs (CrossesBefore points.now list.now a 0) most found.old.items }
    ensures { OnOk result (AreFirstPairs (CrossesBefore points.now list.now (a + 1) 0) most found.new.items) }
{
    if most as usize <= found.len() {
        return Ok(());
    }
    let z = segment_of(points, list[a as usize], a);
    if !may_cross(points, list, segments, blocks, groups, z) {
        return Ok(());
    }
    add_crossed(points, list, a, most, found)
}

// Goes through all positions.
fn list_crossings(
    alloc: Global,
    points: &Points,
    list: &[Pair],
    segments: &[Segment],
    blocks: &[Block],
    groups: &[Block],
    most: u32,
) -> Result<Vec<(u32, u32)>, NoMemory>
    requires within { AreWithin points.now list.now }
    requires count { length list.now < 2 ^ 32 }
    requires in_blocks { AreInBlocks points.now list.now segments.now blocks.now groups.now }
    requires few { length blocks.now < 2 ^ 32 }
    requires few_groups { length groups.now < 2 ^ 32 }
    ensures { IfOk result (λ found. AreFirstPairs (CrossesLater points.now list.now) most found.items) }
{
    let mut found = Vec::new(alloc);
    for a in 0..list.len() as u32 {
        add_from(points, list, segments, blocks, groups, a, most, &mut found)?;
    }
    Ok(found)
}

// The same, with room for the segments, the blocks and the groups.
fn list_within(
    alloc: Global,
    points: &Points,
    list: &[Pair],
    segments: &mut [Segment],
    blocks: &mut [Block],
    groups: &mut [Block],
    most: u32,
) -> Result<Vec<(u32, u32)>, NoMemory>
    requires within { AreWithin points.now list.now }
    requires count { length list.now < 2 ^ 32 }
    requires room { length segments.old ≡ length list.now }
    requires few { length blocks.old < 2 ^ 32 }
    requires few_groups { length groups.old < 2 ^ 32 }
    requires enough { length list.now ≤ 16 * length blocks.old }
    requires enough_groups { length list.now ≤ 256 * length groups.old }
    requires near_blocks { (i : ℕ) → i < length blocks.old → HasNearBoxes (block blocks.old i) }
    requires near_groups { (i : ℕ) → i < length groups.old → HasNearBoxes (block groups.old i) }
    ensures { IfOk result (λ found. AreFirstPairs (CrossesLater points.now list.now) most found.items) }
{
    set_blocks(points, list, segments, blocks, groups);
    list_crossings(alloc, points, list, segments, blocks, groups, most)
}

/// The positions (a, b), a before b, of the segments of a list that cross, by a and then b: all of them, or the first `most`.
/// Two segments cross where each has its ends strictly on the two sides of the other's line. (Textbook; the order is this
/// project's own.)
pub fn crossing_pairs(
    alloc: Global,
    points: &Points,
    list: &[Pair],
    most: u32,
) -> Result<Vec<(u32, u32)>, NoMemory>
    requires within { AreWithin points.now list.now }
    requires count { length list.now < 2 ^ 32 }
    ensures { IfOk result (λ found. AreFirstPairs (CrossesLater points.now list.now) most found.items) }
{
    let mut segments = vec![in alloc; Segment::nowhere(); list.len()]?;
    let mut blocks = vec![in alloc; Block::around(Segment::nowhere()); list.len() / BLOCK + 1]?;
    let mut groups = vec![in alloc; Block::around(Segment::nowhere()); list.len() / GROUP + 1]?;
    list_within(
        alloc,
        points,
        list,
        segments.as_mut_slice(),
        blocks.as_mut_slice(),
        groups.as_mut_slice(),
        most,
    )
}
