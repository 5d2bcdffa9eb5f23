// The set of all clear pairs, and their list.
ghost use Rattle.std.specs.Prelude.{◌≡◌, ◌≢◌, ◌+◌, ◌<◌, ◌↔◌, length, slice_index, IfOk, OnOk, IsTrue};
ghost use Rattle.plane.specs.Geometry.{point, IsClear};
ghost use Rattle.star.specs.Turn.{IsUpper};
ghost use Rattle.directions.specs.Fans.{AreAllClear};
ghost use Rattle.directions.specs.Bits.{HasRoom, HasClearAlone, HasClearAbove, IsClearTable, IsUpperFan, IsGrown, HasPair};
ghost use Rattle.directions.specs.Listing.{AreClearBefore};
ghost use Rattle.directions.specs.Rounds.{ArePlaces};

use crate::bits::{empty_table, has_pair, set_pair};
use crate::order::is_upper;
use crate::rounds::{Place, add_half, places_up};
use mcp_outside::NoMemory;
use plane::{Pair, Points};
use std::alloc::Global;
use std::marker::Model;
use std::snapshot::Snapshot;

/// The set of all clear pairs of a set of points, which contracts see. It takes a bit a pair, 1.6 MB at 5,000 points, and
/// answers in constant time.
#[derive(Drop)]
pub struct ClearPairs {
    // the bit of the pair i-j, i < j, is number j * (j - 1) / 2 + i
    table: Vec<u64>,
    points: Snapshot<Points>,
}

impl Model for ClearPairs {
    ghost use Rattle.std.specs.Prelude.{List};
    ghost use Rattle.plane.specs.declared.coordinates.Point.{Point};
    ghost use Rattle.plane.specs.Accepted.{AreAccepted};
    ghost use Rattle.directions.specs.Bits.{IsClearTable};

    ghost Value = { List Point };

    ghost view = { λ a. a.points.value };

    ghost invariant = { λ a. AreAccepted a.points.value × IsClearTable a.points.value a.table.items };
}

// Whether the point at i, which is above p, is the first in its direction.
fn is_nearest(points: &Points, p: u32, list: &[u32], i: usize) -> bool
    requires p_in { p < length points.now }
    requires fan { IsUpperFan points.now p list.now }
    requires i_in { i < length list.now }
    requires above { IsUpper (point points.now p) (point points.now (slice_index list.now i)) }
    ensures { IsTrue result ↔ IsClear points.now p (slice_index list.now i) }
{
    let _count = points.len();
    if i == 0 {
        return true;
    }
    !points.between(list[i - 1], p, list[i])
}

// Sets the bit of p and the point at i, where this is above p and they are a clear pair.
fn mark_at(points: &Points, p: u32, list: &[u32], i: usize, table: &mut Vec<u64>)
    requires p_in { p < length points.now }
    requires fan { IsUpperFan points.now p list.now }
    requires i_in { i < length list.now }
    requires room { HasRoom (length points.now) table.old.items }
    requires alone { HasClearAlone points.now table.old.items }
    ensures grown { IsGrown points.now table.old.items table.new.items }
    ensures there { IsUpper (point points.now p) (point points.now (slice_index list.now i)) → IsClear points.now p (slice_index list.now i)
        → HasPair p (slice_index list.now i) table.new.items }
{
    let _count = points.len();
    let q = list[i];
    if !is_upper(points, p, q) {
        return;
    }
    if !is_nearest(points, p, list, i) {
        return;
    }
    set_pair(table, Pair::of(p, q));
}

// Sets the bits of the clear pairs of p and points above it.
fn mark_above(points: &Points, p: u32, list: &[u32], table: &mut Vec<u64>)
    requires p_in { p < length points.now }
    requires fan { IsUpperFan points.now p list.now }
    requires room { HasRoom (length points.now) table.old.items }
    requires alone { HasClearAlone points.now table.old.items }
    ensures grown { IsGrown points.now table.old.items table.new.items }
    ensures there { HasClearAbove points.now p table.new.items }
{
    for i in 0..list.len() {
        mark_at(points, p, list, i, table);
    }
}

// The points above p, in order.
fn upper_fan(
    points: &Points,
    p: u32,
    places: &[Place],
    words: &mut Vec<u64>,
    list: &mut Vec<u32>,
) -> Result<(), NoMemory>
    requires p_in { p < length points.now }
    requires places { ArePlaces points.now places.now }
    ensures { OnOk result (IsUpperFan points.now p list.new.items) }
{
    list.clear();
    add_half(points, p, places, true, words, list)
}

// The table of the clear pairs.
fn table_of(alloc: Global, points: &Points) -> Result<Vec<u64>, NoMemory>
    ensures { IfOk result (λ v. IsClearTable points.now v.items) }
{
    let places = places_up(alloc, points)?;
    let mut table = empty_table(alloc, points.len())?;
    let mut words = Vec::new(alloc);
    let mut list = Vec::new(alloc);
    for p in 0..points.len() {
        upper_fan(points, p, places.as_slice(), &mut words, &mut list)?;
        mark_above(points, p, list.as_slice(), &mut table);
    }
    Ok(table)
}

impl ClearPairs {
    /// The set of these points.
    pub fn make(alloc: Global, points: &Points) -> Result<ClearPairs, NoMemory>
        ensures { IfOk result (λ a. a ≡ points.now) }
    {
        let _count = points.len();
        let table = table_of(alloc, points)?;
        Ok(ClearPairs {
            table,
            points: Snapshot::of(points),
        })
    }

    /// Whether no point is strictly between the ends of a pair. (Textbook.)
    pub fn has(&self, e: Pair) -> bool
        requires { e.hi < length self.now }
        ensures { IsTrue result ↔ IsClear self.now e.lo e.hi }
    {
        has_pair(self.table.as_slice(), e)
    }
}

// Adds a pair where it is clear.
fn add_if_clear(set: &ClearPairs, i: u32, j: u32, list: &mut Vec<Pair>) -> Result<(), NoMemory>
    requires order { i < j }
    requires within { j < length set.now }
    requires so_far { AreClearBefore set.now i j list.old.items }
    ensures { OnOk result (AreClearBefore set.now i (j + 1) list.new.items) }
{
    let e = Pair::of(i, j);
    if !set.has(e) {
        return Ok(());
    }
    list.push(e)?;
    Ok(())
}

// Adds the clear pairs with this lesser end.
fn add_clear_from(
    set: &ClearPairs,
    i: u32,
    count: u32,
    list: &mut Vec<Pair>,
) -> Result<(), NoMemory>
    requires within { i < count }
    requires count { count ≡ length set.now }
    requires so_far { AreClearBefore set.now i 0 list.old.items }
    ensures { OnOk result (AreClearBefore set.now (i + 1) 0 list.new.items) }
{
    for j in i + 1..count {
        add_if_clear(set, i, j, list)?;
    }
    Ok(())
}

/// All clear pairs, ascending. (Textbook.)
pub fn clear_pairs(alloc: Global, points: &Points) -> Result<Vec<Pair>, NoMemory>
    ensures { IfOk result (λ list. AreAllClear points.now list.items) }
{
    let set = ClearPairs::make(alloc, points)?;
    let count = points.len();
    let mut list = Vec::new(alloc);
    for i in 0..count {
        add_clear_from(&set, i, count, &mut list)?;
    }
    Ok(list)
}
