// Rows by the points at which they stand.
ghost use Rattle.std.specs.Prelude.{◌≡◌, ◌≢◌, ◌<◌, ◌≤◌, length, set, IfOk, IfSome, vec_len};
ghost use Rattle.price_defs.specs.Limits.{AreLight};
ghost use Rattle.price_defs.specs.Loads.{given, gives, takes};
ghost use Rattle.price_defs.specs.Raising.{reweigh};
ghost use Rattle.price_defs.specs.Rows.{AreRight, stand};
ghost use Rattle.price_defs.specs.Tight.{IsAtPoint};
ghost use Rattle.price_defs.specs.Rows.{row_at};
ghost use Rattle.point_rows.specs.Placed.{gives_at, at_stand, noted, IsLinked};

use crate::takers::Takers;
use mcp_outside::NoMemory;
use plane::{Pair, Points};
use price_defs::{MOST_ROWS, MOST_WEIGHT, Row, is_counted, reweighed, stand_of, weight_of};
use std::alloc::Global;
use std::marker::Model;
use std::snapshot::Snapshot;

/// Right rows for a set of points, each linked with the row before it at its point. Contracts see the points and the rows.
#[derive(Drop)]
pub struct PointRows {
    rows: Vec<Row>,
    last: Vec<Option<u32>>,
    before: Vec<Option<u32>>,
    takers: Takers,
    points: Snapshot<Points>,
}

impl Model for PointRows {
    ghost use Rattle.point_rows.specs.Placed.{Placed, IsKept};

    ghost Value = { Placed };

    ghost view = { λ a. record { points = a.points.value; rows = a.rows.items } };

    ghost invariant = { λ a. IsKept a.points.value a.rows.items a.last.items a.before.items a.takers };
}

// The last row so far at the stand of a row.
fn last_at(last: &[Option<u32>], row: Row) -> Option<u32>
    requires { IfSome (stand row) (λ p. p < length last.now) }
    ensures { result ≡ at_stand last.now (stand row) }
{
    match stand_of(row) {
        Some(p) => last[p as usize],
        None => None,
    }
}

// Notes that the row at `k` is now the last one at its stand.
fn note(last: &mut Vec<Option<u32>>, row: Row, k: u32)
    requires { IfSome (stand row) (λ p. p < length last.old.items) }
    ensures { last.new.items ≡ noted last.old.items (stand row) k }
{
    if let Some(p) = stand_of(row) {
        last[p as usize] = Some(k);
    }
}

// Links all rows: the last one at each point, and the one before each row at its point.
fn linked(
    alloc: Global,
    points: &Points,
    rows: &[Row],
) -> Result<(Vec<Option<u32>>, Vec<Option<u32>>), NoMemory>
    requires right { AreRight points.now rows.now }
    requires few { length rows.now ≤ MOST_ROWS }
    ensures linked { IfOk result (λ v. IsLinked rows.now v.0.items v.1.items) }
    ensures points { IfOk result (λ v. length v.0.items ≡ length points.now) }
{
    let mut last = vec![in alloc; None; points.len() as usize]?;
    let mut before = Vec::with_capacity(alloc, rows.len())?;
    for k in 0..rows.len() {
        let row = rows[k];
        before.push(last_at(last.as_slice(), row))?;
        note(&mut last, row, k as u32);
    }
    Ok((last, before))
}

impl PointRows {
    /// The rows, by the points at which they stand.
    pub fn make(alloc: Global, points: &Points, rows: Vec<Row>) -> Result<PointRows, NoMemory>
        requires right { AreRight points.now rows.items }
        requires few { vec_len rows ≤ MOST_ROWS }
        requires light { AreLight rows.items }
        ensures points { IfOk result (λ a. a.points ≡ points.now) }
        ensures rows { IfOk result (λ a. a.rows ≡ rows.items) }
    {
        let takers = Takers::make(alloc, rows.as_slice())?;
        let (last, before) = linked(alloc, points, rows.as_slice())?;
        Ok(PointRows {
            rows,
            last,
            before,
            takers,
            points: Snapshot::of(points),
        })
    }

    /// The rows in their order.
    pub fn rows(&self) -> &[Row]
        ensures rows { result.now ≡ self.now.rows }
        ensures right { AreRight self.now.points self.now.rows }
        ensures few { length self.now.rows ≤ MOST_ROWS }
        ensures light { AreLight self.now.rows }
    {
        self.rows.as_slice()
    }

    /// The rows in their order.
    pub fn into_rows(self) -> Vec<Row>
        ensures { result.items ≡ self.rows }
    {
        let PointRows {
            rows,
            last: _,
            before: _,
            takers: _,
            points: _,
        } = self;
        rows
    }

    // What the row at `k` gives to the pair of `p` and `r`.
    fn given(&self, points: &Points, k: u32, p: u32, r: u32) -> u64
        requires points { points.now ≡ self.now.points }
        requires place { k < length self.now.rows }
        requires p_in { p < length points.now }
        requires r_in { r < length points.now }
        ensures { result ≡ given points.now p r (row_at self.now.rows k) }
    {
        let row = self.rows[k as usize];
        if is_counted(points, row, p, r) {
            weight_of(row)
        } else {
            0
        }
    }

    // What the rows at `p` give to the pair of `p` and `r`.
    fn gives_at(&self, points: &Points, p: u32, r: u32) -> u64
        requires points { points.now ≡ self.now.points }
        requires p_in { p < length points.now }
        requires r_in { r < length points.now }
        ensures gives { result ≡ gives_at points.now self.now.rows p r }
        ensures small { result ≤ 200000000000000000 }
    {
        let mut sum = 0;
        let mut next = self.last[p as usize];
        while let Some(k) = next {
            sum += self.given(points, k, p, r);
            next = self.before[k as usize];
        }
        sum
    }

    /// The weights of the rows that count the pair of `i` and `j`.
    pub fn gives(&self, points: &Points, i: u32, j: u32) -> u64
        requires points { points.now ≡ self.now.points }
        requires i_in { i < length points.now }
        requires j_in { j < length points.now }
        requires apart { i ≢ j }
        ensures gives { result ≡ gives points.now self.now.rows i j }
        ensures small { result ≤ 200000000000000000 }
    {
        let _rows = self.rows();
        self.gives_at(points, i, j) + self.gives_at(points, j, i)
    }

    /// The weights of the rows that are taken off the load of a pair.
    pub fn takes(&self, e: Pair) -> u64
        ensures takes { result ≡ takes self.now.rows e.lo e.hi }
        ensures small { result ≤ 200000000000000000 }
    {
        self.takers.of(e)
    }

    /// Gives a Half or Three row another weight.
    pub fn set_weight(&mut self, k: u32, w: u64)
        requires place { k < length self.old.rows }
        requires at_point { IsAtPoint (row_at self.old.rows k) }
        requires weight { w ≤ MOST_WEIGHT }
        ensures rows { self.new.rows ≡ set self.old.rows k (reweigh (row_at self.old.rows k) w) }
        ensures points { self.new.points ≡ self.old.points }
    {
        let row = reweighed(self.rows[k as usize], w);
        self.rows[k as usize] = row;
    }
}
