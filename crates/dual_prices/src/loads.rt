// A certificate with the load of every pair, kept while weights change.
ghost use Rattle.std.specs.Prelude.{◌≡◌, ◌≢◌, ◌<◌, ◌≤◌, ◌+◌, ◌-◌, List, ℤ, length, IfOk, IfErr, OnOk, OnErr, pos, ◌+ℤ◌};
ghost use Rattle.price_defs.specs.Limits.{AreLight};
ghost use Rattle.price_defs.specs.Loads.{load};
ghost use Rattle.price_defs.specs.Rows.{IsRight, AreRight, weight};
ghost use Rattle.dual_prices.specs.Kept.{row_weight, with_weight, with_row};
ghost use Rattle.dual_prices.specs.Tables.{tri, slot, entry, at, IsSmall, AreSmall, IsStep, IsShifted, IsPartlyAdded, IsRowAdded, IsTableOf};

use mcp_outside::NoMemory;
use plane::{Pair, Points};
use price_defs::{Certificate, MOST_ROWS, MOST_WEIGHT, Row, is_counted, reweighed, weight_of};
use std::alloc::{AllocError, Global};
use std::marker::Model;
use std::snapshot::Snapshot;

/// A certificate with the load of every pair. Contracts see the points for which it was made, and the certificate as it
/// is now. On 5,000 points the loads take 100 MB.
#[derive(Drop)]
pub struct Loads {
    certificate: Certificate,
    // the load of the pair i-j, i < j, at position j * (j - 1) / 2 + i
    table: Vec<i64>,
    points: Snapshot<Points>,
}

impl Model for Loads {
    ghost use Rattle.dual_prices.specs.Kept.{Loaded};
    ghost use Rattle.dual_prices.specs.Tables.{IsLoaded};

    ghost Value = { Loaded };

    ghost view = { λ a. record { points = a.points.value; certificate = a.certificate } };

    ghost invariant = { λ a. IsLoaded a.points.value a.certificate.rows a.table.items };
}

// The number of pairs of n points.
fn pairs_of(n: u32) -> usize
    ensures { result ≡ tri n }
{
    if n == 0 {
        return 0;
    }
    let n = n as usize;
    n * (n - 1) / 2
}

// The position of a pair in the table.
fn slot_of(e: Pair) -> usize
    ensures { result ≡ slot e.lo e.hi }
{
    pairs_of(e.hi()) + e.lo() as usize
}

// Adds to the load of a pair.
fn shift(table: &mut Vec<i64>, e: Pair, by: i64)
    requires place { slot e.lo e.hi < length table.old.items }
    requires small { IsSmall (entry table.old.items (slot e.lo e.hi)) }
    requires step { IsStep by }
    ensures { IsShifted table.old.items e by table.new.items }
{
    let k = slot_of(e);
    table[k] += by;
}

// Adds to the load of the pair of p and r, where the row counts it.
fn shift_at(points: &Points, table: &mut Vec<i64>, row: Row, p: u32, r: u32, by: i64)
    requires right { IsRight points.now row }
    requires p_in { p < length points.now }
    requires r_in { r < length points.now }
    requires table { length table.old.items ≡ tri (length points.now) }
    requires small { r ≢ p → IsSmall (at table.old.items p r) }
    requires step { IsStep by }
    ensures { (first : List ℤ) → IsPartlyAdded points.now row p by r first table.old.items → IsPartlyAdded points.now row p by (r + 1) first table.new.items }
{
    if r == p {
        return;
    }
    if !is_counted(points, row, p, r) {
        return;
    }
    shift(table, Pair::of(p, r), by);
}

// Adds to the loads of the pairs at p that a row counts.
fn shift_counted(points: &Points, table: &mut Vec<i64>, row: Row, p: u32, by: i64)
    requires right { IsRight points.now row }
    requires p_in { p < length points.now }
    requires table { length table.old.items ≡ tri (length points.now) }
    requires small { AreSmall (length points.now) table.old.items }
    requires step { IsStep by }
    ensures { IsPartlyAdded points.now row p by (length points.now) table.old.items table.new.items }
{
    for r in 0..points.len() {
        shift_at(points, table, row, p, r, by);
    }
}

// Adds a row of this weight, or takes it off where the weight is negative.
fn add_row(points: &Points, table: &mut Vec<i64>, row: Row, by: i64)
    requires right { IsRight points.now row }
    requires table { length table.old.items ≡ tri (length points.now) }
    requires small { AreSmall (length points.now) table.old.items }
    requires step { IsStep by }
    ensures { IsRowAdded points.now row by table.old.items table.new.items }
{
    match row {
        Row::Half { p, q: _, w: _ } => shift_counted(points, table, row, p, by),
        Row::Three { p, w: _ } => shift_counted(points, table, row, p, by),
        Row::Cross { e, f, w: _ } => {
            shift(table, e, -by);
            shift(table, f, -by);
        }
        Row::Cap { e, w: _ } => shift(table, e, -by),
    }
}

// The loads of all pairs.
fn table_of(alloc: Global, points: &Points, rows: &[Row]) -> Result<Vec<i64>, AllocError>
    requires right { AreRight points.now rows.now }
    requires few { length rows.now ≤ MOST_ROWS }
    requires light { AreLight rows.now }
    ensures { IfOk result (λ v. IsTableOf points.now rows.now v.items) }
{
    let mut table = vec![in alloc; 0i64; pairs_of(points.len())]?;
    for k in 0..rows.len() {
        let row = rows[k];
        add_row(points, &mut table, row, weight_of(row) as i64);
    }
    Ok(table)
}

impl Loads {
    /// The certificate with the loads of all pairs under it; it is handed back where there is no memory.
    pub fn make(
        alloc: Global,
        points: &Points,
        certificate: Certificate,
    ) -> Result<Loads, (Certificate, NoMemory)>
        requires right { AreRight points.now certificate.rows }
        requires few { length certificate.rows ≤ MOST_ROWS }
        requires light { AreLight certificate.rows }
        ensures points { IfOk result (λ a. a.points ≡ points.now) }
        ensures certificate { IfOk result (λ a. a.certificate ≡ certificate) }
        ensures back { IfErr result (λ e. e.0 ≡ certificate) }
    {
        match table_of(alloc, points, certificate.rows.as_slice()) {
            Ok(table) => Ok(Loads {
                certificate,
                table,
                points: Snapshot::of(points),
            }),
            Err(_) => Err((certificate, NoMemory)),
        }
    }

    /// The load of a pair.
    pub fn at(&self, e: Pair) -> i64
        requires { e.hi < length self.now.points }
        ensures { result ≡ load self.now.points self.now.certificate.rows e.lo e.hi }
    {
        self.table[slot_of(e)]
    }

    // Gives the row at `k` another weight, which is by so much more or less.
    fn change(&mut self, points: &Points, k: u32, w: u64, by: i64)
        requires points { points.now ≡ self.old.points }
        requires place { k < length self.old.certificate.rows }
        requires weight { w ≤ MOST_WEIGHT }
        requires by { pos w ≡ (pos (row_weight self.old.certificate k) +ℤ by) }
        ensures certificate { self.new.certificate ≡ with_weight self.old.certificate k w }
        ensures points { self.new.points ≡ self.old.points }
    {
        let row = self.certificate.rows.as_slice()[k as usize];
        add_row(points, &mut self.table, row, by);
        self.certificate.rows.set(k, reweighed(row, w));
    }

    /// Gives a row more weight.
    pub fn raise(&mut self, points: &Points, row: u32, more: u64)
        requires points { points.now ≡ self.old.points }
        requires place { row < length self.old.certificate.rows }
        requires weight { row_weight self.old.certificate row + more ≤ MOST_WEIGHT }
        ensures certificate { self.new.certificate ≡ with_weight self.old.certificate row (row_weight self.old.certificate row + more) }
        ensures points { self.new.points ≡ self.old.points }
    {
        let w = weight_of(self.certificate.rows.as_slice()[row as usize]) + more;
        self.change(points, row, w, more as i64);
    }

    /// Gives a row less weight.
    pub fn lower(&mut self, points: &Points, row: u32, less: u64)
        requires points { points.now ≡ self.old.points }
        requires place { row < length self.old.certificate.rows }
        requires weight { less ≤ row_weight self.old.certificate row }
        ensures certificate { self.new.certificate ≡ with_weight self.old.certificate row (row_weight self.old.certificate row - less) }
        ensures points { self.new.points ≡ self.old.points }
    {
        let w = weight_of(self.certificate.rows.as_slice()[row as usize]) - less;
        self.change(points, row, w, -(less as i64));
    }

    /// Adds a row at the end; it is handed back, and nothing changes, where there is no memory.
    pub fn push(&mut self, points: &Points, row: Row) -> Result<(), (Row, NoMemory)>
        requires points { points.now ≡ self.old.points }
        requires room { length self.old.certificate.rows < MOST_ROWS }
        requires right { IsRight points.now row }
        requires weight { weight row ≤ MOST_WEIGHT }
        ensures added { OnOk result (self.new.certificate ≡ with_row self.old.certificate row) }
        ensures back { IfErr result (λ e. e.0 ≡ row) }
        ensures kept { OnErr result (self.new ≡ self.old) }
        ensures points { self.new.points ≡ self.old.points }
    {
        match self.certificate.rows.push(row) {
            Ok(()) => {
                add_row(points, &mut self.table, row, weight_of(row) as i64);
                Ok(())
            }
            Err(row) => Err((row, NoMemory)),
        }
    }

    /// The certificate as it is.
    pub fn certificate(&self) -> &Certificate
        ensures certificate { result.now ≡ self.now.certificate }
        ensures right { AreRight self.now.points self.now.certificate.rows }
        ensures few { length self.now.certificate.rows ≤ MOST_ROWS }
        ensures light { AreLight self.now.certificate.rows }
    {
        &self.certificate
    }

    /// The certificate as it is.
    pub fn into_certificate(self) -> Certificate
        ensures { result ≡ self.certificate }
    {
        let Loads {
            certificate,
            table: _,
            points: _,
        } = self;
        certificate
    }
}
