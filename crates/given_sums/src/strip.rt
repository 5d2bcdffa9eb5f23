// The sums of a strip.
ghost use Rattle.std.specs.Prelude.{◌≡◌, ◌+◌, ◌*◌, ◌<◌, ◌≤◌, length, IfOk};
ghost use Rattle.price_defs.specs.Limits.{AreLight};
ghost use Rattle.price_defs.specs.Loads.{gives};
ghost use Rattle.price_defs.specs.Rows.{AreRight};
ghost use Rattle.given_sums.specs.Sums.{place, AreSums};

use crate::adding::add_row;
use mcp_outside::NoMemory;
use plane::{Pair, Points};
use price_defs::{MOST_ROWS, RowList};
use std::alloc::Global;
use std::marker::Model;
use std::snapshot::Snapshot;

/// How many points have their pairs with greater points in one strip.
pub const STRIP: u32 = 32;

/// What rows give to the pairs of a strip: those whose lesser ends are the points from `first` on, `STRIP` or as many as
/// there are. Contracts see the points, the rows and `first`. On 5,000 points a strip takes at most 1.3 MB.
#[derive(Drop)]
pub struct GivenSums {
    first: u32,
    // how many points there are from the first one on
    width: u32,
    // the sum of the pair of first + a and first + b, a < b, at position a * width + b
    sums: Vec<u64>,
    points: Snapshot<Points>,
    rows: Snapshot<RowList>,
}

impl Model for GivenSums {
    ghost use Rattle.given_sums.specs.Sums.{Strip, IsStrip};

    ghost Value = { Strip };

    ghost view = { λ a. record { points = a.points.value; rows = a.rows.value; first = a.first } };

    ghost invariant = { λ a. IsStrip a.points.value a.rows.value a.first a.width a.sums.items };
}

// The position of a pair's sum.
pub(crate) fn place_of(width: u32, a: u32, b: u32) -> usize
    requires line { a < STRIP }
    requires column { b < width }
    ensures place { result ≡ place width a b }
    ensures within { result < 32 * width }
{
    a as usize * width as usize + b as usize
}

// The sums of all rows.
fn sums_of(
    alloc: Global,
    points: &Points,
    rows: &RowList,
    first: u32,
    width: u32,
) -> Result<Vec<u64>, NoMemory>
    requires right { AreRight points.now rows.now }
    requires few { length rows.now ≤ MOST_ROWS }
    requires light { AreLight rows.now }
    requires reach { first + width ≡ length points.now }
    ensures { IfOk result (λ v. AreSums points.now rows.now first width v.items) }
{
    let _count = points.len();
    let mut sums = vec![in alloc; 0u64; STRIP as usize * width as usize]?;
    let rows = rows.as_slice();
    for k in 0..rows.len() {
        add_row(points, rows[k], first, width, sums.as_mut_slice());
    }
    Ok(sums)
}

impl GivenSums {
    /// The sums of the strip from `first` on.
    pub fn make(
        alloc: Global,
        points: &Points,
        rows: &RowList,
        first: u32,
    ) -> Result<GivenSums, NoMemory>
        requires right { AreRight points.now rows.now }
        requires few { length rows.now ≤ MOST_ROWS }
        requires light { AreLight rows.now }
        requires first { first ≤ length points.now }
        ensures points { IfOk result (λ a. a.points ≡ points.now) }
        ensures rows { IfOk result (λ a. a.rows ≡ rows.now) }
        ensures first { IfOk result (λ a. a.first ≡ first) }
    {
        let width = points.len() - first;
        let sums = sums_of(alloc, points, rows, first, width)?;
        Ok(GivenSums {
            first,
            width,
            sums,
            points: Snapshot::of(points),
            rows: Snapshot::of(rows),
        })
    }

    /// The weights of the rows that count a pair of the strip.
    pub fn of(&self, e: Pair) -> u64
        requires from { self.now.first ≤ e.lo }
        requires within { e.lo < self.now.first + STRIP }
        requires end { e.hi < length self.now.points }
        ensures gives { result ≡ gives self.now.points self.now.rows e.lo e.hi }
        ensures small { result ≤ 200000000000000000 }
    {
        self.sums[place_of(self.width, e.lo() - self.first, e.hi() - self.first)]
    }
}
