// What Cross and Cap rows take off, kept by pair.
ghost use Rattle.std.specs.Prelude.{◌≡◌, ◌+◌, ◌*◌, ◌≤◌, ◌++◌, ℕ, length, IfOk, OnOk};
ghost use Rattle.price_defs.specs.Limits.{AreLight};
ghost use Rattle.std.specs.List.{sum_by};
ghost use Rattle.price_defs.specs.Loads.{takes};
ghost use Rattle.price_defs.specs.Rows.{weight};
ghost use Rattle.point_rows.specs.Takers.{taken, takings, all_taken};

use mcp_outside::NoMemory;
use partition_defs::has_ends;
use plane::Pair;
use price_defs::{MOST_ROWS, Row};
use std::alloc::Global;
use std::marker::Model;

/// The weights that Cross and Cap rows take off, each with its pair, in order. Contracts see the list.
#[derive(Drop)]
pub struct Takers {
    list: Vec<(Pair, u64)>,
}

impl Model for Takers {
    ghost use Rattle.std.specs.Prelude.{List, ℕ, ◌≤◌};
    ghost use Rattle.std.specs.List.{sum_by};
    ghost use Rattle.std.specs.List.Sorted.{IsNonDecreasingBy};
    ghost use Rattle.plane.specs.declared.segment.Pair.{Pair};
    ghost use Rattle.point_rows.specs.Takers.{key_of};

    ghost Value = { List (Pair × ℕ) };

    ghost view = { λ a. a.list.items };

    ghost invariant = { λ a. IsNonDecreasingBy (λ x. key_of x.0) a.list.items × (sum_by (λ x. x.1) a.list.items ≤ 400000000000000000) };
}

// The place of a pair in the order of pairs.
fn place_of(e: Pair) -> u64
    ensures { result ≡ e.lo * 4294967296 + e.hi }
{
    u64::from(e.lo()) * 4_294_967_296 + u64::from(e.hi())
}

// Adds what a row takes off.
fn push_takings(list: &mut Vec<(Pair, u64)>, row: Row) -> Result<(), NoMemory>
    ensures { OnOk result (list.new.items ≡ list.old.items ++ takings row) }
{
    match row {
        Row::Half { p: _, q: _, w: _ } => {}
        Row::Three { p: _, w: _ } => {}
        Row::Cross { e, f, w } => {
            list.push((e, w))?;
            if e.lo() != f.lo() || e.hi() != f.hi() {
                list.push((f, w))?;
            }
        }
        Row::Cap { e, w } => list.push((e, w))?,
    }
    Ok(())
}

// What all rows take off, in the order of the rows.
fn listed(alloc: Global, rows: &[Row]) -> Result<Vec<(Pair, u64)>, NoMemory>
    ensures takes { IfOk result (λ v. (i j : ℕ) → taken v.items i j ≡ takes rows.now i j) }
    ensures all { IfOk result (λ v. all_taken v.items ≤ 2 * sum_by weight rows.now) }
{
    let mut list = Vec::new(alloc);
    for row in rows {
        push_takings(&mut list, *row)?;
    }
    Ok(list)
}

impl Takers {
    /// What the rows take off.
    pub fn make(alloc: Global, rows: &[Row]) -> Result<Takers, NoMemory>
        requires few { length rows.now ≤ MOST_ROWS }
        requires light { AreLight rows.now }
        ensures { IfOk result (λ t. (i j : ℕ) → taken t i j ≡ takes rows.now i j) }
    {
        let mut list = listed(alloc, rows)?;
        list.sort_unstable_by_key(|x| place_of(x.0));
        Ok(Takers { list })
    }

    /// What is taken off the load of a pair.
    pub fn of(&self, e: Pair) -> u64
        ensures { result ≡ taken self.now e.lo e.hi }
    {
        let place = place_of(e);
        let first = self.list.partition_point(|x| place_of(x.0) < place);
        let mut sum = 0;
        for k in first..self.list.len() {
            let (f, w) = self.list[k];
            if place_of(f) > place {
                return sum;
            }
            if has_ends(f, e.lo(), e.hi()) {
                sum += w;
            }
        }
        sum
    }
}
