// Ascending lists of segments from the stars.
ghost use Rattle.std.specs.Prelude.{◌≡◌, ◌≢◌, ◌<◌, ℕ, length, IfOk, OnOk, IsTrue, ◌↔◌, true};
ghost use Rattle.std.specs.List.{AllPairs, Contains};
ghost use Rattle.plane.specs.declared.segment.Pair.{Pair};
ghost use Rattle.subdivision.specs.Layout.{star_at};
ghost use Rattle.subdivision.specs.Listing.{picked_of, AreTidy, IsTidy, HasRow, HasRows, Collects, IsSortedFrom};

use mcp_outside::NoMemory;
use plane::Pair;
use star::Star;
use std::alloc::Global;

/// The segments that the stars of the smaller ends tell, ascending: all of them, or the kept ones alone.
pub fn listed(alloc: Global, stars: &[Star], kept_only: bool) -> Result<Vec<Pair>, NoMemory>
    requires { AreTidy stars.now }
    ensures { IfOk result (λ list. list.items ≡ picked_of kept_only stars.now) }
{
    let mut list = Vec::new(alloc);
    for v in 0..stars.len() {
        add_row(&stars[v], kept_only, &mut list)?;
    }
    sort(&mut list)?;
    Ok(list)
}

// Puts the segments of a list into ascending order.
fn sort(list: &mut Vec<Pair>) -> Result<(), NoMemory>
    ensures { OnOk result (IsSortedFrom list.old.items list.new.items) }
{
    Ok(list.sort()?)
}

// Adds the segments from the centre to its picked neighbours with a larger index.
fn add_row(star: &Star, kept_only: bool, list: &mut Vec<Pair>) -> Result<(), NoMemory>
    requires distinct { AllPairs (λ e f. e ≢ f) list.old.items }
    requires none { (e : Pair) → Contains list.old.items e → e.lo ≢ star.now.centre }
    requires tidy { (n : ℕ) × IsTidy n star.now }
    ensures { OnOk result (HasRow kept_only list.old.items list.new.items star.now.centre star.now (length star.now.list)) }
{
    for k in 0..star.degree() {
        let (w, kept) = star.at(k);
        add_one(star.centre(), w, is_wanted(kept, kept_only), list)?;
    }
    Ok(())
}

// Whether a neighbour with this mark is wanted.
fn is_wanted(kept: bool, kept_only: bool) -> bool
    ensures { IsTrue result ↔ (kept_only ≡ true → kept ≡ true) }
{
    kept || !kept_only
}

// Adds the segment from v to w where it is wanted and w is larger.
fn add_one(v: u32, w: u32, wanted: bool, list: &mut Vec<Pair>) -> Result<(), NoMemory>
    ensures { OnOk result (Collects list.old.items list.new.items v w wanted) }
{
    if v < w {
        add_wanted(v, w, wanted, list)
    } else {
        Ok(())
    }
}

fn add_wanted(v: u32, w: u32, wanted: bool, list: &mut Vec<Pair>) -> Result<(), NoMemory>
    requires { v < w }
    ensures { OnOk result (Collects list.old.items list.new.items v w wanted) }
{
    if wanted {
        list.push(Pair::of(v, w))?;
    }
    Ok(())
}
