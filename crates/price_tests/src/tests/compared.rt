// The price rule against the plain slow program, row by row.
ghost use Rattle.std.specs.Prelude.{◌≤◌};
ghost use Rattle.std.specs.List.{sum_by};
ghost use Rattle.price_defs.specs.Loads.{IsValid, lost};
ghost use Rattle.price_defs.specs.Tight.{IsTight};

use super::instances::{drawn_costs, drawn_points};
use super::plain::price_plain;
use super::starts::{raised_floor, raised_with_takers};
use bound_worker::price;
use dual_prices::{Certificate, Costs};
use plane::Points;
use price_defs::MOST_DIVISOR;
use rand_core::utils::NextWord;
use rand_pcg::Pcg32;
use std::alloc::Global;
use std::process::Abort;
use std::test::Fail;

// Calls, each from the last one's certificate. How many trials were taken.
fn compared_on(
    rt: &impl Abort,
    alloc: Global,
    words: &mut Pcg32,
    points: &Points,
    costs: &Costs,
    start: Certificate,
    calls: u64,
    rounds: u32,
) -> Result<u32, Fail>
    requires valid { IsValid points.now costs.now start.q start.rows }
    requires tight { IsTight points.now costs.now start.q start.rows }
    requires divisor { start.q ≤ MOST_DIVISOR }
    requires takers { sum_by lost start.rows ≤ 100000000000 }
{
    let mut present = start;
    let mut all = 0u32;
    for call in 0..calls {
        let stream = 101 + call % 16;
        let seed = u64::from(words.next_word());
        let found = price(alloc, points, costs, &present, rounds, seed, stream)?;
        let (q, rows, taken) = price_plain(alloc, points, costs, &present, rounds, seed, stream)?;
        assert_eq!(rt; found.q, q);
        assert_eq!(rt; found.rows.as_slice(), rows.as_slice());
        all = all.saturating_add(taken);
        present = found;
    }
    Ok(all)
}

// Calls from the raised floor certificate of drawn points and costs; from the third one on the divisor is above 10,000.
fn compared(
    rt: &impl Abort,
    alloc: Global,
    words: &mut Pcg32,
    side: u32,
    count: usize,
    calls: u64,
    rounds: u32,
) -> Result<u32, Fail> {
    let Some(points) = drawn_points(rt, alloc, words, side, count)? else {
        return Ok(0);
    };
    let costs = drawn_costs(rt, alloc, words, points.len())?;
    let start = raised_floor(alloc, &points, &costs)?;
    compared_on(rt, alloc, words, &points, &costs, start, calls, rounds)
}

#[test]
fn drawn_instances(rt: HostRuntime) -> Result<(), Fail> {
    let mut words = Pcg32::new(7, 1);
    let mut all = 0u32;
    for k in 0..24u32 {
        let count = 4 + k as usize % 7;
        let taken = compared(&rt, rt.alloc(), &mut words, 4 + k % 5, count, 5, 10)?;
        all = all.saturating_add(taken);
    }
    // some trials are taken and some aren't
    assert!(rt; all > 100 && all < 1_100, "{all} taken");
    Ok(())
}

// Calls from a start with Cross and Cap rows.
fn compared_with_takers(
    rt: &impl Abort,
    alloc: Global,
    words: &mut Pcg32,
    side: u32,
    count: usize,
    calls: u64,
    rounds: u32,
) -> Result<u32, Fail> {
    let Some(points) = drawn_points(rt, alloc, words, side, count)? else {
        return Ok(0);
    };
    let costs = drawn_costs(rt, alloc, words, points.len())?;
    let start = raised_with_takers(alloc, words, &points, &costs)?;
    compared_on(rt, alloc, words, &points, &costs, start, calls, rounds)
}

#[test]
fn drawn_instances_with_cross_and_cap_rows(rt: HostRuntime) -> Result<(), Fail> {
    let mut words = Pcg32::new(8, 1);
    let mut all = 0u32;
    for k in 0..16u32 {
        let count = 5 + k as usize % 6;
        let taken = compared_with_takers(&rt, rt.alloc(), &mut words, 4 + k % 5, count, 1, 50)?;
        all = all.saturating_add(taken);
    }
    assert!(rt; all > 50 && all < 750, "{all} taken");
    Ok(())
}

// No round, one round and a thousand, by all streams of the solver, with Cross and Cap rows and without. Of the thousand
// without, some trials are taken and some aren't.
#[test]
fn each_stream_and_a_thousand_rounds(rt: HostRuntime) -> Result<(), Fail> {
    for (seed, calls, rounds, most) in [(1, 16, 0, 0), (8, 16, 1, 16), (3, 1, 1_000, 999)] {
        let mut words = Pcg32::new(seed, 1);
        let taken = compared(&rt, rt.alloc(), &mut words, 4, 7, calls, rounds)?;
        assert!(rt; taken >= rounds.min(1) && taken <= most, "{taken} taken");
        let taken = compared_with_takers(&rt, rt.alloc(), &mut words, 4, 7, calls, rounds)?;
        assert!(rt; taken >= rounds.min(1), "{taken} taken, with takers");
    }
    Ok(())
}
