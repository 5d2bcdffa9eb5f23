// The price rule: rounds from a certificate.
ghost use Rattle.std.specs.Prelude.{◌≡◌, ◌≢◌, ◌<◌, ◌≤◌, ◌*◌, ℕ, length, IfOk};
ghost use Rattle.std.specs.List.{sum_by};
ghost use Rattle.price_defs.specs.Floor.{IsInnerList};
ghost use Rattle.price_defs.specs.Limits.{AreLight};
ghost use Rattle.price_defs.specs.Loads.{IsValid, lost, value};
ghost use Rattle.price_defs.specs.Tight.{IsTight};
ghost use Rattle.search_defs.specs.Best.{IsPricedBy};
ghost use Rattle.search_defs.specs.Priced.{AreRounds, factor, scaled};
ghost use Rattle.search_defs.specs.Words.{round_words};

use crate::drawing::inner_points;
use crate::rows::{factor_of, scaled_rows};
use crate::trial::{present_of, round};
use directions::ClearPairs;
use dual_prices::{Certificate, Costs, RowList};
use mcp_outside::NoMemory;
use plane::Points;
use price_defs::{MOST_DIVISOR, Row};
use rand_core::utils::NextWord;
use rand_pcg::Pcg32;
use std::alloc::Global;

// The rows after all rounds.
fn rounds_of(
    alloc: Global,
    points: &Points,
    costs: &Costs,
    q: u64,
    inner: &[u32],
    start: Vec<Row>,
    rounds: u32,
    seed: u64,
    stream: u64,
) -> Result<Vec<Row>, NoMemory>
    requires valid { IsValid points.now costs.now q start.items }
    requires tight { IsTight points.now costs.now q start.items }
    requires small { q ≤ MOST_DIVISOR }
    requires takers { sum_by lost start.items ≤ 100000000000 }
    requires inner { IsInnerList points.now inner.now }
    requires some { 0 < length inner.now }
    ensures rounds { IfOk result (λ v. AreRounds points.now costs.now q inner.now (round_words stream seed 0 rounds) start.items v.items) }
    ensures takers { IfOk result (λ v. sum_by lost v.items ≤ 100000000000) }
{
    let _count = points.len();
    let mut words = Pcg32::new(seed, stream);
    let clear = ClearPairs::make(alloc, points)?;
    let mut present = present_of(alloc, points, costs, q, &clear, start)?;
    for k in 0..rounds {
        let a = words.next_word();
        let b = words.next_word();
        present = round(alloc, points, costs, q, &clear, inner, present, a, b)?;
    }
    Ok(present.rows)
}

/// What a bound worker makes of a certificate in so many rounds, with the words of `Pcg32::new(seed, stream)`; the
/// certificate itself where there are no rounds or no inner points. Before the first round a small divisor and all weights
/// are multiplied by 60, unless there are Cross or Cap rows. A round draws an inner point `p` and another point `r`; it
/// takes all weights away from the rows at `p`, puts Half(p,r) at the end where it isn't there, raises it, and then raises
/// all rows in their order. It keeps this trial exactly where its value isn't smaller. (This project's own.)
pub fn price(
    alloc: Global,
    points: &Points,
    costs: &Costs,
    start: &Certificate,
    rounds: u32,
    seed: u64,
    stream: u64,
) -> Result<Certificate, NoMemory>
    requires valid { IsValid points.now costs.now start.now.q start.now.rows }
    requires tight { IsTight points.now costs.now start.now.q start.now.rows }
    requires divisor { start.now.q ≤ MOST_DIVISOR }
    requires takers { sum_by lost start.now.rows ≤ 100000000000 }
    ensures priced { IfOk result (λ c. IsPricedBy points.now costs.now start.now rounds seed stream c) }
    ensures valid { IfOk result (λ c. IsValid points.now costs.now c.q c.rows) }
    ensures tight { IfOk result (λ c. IsTight points.now costs.now c.q c.rows) }
    ensures divisor { IfOk result (λ c. c.q ≤ MOST_DIVISOR) }
    ensures takers { IfOk result (λ c. sum_by lost c.rows ≤ 100000000000) }
    ensures light { IfOk result (λ c. AreLight c.rows) }
    ensures value { IfOk result (λ c. (h : ℕ) → value h start.now.q start.now.rows ≤ value h c.q c.rows) }
    ensures unpriced { IfOk result (λ c. rounds ≡ 0 → c ≡ start.now) }
{
    let _listed = costs.list();
    let _count = points.len();
    let rows = start.rows.as_slice();
    let inner = inner_points(alloc, points)?;
    if rounds == 0 || inner.is_empty() {
        return Ok(Certificate {
            q: start.q,
            rows: RowList::make(Vec::from_slice(alloc, rows)?),
        });
    }
    let factor = factor_of(start.q, rows);
    let scaled = scaled_rows(alloc, rows, factor)?;
    let q = start.q * factor;
    let rows = rounds_of(
        alloc,
        points,
        costs,
        q,
        inner.as_slice(),
        scaled,
        rounds,
        seed,
        stream,
    )?;
    Ok(Certificate {
        q,
        rows: RowList::make(rows),
    })
}
