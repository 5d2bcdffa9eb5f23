// Certificates from which bound workers start: raised ones, with Cross and Cap rows and without.
ghost use Rattle.std.specs.Prelude.{◌≡◌, ◌≤◌, ◌+◌, ◌++◌, ◌∷◌, [], IfOk, OnOk};
ghost use Rattle.std.specs.List.{sum_by};
ghost use Rattle.price_defs.specs.Loads.{IsValid, lost};
ghost use Rattle.price_defs.specs.Rows.{weight};
ghost use Rattle.price_defs.specs.Tight.{AreCovered, IsTight};

use super::instances::{below, drawn_pair};
use cert_check::check_certificate;
use dual_prices::{Certificate, Costs, Row, RowList, floor_certificate, raise_all};
use mcp_outside::NoMemory;
use plane::Points;
use price_defs::{MOST_DIVISOR, are_indexed, are_light, are_right};
use rand_pcg::Pcg32;
use std::alloc::Global;
use std::test::Fail;

// The certificate with its rows raised.
fn raised(
    alloc: Global,
    points: &Points,
    costs: &Costs,
    certificate: Certificate,
) -> Result<Certificate, NoMemory>
    requires valid { IsValid points.now costs.now certificate.q certificate.rows }
    requires covered { AreCovered points.now certificate.rows }
    requires divisor { certificate.q ≤ MOST_DIVISOR }
    requires takers { sum_by lost certificate.rows ≤ 100 }
    ensures valid { IfOk result (λ c. IsValid points.now costs.now c.q c.rows) }
    ensures tight { IfOk result (λ c. IsTight points.now costs.now c.q c.rows) }
    ensures divisor { IfOk result (λ c. c.q ≤ MOST_DIVISOR) }
    ensures takers { IfOk result (λ c. sum_by lost c.rows ≤ 100000000000) }
{
    let raised = raise_all(alloc, points, costs, certificate)?;
    Ok(raised)
}

// The raised floor certificate.
pub fn raised_floor(alloc: Global, points: &Points, costs: &Costs) -> Result<Certificate, NoMemory>
    ensures valid { IfOk result (λ c. IsValid points.now costs.now c.q c.rows) }
    ensures tight { IfOk result (λ c. IsTight points.now costs.now c.q c.rows) }
    ensures divisor { IfOk result (λ c. c.q ≤ MOST_DIVISOR) }
    ensures takers { IfOk result (λ c. sum_by lost c.rows ≤ 100000000000) }
{
    let floor = floor_certificate(alloc, points, costs)?;
    raised(alloc, points, costs, floor)
}

// A Cross row of small weight, by the words, or where their pairs don't cross the Cap row of the first one.
fn drawn_taker(words: &mut Pcg32, points: &Points) -> Row
    ensures { weight result ≤ 9 }
{
    let w = u64::from(below(words, 4).min(9));
    let e = drawn_pair(words, points.len());
    let f = drawn_pair(words, points.len());
    let cross = Row::Cross { e, f, w };
    if are_right(points, [cross].as_slice()) {
        return cross;
    }
    Row::Cap { e, w }
}

// Adds a row where it is right.
#[tactic(auto, using(crate::proofs::Starts::covered_push, crate::proofs::Starts::lost_push))]
fn push_right(rows: &mut Vec<Row>, points: &Points, row: Row) -> Result<(), NoMemory>
    requires { weight row ≤ 9 }
    ensures covered { AreCovered points.now rows.old.items → OnOk result (AreCovered points.now rows.new.items) }
    ensures lost { OnOk result (sum_by lost rows.new.items ≤ sum_by lost rows.old.items + 9) }
{
    if are_right(points, [row].as_slice()) {
        rows.push(row)?;
    }
    Ok(())
}

// The floor certificate's rows, and some Cross and Cap rows.
fn rows_with_takers(
    alloc: Global,
    words: &mut Pcg32,
    points: &Points,
    costs: &Costs,
) -> Result<Vec<Row>, NoMemory>
    ensures covered { IfOk result (λ v. AreCovered points.now v.items) }
    ensures lost { IfOk result (λ v. sum_by lost v.items ≤ 100) }
{
    let floor = floor_certificate(alloc, points, costs)?;
    let mut rows = floor.rows.into_vec();
    for k in 0..6u32 {
        let row = drawn_taker(words, points);
        push_right(&mut rows, points, row)?;
    }
    Ok(rows)
}

// The raised certificate of these rows. That it is valid before is what the check says.
pub fn raised_with_takers(
    alloc: Global,
    words: &mut Pcg32,
    points: &Points,
    costs: &Costs,
) -> Result<Certificate, Fail>
    ensures valid { IfOk result (λ c. IsValid points.now costs.now c.q c.rows) }
    ensures tight { IfOk result (λ c. IsTight points.now costs.now c.q c.rows) }
    ensures divisor { IfOk result (λ c. c.q ≤ MOST_DIVISOR) }
    ensures takers { IfOk result (λ c. sum_by lost c.rows ≤ 100000000000) }
{
    let rows = rows_with_takers(alloc, words, points, costs)?;
    if rows.len() > 1_000 || !are_light(rows.as_slice()) || !are_indexed(points, rows.as_slice()) {
        return Err(Fail::from("rows that aren't checked"));
    }
    let certificate = Certificate {
        q: 2,
        rows: RowList::make(rows),
    };
    match check_certificate(alloc, points, costs, &certificate) {
        Ok(_) => Ok(raised(alloc, points, costs, certificate)?),
        Err(_) => Err(Fail::from("rows that aren't valid")),
    }
}
