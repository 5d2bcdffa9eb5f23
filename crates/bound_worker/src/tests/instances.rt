// Point sets and certificates for the tests.
ghost use Rattle.std.specs.Prelude.{◌≤◌, IfOk};
ghost use Rattle.std.specs.List.{sum_by};
ghost use Rattle.price_defs.specs.Loads.{IsValid, lost};
ghost use Rattle.price_defs.specs.Tight.{IsTight};

use dual_prices::{Certificate, Costs, floor_certificate, raise_all};
use mcp_outside::NoMemory;
use plane::{Point, Points};
use price_defs::MOST_DIVISOR;
use std::alloc::Global;
use std::process::Abort;
use std::test::Fail;

// Points by their coordinates.
pub fn points_of(rt: &impl Abort, alloc: Global, list: &[(i64, i64)]) -> Result<Points, Fail> {
    let mut points = Vec::new(alloc);
    for (x, y) in list {
        points.push(Point { x: *x, y: *y })?;
    }
    assert!(rt; points.len() < 5001);
    Ok(Points::make(points)?)
}

// The raised floor certificate.
pub fn raised_floor(alloc: Global, points: &Points, costs: &Costs) -> Result<Certificate, NoMemory>
    ensures valid { IfOk result (λ c. IsValid points.now costs.now c.q c.rows) }
    ensures tight { IfOk result (λ c. IsTight points.now costs.now c.q c.rows) }
    ensures divisor { IfOk result (λ c. c.q ≤ MOST_DIVISOR) }
    ensures takers { IfOk result (λ c. sum_by lost c.rows ≤ 100000000000) }
{
    let floor = floor_certificate(alloc, points, costs)?;
    let raised = raise_all(alloc, points, costs, floor)?;
    Ok(raised)
}
