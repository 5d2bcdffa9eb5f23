// The first certificate: the floor certificate, raised.
ghost use Rattle.std.specs.Prelude.{IfOk};
ghost use Rattle.lower_bounds.specs.Found.{IsFirst};

use cost_defs::Costs;
use dual_prices::{Certificate, floor_certificate, raise_all};
use mcp_outside::NoMemory;
use plane::Points;
use std::alloc::Global;

/// The raised floor certificate.
pub fn first_certificate(
    alloc: Global,
    points: &Points,
    costs: &Costs,
) -> Result<Certificate, NoMemory>
    ensures { IfOk result (λ c. IsFirst points.now costs.now c) }
{
    let floor = floor_certificate(alloc, points, costs)?;
    let certificate = raise_all(alloc, points, costs, floor)?;
    Ok(certificate)
}
