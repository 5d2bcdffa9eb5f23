// The lower bound of an instance.
ghost use Rattle.std.specs.Prelude.{◌≡◌, ◌≤◌, ℕ, IfOk};
ghost use Rattle.triangulate.specs.Start.{IsStart};
ghost use Rattle.lower_bounds.specs.Bounds.{IsBase, IsBasis, IsLowerBound};
ghost use Rattle.lower_bounds.specs.Found.{AreFound};

use crate::bests::{Search, all_found, best};
use crate::border_list::border_pairs;
use crate::prices::first_certificate;
use cost_defs::Costs;
use dual_prices::{Certificate, value};
use mcp_outside::NoMemory;
use plane::Points;
use std::alloc::Global;
use std::thread::Threads;
use subdivision::Subdivision;

/// A certificate and the lower bound that it shows.
#[derive(Drop)]
pub struct LowerBound {
    pub certificate: Certificate,
    /// The value of the certificate over the cost of the border pairs: no convex partition costs less.
    pub bound: u64,
}

/// What a run shows before its bound workers begin.
#[derive(Drop)]
pub struct Basis {
    /// What the border pairs cost together.
    pub border: u64,
    /// The floor certificate, raised.
    pub first: Certificate,
}

// What the border pairs cost.
fn border_cost(
    alloc: Global,
    points: &Points,
    costs: &Costs,
    start: &Subdivision,
) -> Result<u64, NoMemory>
    requires points { start.now.points ≡ points.now }
    requires start { IsStart points.now start.now.all }
    ensures { IfOk result (IsBase points.now costs.now) }
{
    let _count = points.len();
    let _list = costs.list();
    let pairs = start.pairs()?;
    let border = border_pairs(alloc, points, start, &pairs)?;
    let sum = costs.total(&border);
    Ok(sum)
}

/// The cost of the border pairs, and the raised floor certificate. `start` is the start of the points. (This project's
/// own.)
pub fn basis_of(
    alloc: Global,
    points: &Points,
    costs: &Costs,
    start: &Subdivision,
) -> Result<Basis, NoMemory>
    requires points { start.now.points ≡ points.now }
    requires start { IsStart points.now start.now.all }
    ensures { IfOk result (IsBasis points.now costs.now) }
{
    let border = border_cost(alloc, points, costs, start)?;
    let first = first_certificate(alloc, points, costs)?;
    Ok(Basis { border, first })
}

/// The best of the raised floor certificate and of what bound workers found from it, in their order, with its value.
pub fn bound_from(
    points: &Points,
    costs: &Costs,
    basis: Basis,
    found: Vec<Certificate>,
    search: Search,
) -> Result<LowerBound, NoMemory>
    requires basis { IsBasis points.now costs.now basis }
    requires found { AreFound points.now costs.now basis.first search found.items }
    ensures { IfOk result (IsLowerBound points.now costs.now search) }
{
    let certificate = best(points, costs, basis.first, found, search)?;
    let bound = value(&certificate, basis.border);
    Ok(LowerBound { certificate, bound })
}

/// The best certificate that so many bound workers, at most 16, find from the raised floor certificate, with its value.
/// `start` is the start of the points. Workers run side by side where threads can be made, and else one after another.
/// (This project's own.)
pub fn lower_bound<R: Threads + Sync>(
    rt: &R,
    alloc: Global,
    points: &Points,
    costs: &Costs,
    start: &Subdivision,
    search: Search,
) -> Result<LowerBound, NoMemory>
    requires workers { search.workers ≤ 16 }
    requires points { start.now.points ≡ points.now }
    requires start { IsStart points.now start.now.all }
    ensures { IfOk result (IsLowerBound points.now costs.now search) }
{
    let basis = basis_of(alloc, points, costs, start)?;
    let found = all_found(rt, alloc, points, costs, &basis.first, search)?;
    bound_from(points, costs, basis, found, search)
}
