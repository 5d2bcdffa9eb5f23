// The walk through the neighbours of a vertex.
ghost use Rattle.std.specs.Prelude.{◌≡◌, ◌≢◌, List, IfOk, OnOk, ◌++◌};
ghost use Rattle.std.specs.List.{AllByRecursion};
ghost use Rattle.cost_defs.specs.Costs.{Costed};
ghost use Rattle.planner.specs.Region.{sights};
ghost use Rattle.round_defs.specs.Candidates.{pair_of, drop_list};
ghost use Rattle.round_plans.specs.Choices.{moves_at, moves_of, drops_to, flips_to, IsReady};
ghost use Rattle.round_plans.specs.Found.{IsFirstPlan};
ghost use Rattle.round_plans.specs.Listed.{marked_at};

use crate::choosing::{Kind, first_choice};
use crate::listing::push_pairs;
use cost_defs::Costs;
use edit::Plan;
use mcp_outside::NoMemory;
use plane::{Pair, Points};
use planner::{Region, plan_drop, plan_flip};
use star::Stars;

/// The pair from v to another vertex.
pub fn pair_to(v: u32, q: u32) -> Pair
    requires { v ≢ q }
    ensures { result ≡ pair_of v q }
{
    Pair::of(v, q)
}

/// The first plan that drops a pair from v to a neighbour of the list.
pub fn first_drop(points: &Points, region: &Region, v: u32, list: &[u32]) -> Option<Plan>
    requires ready { IsReady points.now region.now }
    requires apart { AllByRecursion (λ q. v ≢ q) list.now }
    ensures { (D : List Costed) → IsFirstPlan points.now D (sights region.now) (drops_to v list.now) result }
{
    for k in 0..list.len() {
        let found = plan_drop(points, region, pair_to(v, list[k]));
        if found.is_some() {
            return found;
        }
    }
    None
}

/// The first plan that flips a pair from v to a neighbour of the list.
pub fn first_flip(points: &Points, region: &Region, v: u32, list: &[u32]) -> Option<Plan>
    requires ready { IsReady points.now region.now }
    requires apart { AllByRecursion (λ q. v ≢ q) list.now }
    ensures { (D : List Costed) → IsFirstPlan points.now D (sights region.now) (flips_to v list.now) result }
{
    for k in 0..list.len() {
        let found = plan_flip(points, region, pair_to(v, list[k]));
        if found.is_some() {
            return found;
        }
    }
    None
}

/// Adds the pairs with this mark at a vertex, where there is a look at it.
pub fn push_marked(region: &Region, u: u32, kept: bool, out: &mut Vec<Pair>) -> Result<(), NoMemory>
    ensures { OnOk result (out.new.items ≡ out.old.items ++ marked_at kept (sights region.now) u) }
{
    match region.star(u) {
        Some(star) => push_pairs(star, kept, out),
        None => Ok(()),
    }
}

// The pairs from which the drops of v and q are chosen.
fn list_drops(region: &Region, v: u32, q: u32, out: &mut Vec<Pair>) -> Result<(), NoMemory>
    ensures { OnOk result (out.new.items ≡ drop_list (sights region.now) v q) }
{
    out.clear();
    if region.star(q).is_some() {
        push_marked(region, v, true, out)?;
        push_marked(region, q, true, out)?;
    }
    Ok(())
}

// The first plan for one neighbour.
fn first_at(
    points: &Points,
    costs: &Costs,
    region: &mut Region,
    kind: Kind,
    v: u32,
    q: u32,
    drops: &mut Vec<Pair>,
) -> Result<Option<Plan>, NoMemory>
    requires ready { IsReady points.now region.old }
    requires apart { v ≢ q }
    ensures first { IfOk result (IsFirstPlan points.now costs.now (sights region.old) (moves_at kind (sights region.old) v q)) }
    ensures ready { IsReady points.now region.new }
    ensures before { sights region.new ≡ sights region.old }
{
    list_drops(region, v, q, drops)?;
    first_choice(points, costs, region, kind, pair_to(v, q), drops.as_slice())
}

/// The first plan that keeps a pair from v to a neighbour of the list, or flips it and keeps the new one, and drops one or
/// two pairs at the two.
pub fn first_of_kind(
    points: &Points,
    costs: &Costs,
    region: &mut Region,
    kind: Kind,
    v: u32,
    list: &[u32],
    drops: &mut Vec<Pair>,
) -> Result<Option<Plan>, NoMemory>
    requires ready { IsReady points.now region.old }
    requires apart { AllByRecursion (λ q. v ≢ q) list.now }
    ensures first { IfOk result (IsFirstPlan points.now costs.now (sights region.old) (moves_of kind (sights region.old) v list.now)) }
    ensures ready { IsReady points.now region.new }
    ensures before { sights region.new ≡ sights region.old }
{
    for k in 0..list.len() {
        let found = first_at(points, costs, region, kind, v, list[k], drops)?;
        if found.is_some() {
            return Ok(found);
        }
    }
    Ok(None)
}
