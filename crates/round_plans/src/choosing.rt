// The walk through the drops that go with one keep, with two keeps, or with one flip.
ghost use Rattle.std.specs.Prelude.{◌≡◌, ◌≤◌, drop, length, map, IfOk};
ghost use Rattle.planner.specs.Region.{sights};
ghost use Rattle.plan_defs.specs.Plans.{IsPlanned};
ghost use Rattle.round_plans.specs.Choices.{two_of, one_of, twos_of, choices_of, IsReady};
ghost use Rattle.round_plans.specs.Choices.{head_of as head_spec};
ghost use Rattle.round_plans.specs.Found.{IsFirstPlan};

use cost_defs::Costs;
use edit::Plan;
use mcp_outside::NoMemory;
use plane::{Pair, Points};
use planner::{Region, plan_flip_swap, plan_swap, plan_trade};

/// What comes before the drops.
#[derive(Clone, Copy)]
pub enum Head {
    /// A keep.
    KeepOne(Pair),
    /// Two keeps.
    KeepTwo(Pair, Pair),
    /// A flip to the pair of the apexes, and a keep of that.
    FlipFirst(Pair),
}

/// Whether a pair is kept, or flipped and the new one kept.
#[derive(Clone, Copy)]
pub enum Kind {
    Keeping,
    Flipping,
}

fn head_of(kind: Kind, pair: Pair) -> Head
    ensures { result ≡ head_spec kind pair }
{
    match kind {
        Kind::Keeping => Head::KeepOne(pair),
        Kind::Flipping => Head::FlipFirst(pair),
    }
}

// The plan with two drops.
fn plan_two(
    points: &Points,
    costs: &Costs,
    region: &mut Region,
    head: Head,
    first: Pair,
    second: Pair,
) -> Result<Option<Plan>, NoMemory>
    requires { IsReady points.now region.old }
    ensures plan { IfOk result (IsPlanned points.now costs.now (sights region.old) (two_of head first second)) }
    ensures ready { IsReady points.now region.new }
    ensures before { sights region.new ≡ sights region.old }
{
    match head {
        Head::KeepOne(e) => Ok(plan_swap(points, costs, region, e, first, Some(second))),
        Head::KeepTwo(e, f) => Ok(plan_trade(points, costs, region, [e, f], [first, second])),
        Head::FlipFirst(e) => plan_flip_swap(points, costs, region, e, first, Some(second)),
    }
}

// The plan with one drop.
fn plan_one(
    points: &Points,
    costs: &Costs,
    region: &mut Region,
    kind: Kind,
    pair: Pair,
    first: Pair,
) -> Result<Option<Plan>, NoMemory>
    requires { IsReady points.now region.old }
    ensures plan { IfOk result (IsPlanned points.now costs.now (sights region.old) (one_of kind pair first)) }
    ensures ready { IsReady points.now region.new }
    ensures before { sights region.new ≡ sights region.old }
{
    match kind {
        Kind::Keeping => Ok(plan_swap(points, costs, region, pair, first, None)),
        Kind::Flipping => plan_flip_swap(points, costs, region, pair, first, None),
    }
}

// The first plan with this drop and one of the list from a position on.
fn first_with(
    points: &Points,
    costs: &Costs,
    region: &mut Region,
    head: Head,
    first: Pair,
    list: &[Pair],
    from: usize,
) -> Result<Option<Plan>, NoMemory>
    requires ready { IsReady points.now region.old }
    requires within { from ≤ length list.now }
    ensures first { IfOk result (IsFirstPlan points.now costs.now (sights region.old) (map (two_of head first) (drop from list.now))) }
    ensures ready { IsReady points.now region.new }
    ensures before { sights region.new ≡ sights region.old }
{
    for b in from..list.len() {
        let found = plan_two(points, costs, region, head, first, list[b])?;
        if found.is_some() {
            return Ok(found);
        }
    }
    Ok(None)
}

/// The first plan with two drops of the list.
pub fn first_twos(
    points: &Points,
    costs: &Costs,
    region: &mut Region,
    head: Head,
    list: &[Pair],
) -> Result<Option<Plan>, NoMemory>
    requires { IsReady points.now region.old }
    ensures first { IfOk result (IsFirstPlan points.now costs.now (sights region.old) (twos_of (two_of head) list.now)) }
    ensures ready { IsReady points.now region.new }
    ensures before { sights region.new ≡ sights region.old }
{
    for a in 0..list.len() {
        let found = first_with(points, costs, region, head, list[a], list, a + 1)?;
        if found.is_some() {
            return Ok(found);
        }
    }
    Ok(None)
}

// The first plan with one drop of the list.
fn first_ones(
    points: &Points,
    costs: &Costs,
    region: &mut Region,
    kind: Kind,
    pair: Pair,
    list: &[Pair],
) -> Result<Option<Plan>, NoMemory>
    requires { IsReady points.now region.old }
    ensures first { IfOk result (IsFirstPlan points.now costs.now (sights region.old) (map (one_of kind pair) list.now)) }
    ensures ready { IsReady points.now region.new }
    ensures before { sights region.new ≡ sights region.old }
{
    for a in 0..list.len() {
        let found = plan_one(points, costs, region, kind, pair, list[a])?;
        if found.is_some() {
            return Ok(found);
        }
    }
    Ok(None)
}

/// The first plan that keeps a pair, or flips it and keeps the new one, with two drops of the list, or else with one.
pub fn first_choice(
    points: &Points,
    costs: &Costs,
    region: &mut Region,
    kind: Kind,
    pair: Pair,
    list: &[Pair],
) -> Result<Option<Plan>, NoMemory>
    requires { IsReady points.now region.old }
    ensures first { IfOk result (IsFirstPlan points.now costs.now (sights region.old) (choices_of kind pair list.now)) }
    ensures ready { IsReady points.now region.new }
    ensures before { sights region.new ≡ sights region.old }
{
    let found = first_twos(points, costs, region, head_of(kind, pair), list)?;
    if found.is_some() {
        return Ok(found);
    }
    first_ones(points, costs, region, kind, pair, list)
}
