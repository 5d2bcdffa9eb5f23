// All kinds of a round.
ghost use Rattle.std.specs.Prelude.{◌≡◌, ◌≢◌, ◌≤◌, length, IfOk, OnOk};
ghost use Rattle.std.specs.List.{AllByRecursion};
ghost use Rattle.plan_defs.specs.Plans.{look_at};
ghost use Rattle.planner.specs.Region.{sights, AreFor, DoAgree, IsAsBefore};
ghost use Rattle.round_defs.specs.Candidates.{turned, trade_moves};
ghost use Rattle.round_plans.specs.Choices.{IsReady};
ghost use Rattle.round_plans.specs.Found.{AreRoundPlans, IsFirstPlan};
ghost use Rattle.round_plans.specs.Listed.{marked, names};

use crate::choosing::Kind;
use crate::found::RoundPlans;
use crate::listing::list_turned;
use crate::trading::first_trade;
use crate::walking::{first_drop, first_flip, first_of_kind, push_marked};
use cost_defs::Costs;
use edit::Plan;
use mcp_outside::NoMemory;
use plane::{Pair, Points};
use planner::Region;
use star::Stars;
use std::alloc::Global;

/// Lists that are filled anew in each round.
#[derive(Drop)]
pub struct Scratch {
    kept: Vec<u32>,
    spare: Vec<u32>,
    keeps: Vec<Pair>,
    drops: Vec<Pair>,
}

// The neighbours of v with this mark, cyclically from a position on.
fn list_from(
    region: &Region,
    v: u32,
    from: u32,
    kept: bool,
    out: &mut Vec<u32>,
) -> Result<(), NoMemory>
    requires { from ≤ length (look_at (sights region.now) v).list }
    ensures names { OnOk result (out.new.items ≡ names (marked kept (turned from (look_at (sights region.now) v).list))) }
    ensures apart { OnOk result (AllByRecursion (λ q. v ≢ q) out.new.items) }
{
    match region.star(v) {
        Some(star) => list_turned(star, from, kept, out),
        None => {
            out.clear();
            Ok(())
        }
    }
}

// The first trade at v.
fn trade_at(
    points: &Points,
    costs: &Costs,
    region: &mut Region,
    v: u32,
    keeps: &mut Vec<Pair>,
    drops: &mut Vec<Pair>,
) -> Result<Option<Plan>, NoMemory>
    requires { IsReady points.now region.old }
    ensures first { IfOk result (IsFirstPlan points.now costs.now (sights region.old) (trade_moves v (look_at (sights region.old) v).list)) }
    ensures ready { IsReady points.now region.new }
    ensures before { sights region.new ≡ sights region.old }
{
    keeps.clear();
    drops.clear();
    push_marked(region, v, false, keeps)?;
    push_marked(region, v, true, drops)?;
    first_trade(points, costs, region, keeps.as_slice(), drops.as_slice())
}

impl Scratch {
    /// Empty lists.
    pub fn make(alloc: Global) -> Scratch {
        Scratch {
            kept: Vec::new(alloc),
            spare: Vec::new(alloc),
            keeps: Vec::new(alloc),
            drops: Vec::new(alloc),
        }
    }

    /// The first plan of each kind on a region with a look at v, the neighbours being gone through cyclically from a
    /// position on. The region is afterwards as before.
    pub fn plans(
        &mut self,
        points: &Points,
        costs: &Costs,
        region: &mut Region,
        v: u32,
        from: u32,
    ) -> Result<RoundPlans, NoMemory>
        requires points { AreFor points.now region.old }
        requires agree { DoAgree points.now region.old }
        requires from { from ≤ length (look_at (sights region.old) v).list }
        ensures plans { IfOk result (AreRoundPlans points.now costs.now (sights region.old) v from) }
        ensures before { IsAsBefore points.now region.old region.new }
    {
        list_from(region, v, from, true, &mut self.kept)?;
        list_from(region, v, from, false, &mut self.spare)?;
        let drop = first_drop(points, region, v, &self.kept);
        let spare = &self.spare;
        let drops = &mut self.drops;
        let swap = first_of_kind(points, costs, region, Kind::Keeping, v, spare, drops)?;
        let trade = trade_at(points, costs, region, v, &mut self.keeps, drops)?;
        let flip_swap = first_of_kind(points, costs, region, Kind::Flipping, v, spare, drops)?;
        let flip = first_flip(points, region, v, spare);
        Ok(RoundPlans {
            drop,
            swap,
            trade,
            flip_swap,
            flip,
        })
    }
}
