// Worked plans on looks of a core. The expected answers are this project's worked ones.
use super::answering::answer;
use super::making::{agreed_region, core_of, enter, swept};
use cost_defs::{Costs, are_costs};
use edit::{Claim, Plan};
use journal_defs::Edit;
use plan_defs::Move;
use plane::Pair;
use replay::Core;
use std::alloc::Global;
use std::process::Abort;
use std::test::Fail;

const GRID: [(i64, i64); 6] = [(0, 0), (10, 0), (20, 0), (0, 10), (10, 10), (20, 10)];

const CENTRED: [(i64, i64); 5] = [(0, 0), (0, 4), (4, 0), (4, 4), (2, 2)];

fn are_claims(claims: &[Claim], wanted: &[(u32, u64)]) -> bool {
    if claims.len() != wanted.len() {
        return false;
    }
    for (claim, (vertex, stamp)) in claims.iter().zip(wanted) {
        if claim.vertex != *vertex || claim.stamp != *stamp {
            return false;
        }
    }
    true
}

// The answer on looks at these vertices, under these costs.
fn answered(core: &Core, costs: &Costs, looked: &[u32], asked: Move) -> Result<Option<Plan>, Fail> {
    let points = core.points();
    let mut region = agreed_region(points, core, looked)?;
    answer(points, costs, &mut region, asked)
}

fn expect_plan(
    rt: &impl Abort,
    core: &Core,
    costs: &Costs,
    looked: &[u32],
    asked: Move,
    edits: &[Edit],
    claims: &[(u32, u64)],
) -> Result<(), Fail> {
    match answered(core, costs, looked, asked)? {
        None => Err(Fail::from("no plan")),
        Some(plan) => {
            assert!(rt; plan.edits() == edits);
            assert!(rt; are_claims(plan.claims(), claims));
            Ok(())
        }
    }
}

fn expect_none(
    rt: &impl Abort,
    core: &Core,
    costs: &Costs,
    looked: &[u32],
    asked: Move,
) -> Result<(), Fail> {
    assert!(rt; answered(core, costs, looked, asked)?.is_none());
    Ok(())
}

fn swap(keep: Pair, first: Pair) -> Move {
    Move::Swap {
        keep,
        first,
        second: None,
    }
}

fn flip_swap(pair: Pair, first: Pair) -> Move {
    Move::FlipSwap {
        pair,
        first,
        second: None,
    }
}

fn flip() -> Edit {
    Edit::Flip {
        from: Pair::of(1, 3),
        to: Pair::of(0, 4),
    }
}

fn grid(rt: &impl Abort, alloc: Global) -> Result<Core, Fail> {
    let mut core = core_of(rt, alloc, &GRID)?;
    let number = enter(&mut core, &[Edit::Drop(Pair::of(1, 3))])?;
    assert!(rt; number == 1);
    Ok(core)
}

// The swap that keeps the pair which is gone and drops another, on looks at these vertices.
fn expect_grid_swap(rt: &impl Abort, core: &Core, looked: &[u32]) -> Result<(), Fail> {
    let (gone, side) = (Pair::of(1, 3), Pair::of(1, 4));
    let edits = [Edit::Keep(gone), Edit::Drop(side)];
    let claims = [(1, 1), (3, 1), (4, 0)];
    expect_plan(
        rt,
        core,
        &Costs::unit(),
        looked,
        swap(gone, side),
        &edits,
        &claims,
    )
}

#[test]
fn a_drop_and_swaps_of_a_grid(rt: HostRuntime) -> Result<(), Fail> {
    let core = grid(&rt, rt.alloc())?;
    let gone = Move::DropOne(Pair::of(1, 3));
    expect_none(&rt, &core, &Costs::unit(), &[0, 1, 3, 4], gone)?;
    expect_grid_swap(&rt, &core, &[0, 1, 3, 4])?;
    expect_grid_swap(&rt, &core, &[1, 3, 4])
}

#[test]
fn a_flip_of_a_grid(rt: HostRuntime) -> Result<(), Fail> {
    let core = grid(&rt, rt.alloc())?;
    let asked = Move::FlipOne(Pair::of(1, 3));
    let claims = [(0, 0), (1, 1), (3, 1), (4, 0)];
    expect_plan(
        &rt,
        &core,
        &Costs::unit(),
        &[0, 1, 3, 4],
        asked,
        &[flip()],
        &claims,
    )?;
    expect_none(&rt, &core, &Costs::unit(), &[1, 3, 4], asked)
}

// Its plan is a commit that is taken.
#[test]
fn a_flip_and_a_swap_of_a_grid(rt: HostRuntime) -> Result<(), Fail> {
    let mut core = grid(&rt, rt.alloc())?;
    let asked = flip_swap(Pair::of(1, 3), Pair::of(1, 4));
    let edits = [
        flip(),
        Edit::Keep(Pair::of(0, 4)),
        Edit::Drop(Pair::of(1, 4)),
    ];
    let claims = [(0, 0), (1, 1), (3, 1), (4, 0)];
    expect_plan(
        &rt,
        &core,
        &Costs::unit(),
        &[0, 1, 3, 4],
        asked,
        &edits,
        &claims,
    )?;
    expect_none(&rt, &core, &Costs::unit(), &[1, 3, 4], asked)?;
    let number = enter(&mut core, &edits)?;
    assert!(&rt; number == 2);
    Ok(())
}

fn cost_of_one(alloc: Global, e: Pair, cost: u32) -> Result<Costs, Fail> {
    let mut list = Vec::new(alloc);
    list.push((e, cost))?;
    if are_costs(list.as_slice()) {
        Ok(Costs::make(list))
    } else {
        Err(Fail::from("no costs"))
    }
}

fn centred(rt: &impl Abort, alloc: Global) -> Result<Core, Fail> {
    let mut core = core_of(rt, alloc, &CENTRED)?;
    let dropped = swept(&mut core)?;
    assert!(rt; dropped == 2);
    Ok(core)
}

fn trade() -> Move {
    Move::Trade {
        keep: Pair::of(0, 4),
        other: Pair::of(3, 4),
        first: Pair::of(1, 4),
        second: Pair::of(2, 4),
    }
}

fn traded() -> [Edit; 4] {
    [
        Edit::Keep(Pair::of(0, 4)),
        Edit::Keep(Pair::of(3, 4)),
        Edit::Drop(Pair::of(1, 4)),
        Edit::Drop(Pair::of(2, 4)),
    ]
}

fn kept_cost(core: &Core, costs: &Costs) -> Result<u64, Fail> {
    let kept = core.kept()?;
    if kept.len() >= 10 {
        return Err(Fail::from("too many pairs"));
    }
    Ok(costs.total(kept.as_slice()))
}

// A trade that saves two is planned. Its plan is a commit that is taken.
#[test]
fn a_trade_that_costs_less(rt: HostRuntime) -> Result<(), Fail> {
    let mut core = centred(&rt, rt.alloc())?;
    let costs = cost_of_one(rt.alloc(), Pair::of(1, 4), 3)?;
    let claims = [(0, 1), (1, 0), (2, 0), (3, 2), (4, 2)];
    expect_plan(
        &rt,
        &core,
        &costs,
        &[0, 1, 2, 3, 4],
        trade(),
        &traded(),
        &claims,
    )?;
    let number = enter(&mut core, &traded())?;
    assert!(&rt; number == 3);
    assert!(&rt; kept_cost(&core, &costs)? == 6);
    Ok(())
}

#[test]
fn a_trade_that_costs_more(rt: HostRuntime) -> Result<(), Fail> {
    let core = centred(&rt, rt.alloc())?;
    let costs = cost_of_one(rt.alloc(), Pair::of(0, 4), 3)?;
    expect_none(&rt, &core, &costs, &[0, 1, 2, 3, 4], trade())
}

// One pair alone is left beside the kept one, whatever the costs.
#[test]
fn a_swap_that_leaves_a_gap(rt: HostRuntime) -> Result<(), Fail> {
    let core = centred(&rt, rt.alloc())?;
    let asked = swap(Pair::of(0, 4), Pair::of(1, 4));
    for e in [Pair::of(1, 4), Pair::of(0, 4)] {
        let costs = cost_of_one(rt.alloc(), e, 3)?;
        expect_none(&rt, &core, &costs, &[0, 1, 2, 3, 4], asked)?;
    }
    Ok(())
}
