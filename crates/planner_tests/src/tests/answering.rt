// What the planner answers to a move, beside what the plain slow program says.
ghost use Rattle.planner_tests.specs.Regions.{IsAgreed};

use super::drawing::{flip_of, is_fine};
use super::making::last_touch;
use cost_defs::Costs;
use edit::{Claim, Plan};
use journal_defs::{Edit, Lists, is_touched, is_within};
use plan_defs::{Move, are_fine};
use plane::{Pair, Points};
use planner::{Region, plan_drop, plan_flip, plan_flip_swap, plan_swap, plan_trade};
use replay::Core;
use star::{Star, Stars};
use std::alloc::Global;
use std::process::Abort;
use std::test::Fail;

/// The planner's answer.
pub fn answer(
    points: &Points,
    costs: &Costs,
    region: &mut Region,
    asked: Move,
) -> Result<Option<Plan>, Fail>
    requires { IsAgreed points.now region.old }
    ensures { IsAgreed points.now region.new }
{
    let _count = points.len();
    match asked {
        Move::DropOne(e) => Ok(plan_drop(points, region, e)),
        Move::Swap {
            keep,
            first,
            second,
        } => Ok(plan_swap(points, costs, region, keep, first, second)),
        Move::Trade {
            keep,
            other,
            first,
            second,
        } => Ok(plan_trade(points, costs, region, [keep, other], [first, second])),
        Move::FlipOne(e) => Ok(plan_flip(points, region, e)),
        Move::FlipSwap {
            pair,
            first,
            second,
        } => flip_swap(points, costs, region, pair, first, second),
    }
}

fn flip_swap(
    points: &Points,
    costs: &Costs,
    region: &mut Region,
    pair: Pair,
    first: Pair,
    second: Option<Pair>,
) -> Result<Option<Plan>, Fail>
    requires { IsAgreed points.now region.old }
    ensures { IsAgreed points.now region.new }
{
    match plan_flip_swap(points, costs, region, pair, first, second) {
        Ok(plan) => Ok(plan),
        Err(_) => Err(Fail::from("no memory")),
    }
}

// The edits of a move whose pair flips to this one.
fn flip_then(
    alloc: Global,
    flip: Option<Edit>,
    first: Pair,
    second: Option<Pair>,
) -> Result<Option<Vec<Edit>>, Fail> {
    match flip {
        Some(Edit::Flip { from, to }) => {
            let mut edits = Vec::new(alloc);
            edits.push(Edit::Flip { from, to })?;
            edits.push(Edit::Keep(to))?;
            push_drops(&mut edits, first, second)?;
            Ok(Some(edits))
        }
        _ => Ok(None),
    }
}

fn push_drops(edits: &mut Vec<Edit>, first: Pair, second: Option<Pair>) -> Result<(), Fail> {
    edits.push(Edit::Drop(first))?;
    if let Some(e) = second {
        edits.push(Edit::Drop(e))?;
    }
    Ok(())
}

// The edits of a move in a state, or none where its pair has no flip that is legal.
fn edits_of(
    alloc: Global,
    points: &Points,
    state: &Lists,
    asked: Move,
) -> Result<Option<Vec<Edit>>, Fail> {
    let mut edits = Vec::new(alloc);
    match asked {
        Move::DropOne(e) => edits.push(Edit::Drop(e))?,
        Move::Swap {
            keep,
            first,
            second,
        } => {
            edits.push(Edit::Keep(keep))?;
            push_drops(&mut edits, first, second)?;
        }
        Move::Trade {
            keep,
            other,
            first,
            second,
        } => {
            edits.push(Edit::Keep(keep))?;
            edits.push(Edit::Keep(other))?;
            push_drops(&mut edits, first, Some(second))?;
        }
        Move::FlipOne(e) => match flip_of(alloc, points, state, e)? {
            Some(flip) => edits.push(flip)?,
            None => return Ok(None),
        },
        Move::FlipSwap {
            pair,
            first,
            second,
        } => return flip_then(alloc, flip_of(alloc, points, state, pair)?, first, second),
    }
    Ok(Some(edits))
}

// Whether edits may be planned, by all pairs and all points.
fn is_planned(
    alloc: Global,
    points: &Points,
    costs: &Costs,
    state: &Lists,
    looked: &[u32],
    edits: &[Edit],
) -> Result<bool, Fail> {
    if edits.len() > 8 || !is_within(points, state) {
        return Err(Fail::from("no edits of this state"));
    }
    Ok(are_fine(alloc, points, costs, state, looked, edits)?)
}

// Claims on exactly what the edits touch, with the last touches.
fn claims_of(alloc: Global, core: &Core, edits: &[Edit]) -> Result<Vec<Claim>, Fail> {
    let mut claims = Vec::new(alloc);
    for vertex in 0..core.points().len() {
        if edits.iter().any(|e| is_touched(e, vertex)) {
            let stamp = last_touch(core, vertex);
            claims.push(Claim { vertex, stamp })?;
        }
    }
    Ok(claims)
}

// The stars that were looked at are those of the core, and there are no others.
fn compare_region(
    rt: &impl Abort,
    core: &Core,
    looked: &[u32],
    region: &Region,
) -> Result<(), Fail> {
    for v in 0..core.points().len() {
        match region.star(v) {
            Some(star) => {
                assert!(rt; looked.contains(&v));
                assert!(rt; is_same_star(core.star(v), star));
            }
            None => assert!(rt; !looked.contains(&v)),
        }
    }
    Ok(())
}

fn is_same_star(a: &Star, b: &Star) -> bool {
    if a.centre() != b.centre() || a.degree() != b.degree() {
        return false;
    }
    for k in 0..a.degree() {
        if k >= b.degree() || a.at(k) != b.at(k) {
            return false;
        }
    }
    true
}

/// A state of a core, what its pairs cost, and which vertices were looked at.
#[derive(Clone, Copy)]
pub struct Scene<'a> {
    pub points: &'a Points,
    pub core: &'a Core,
    pub state: &'a Lists,
    pub costs: &'a Costs,
    pub looked: &'a [u32],
}

// The edits that the plain program finds for a move, where they may be planned.
fn plain_edits(alloc: Global, scene: &Scene<'_>, asked: Move) -> Result<Option<Vec<Edit>>, Fail> {
    let points = scene.core.points();
    match edits_of(alloc, points, scene.state, asked)? {
        Some(edits) => {
            if is_planned(
                alloc,
                points,
                scene.costs,
                scene.state,
                scene.looked,
                &edits,
            )? {
                Ok(Some(edits))
            } else {
                Ok(None)
            }
        }
        None => Ok(None),
    }
}

/// The planner's answer is that of the plain program, and the region is afterwards as it was. Whether there is a plan.
pub fn compare_move(
    rt: &impl Abort,
    alloc: Global,
    scene: &Scene<'_>,
    region: &mut Region,
    asked: Move,
) -> Result<bool, Fail>
    requires { IsAgreed scene.now.points.now region.old }
    ensures { IsAgreed scene.now.points.now region.new }
{
    let core = scene.core;
    let plan = answer(scene.points, scene.costs, region, asked)?;
    compare_region(rt, core, scene.looked, region)?;
    match (plain_edits(alloc, scene, asked)?, plan) {
        (None, None) => Ok(false),
        (Some(edits), Some(plan)) => {
            assert!(rt; plan.edits() == edits.as_slice());
            assert!(rt; plan.claims() == claims_of(alloc, core, &edits)?.as_slice());
            Ok(true)
        }
        _ => Err(Fail::from("another answer than the plain program's")),
    }
}
