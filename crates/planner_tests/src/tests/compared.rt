// All moves at every vertex of drawn small states: the planner's answers are those of the plain slow program.
ghost use Rattle.std.specs.Prelude.{◌≡◌};
ghost use Rattle.planner_tests.specs.Regions.{IsAgreed};

use super::answering::{Scene, compare_move};
use super::candidates::moves_at;
use super::drawing::{any_costs, any_edits, below, next};
use super::making::{agreed_region, core_of, enter, pair};
use cost_defs::Costs;
use journal_defs::{Edit, Lists, replay};
use plan_defs::Move;
use planner::Region;
use replay::Core;
use std::alloc::Global;
use std::process::Abort;
use std::test::Fail;

// How many moves of each kind gave a plan, and how many gave none.
#[derive(Clone, Copy, Default)]
struct Tally {
    drops: u32,
    swaps: u32,
    trades: u32,
    flip_swaps: u32,
    flips: u32,
    none: u32,
}

fn one_more(count: u32) -> u32 {
    count.saturating_add(1)
}

impl Tally {
    fn note(&mut self, asked: Move, found: bool) {
        if !found {
            self.none = one_more(self.none);
            return;
        }
        match asked {
            Move::DropOne(_) => self.drops = one_more(self.drops),
            Move::Swap { .. } => self.swaps = one_more(self.swaps),
            Move::Trade { .. } => self.trades = one_more(self.trades),
            Move::FlipSwap { .. } => self.flip_swaps = one_more(self.flip_swaps),
            Move::FlipOne(_) => self.flips = one_more(self.flips),
        }
    }
}

// A vertex and its neighbours but for one that is passed over.
fn looked_from(alloc: Global, core: &Core, v: u32, passed: u32) -> Result<Vec<u32>, Fail> {
    let mut looked = Vec::new(alloc);
    looked.push(v)?;
    if v >= core.points().len() {
        return Ok(looked);
    }
    let star = core.star(v);
    for k in 0..star.degree() {
        let q = star.at(k).0;
        if q != passed {
            looked.push(q)?;
        }
    }
    Ok(looked)
}

// What the moves of one kind are answered.
fn compare_moves(
    rt: &impl Abort,
    alloc: Global,
    scene: &Scene<'_>,
    region: &mut Region,
    moves: &[Move],
    tally: &mut Tally,
) -> Result<(), Fail>
    requires { IsAgreed scene.now.points.now region.old }
    ensures { IsAgreed scene.now.points.now region.new }
{
    for asked in moves {
        let found = compare_move(rt, alloc, scene, region, *asked)?;
        tally.note(*asked, found);
    }
    Ok(())
}

// All moves at a vertex.
fn compare_vertex(
    rt: &impl Abort,
    alloc: Global,
    scene: &Scene<'_>,
    v: u32,
    tally: &mut Tally,
) -> Result<(), Fail>
    requires { scene.now.points.now ≡ scene.now.core.now.points }
{
    let moves = moves_at(alloc, scene.core, v)?;
    let mut region = agreed_region(scene.points, scene.core, scene.looked)?;
    compare_moves(rt, alloc, scene, &mut region, &moves, tally)
}

// All moves at a vertex, from looks at it and its neighbours but for one.
fn compare_looked(
    rt: &impl Abort,
    alloc: Global,
    core: &Core,
    costs: &Costs,
    state: &Lists,
    v: u32,
    passed: u32,
    tally: &mut Tally,
) -> Result<(), Fail> {
    let looked = looked_from(alloc, core, v, passed)?;
    let scene = Scene {
        points: core.points(),
        core,
        state,
        costs,
        looked: &looked,
    };
    compare_vertex(rt, alloc, &scene, v, tally)
}

// All vertices of one state. At about every other vertex one point isn't looked at.
fn compare_state(
    rt: &impl Abort,
    alloc: Global,
    core: &Core,
    costs: &Costs,
    seed: u64,
    tally: &mut Tally,
) -> Result<(), Fail> {
    let state = replay(alloc, core.start(), core.journal())?;
    let count = core.points().len();
    let mut seed = seed;
    for v in 0..count {
        seed = next(seed);
        let passed = below(seed, count.saturating_mul(2));
        compare_looked(rt, alloc, core, costs, &state, v, passed, tally)?;
    }
    Ok(())
}

// Drawn edits, where there are some that are legal.
fn step(alloc: Global, core: &mut Core, seed: u64) -> Result<(), Fail> {
    let edits = any_edits(alloc, core, seed)?;
    if !edits.is_empty() {
        enter(core, &edits)?;
    }
    Ok(())
}

// A state with unit costs, and with drawn ones.
fn compare_costs(
    rt: &impl Abort,
    alloc: Global,
    core: &Core,
    seed: u64,
    tally: &mut Tally,
) -> Result<(), Fail> {
    let costs = any_costs(alloc, core.points().len(), seed)?;
    compare_state(rt, alloc, core, &costs, next(seed), tally)?;
    compare_state(rt, alloc, core, &Costs::unit(), seed, tally)
}

// So many states, one after the other.
fn walk(
    rt: &impl Abort,
    alloc: Global,
    core: &mut Core,
    seed: u64,
    count: u32,
) -> Result<Tally, Fail> {
    let mut tally = Tally::default();
    let mut seed = seed;
    for _ in 0..count {
        seed = next(seed);
        step(alloc, core, seed)?;
        compare_costs(rt, alloc, core, seed, &mut tally)?;
    }
    Ok(tally)
}

const GRID: [(i64, i64); 6] = [(0, 0), (10, 0), (20, 0), (0, 10), (10, 10), (20, 10)];

const SCATTERED: [(i64, i64); 7] = [(0, 0), (9, 1), (4, 8), (3, 3), (5, 4), (2, 5), (7, 3)];

const WHEEL: [(i64, i64); 7] = [(0, 0), (6, 0), (5, 3), (3, 5), (0, 6), (-6, 0), (-3, -5)];

// A wheel of six spokes, of which those to 3, 5 and 6 are kept.
fn turn_wheel(core: &mut Core) -> Result<(), Fail> {
    let (from, to) = (pair(2, 6), pair(0, 1));
    enter(core, &[Edit::Drop(from), Edit::Flip { from, to }])?;
    enter(core, &[Edit::Drop(pair(0, 2)), Edit::Drop(pair(0, 4))])?;
    Ok(())
}

#[test]
fn all_moves_on_a_grid(rt: HostRuntime) -> Result<(), Fail> {
    let mut core = core_of(&rt, rt.alloc(), &GRID)?;
    let tally = walk(&rt, rt.alloc(), &mut core, 5, 8)?;
    assert!(&rt; tally.flips > 5);
    assert!(&rt; tally.none > 50);
    Ok(())
}

#[test]
fn all_moves_on_scattered_points(rt: HostRuntime) -> Result<(), Fail> {
    let mut core = core_of(&rt, rt.alloc(), &SCATTERED)?;
    let tally = walk(&rt, rt.alloc(), &mut core, 11, 4)?;
    assert!(&rt; tally.drops > 5);
    assert!(&rt; tally.none > 50);
    Ok(())
}

// On a wheel each kind of move gives plans.
#[test]
fn all_moves_on_a_wheel(rt: HostRuntime) -> Result<(), Fail> {
    let mut core = core_of(&rt, rt.alloc(), &WHEEL)?;
    turn_wheel(&mut core)?;
    let tally = walk(&rt, rt.alloc(), &mut core, 7, 3)?;
    assert!(&rt; tally.drops > 5);
    assert!(&rt; tally.swaps > 5);
    assert!(&rt; tally.trades > 5);
    assert!(&rt; tally.flip_swaps > 5);
    assert!(&rt; tally.flips > 5);
    Ok(())
}
