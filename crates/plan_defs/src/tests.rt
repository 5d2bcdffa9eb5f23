// The worked plans of a small grid, by the plain slow program.
use super::*;
use cost_defs::Costs;
use journal_defs::{Edit, Lists, is_within};
use plane::{Pair, Point, Points};
use std::alloc::Global;
use std::process::Abort;
use std::test::Fail;

fn grid(rt: &impl Abort, alloc: Global) -> Result<Points, Fail> {
    let mut list = Vec::new(alloc);
    for (x, y) in [(0, 0), (10, 0), (20, 0), (0, 10), (10, 10), (20, 10)] {
        list.push(Point { x, y })?;
    }
    assert!(rt; list.len() < 10);
    Points::make(list).map_err(|_| Fail::from("bad points"))
}

fn pairs_of(rt: &impl Abort, alloc: Global, ends: &[(u32, u32)]) -> Result<Vec<Pair>, Fail> {
    let mut pairs = Vec::new(alloc);
    for (i, j) in ends {
        assert!(rt; *i != *j);
        pairs.push(Pair::of(*i, *j))?;
    }
    Ok(pairs)
}

// The grid after the drop of 1-3.
fn state(rt: &impl Abort, alloc: Global) -> Result<Lists, Fail> {
    let all = [
        (0, 1),
        (0, 3),
        (1, 2),
        (1, 3),
        (1, 4),
        (2, 4),
        (2, 5),
        (3, 4),
        (4, 5),
    ];
    let kept = [
        (0, 1),
        (0, 3),
        (1, 2),
        (1, 4),
        (2, 4),
        (2, 5),
        (3, 4),
        (4, 5),
    ];
    Ok(Lists::make(pairs_of(rt, alloc, &all)?, pairs_of(rt, alloc, &kept)?))
}

// Costs with one dear pair.
fn dear(rt: &impl Abort, alloc: Global) -> Result<Costs, Fail> {
    let mut list = Vec::new(alloc);
    list.push((Pair::of(1, 3), 2))?;
    assert!(rt; cost_defs::are_costs(list.as_slice()));
    Ok(Costs::make(list))
}

fn is_fine(
    rt: &impl Abort,
    alloc: Global,
    points: &Points,
    costs: &Costs,
    lists: &Lists,
    looked: &[u32],
    edits: &[Edit],
) -> Result<bool, Fail> {
    if !is_within(points, lists) {
        return Err(Fail::from("a segment of no points"));
    }
    assert!(rt; edits.len() < 9);
    Ok(are_fine(alloc, points, costs, lists, looked, edits)?)
}

#[test]
fn edits_of_a_grid_are_fine_where_they_fit(rt: HostRuntime) -> Result<(), Fail> {
    let points = grid(&rt, rt.alloc())?;
    let lists = state(&rt, rt.alloc())?;
    let unit = Costs::unit();
    let dear = dear(&rt, rt.alloc())?;
    let keep = Edit::Keep(Pair::of(1, 3));
    let flip = Edit::Flip {
        from: Pair::of(1, 3),
        to: Pair::of(0, 4),
    };
    let again = Edit::Keep(Pair::of(0, 4));
    let four: &[u32] = &[0, 1, 3, 4];
    let three: &[u32] = &[0, 1, 3];
    let swap: &[Edit] = &[keep, Edit::Drop(Pair::of(1, 4))];
    let turn: &[Edit] = &[flip, again, Edit::Drop(Pair::of(1, 4))];
    let rows = [
        (&unit, four, &[Edit::Drop(Pair::of(1, 3))] as &[Edit], false),
        (&unit, four, swap, true),
        (&unit, three, swap, false),
        (&dear, four, swap, false),
        (&unit, four, &[flip] as &[Edit], true),
        (&unit, three, &[flip] as &[Edit], false),
        (&dear, four, turn, true),
    ];
    for (costs, looked, edits, wanted) in rows {
        let fine = is_fine(&rt, rt.alloc(), &points, costs, &lists, looked, edits)?;
        assert_eq!(rt; fine, wanted);
    }
    Ok(())
}
