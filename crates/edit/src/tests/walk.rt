// A walk through states by random edits; at each state every edit of every pair is compared with the plain slow program.
ghost use Rattle.edit.specs.Round.{IsRoundFor};

use super::plain::why_not;
use super::round::{Round, round_of, told};
use super::table::points_of;
use crate::{Edit, Why};
use journal_defs::{Lists, after, is_legal, is_within, opening};
use partition_defs::crosses_none;
use plane::{Pair, Points};
use std::alloc::Global;
use std::process::Abort;
use std::test::Fail;

// The next number of a linear congruence.
fn next(seed: u64) -> u64 {
    (seed % 0x8000_0000 * 1_103_515_245 + 12_345) % 0x8000_0000
}

fn all_pairs(rt: &impl Abort, alloc: Global, n: u32) -> Result<Vec<Pair>, Fail> {
    assert!(rt; n < 5001);
    let mut pairs = Vec::new(alloc);
    for k in 0..n * n {
        assert!(rt; n > 0);
        let (i, j) = (k / n, k % n);
        if i < j {
            pairs.push(Pair::of(i, j))?;
        }
    }
    Ok(pairs)
}

// The clear pairs, each unless it crosses one that was taken before: a triangulation.
fn start_of(alloc: Global, points: &Points, pairs: &[Pair]) -> Result<Vec<Pair>, Fail> {
    let mut start = Vec::new(alloc);
    for e in pairs {
        if is_open(points, start.as_slice(), *e)? {
            start.push(*e)?;
        }
    }
    Ok(start)
}

fn is_open(points: &Points, start: &[Pair], e: Pair) -> Result<bool, Fail> {
    if e.hi() >= points.len() || !partition_defs::are_within(points, start) {
        return Err(Fail::from("an end beyond the points"));
    }
    Ok(points.is_clear(e) && crosses_none(points, start, e))
}

// Whether the edit is legal, by the plain program; `fits` says the same, and each refusal of it is that of the plain
// table.
fn compared(
    rt: &impl Abort,
    alloc: Global,
    points: &Points,
    lists: &Lists,
    fast: Result<(), Why>,
    edit: Edit,
) -> Result<bool, Fail> {
    if !is_within(points, lists) {
        return Err(Fail::from("an end beyond the points"));
    }
    let plain = is_legal(alloc, points, lists, edit)?;
    assert_eq!(rt; fast.is_ok(), plain, "{edit:?}");
    assert_eq!(rt;
        fast.err(),
        why_not(alloc, points, lists, edit)?,
        "{edit:?}"
    );
    Ok(plain)
}

// A legal edit that was chosen at random among those that came by.
#[derive(Drop)]
struct Pick {
    edit: Option<Edit>,
    seed: u64,
}

impl Pick {
    fn offer(&mut self, edit: Edit) {
        self.seed = next(self.seed);
        if self.edit.is_none() || self.seed % 8 == 0 {
            self.edit = Some(edit);
        }
    }
}

// Compares one edit.
fn try_edit(
    rt: &impl Abort,
    alloc: Global,
    points: &Points,
    lists: &Lists,
    round: &Round,
    edit: Edit,
    pick: &mut Pick,
) -> Result<(), Fail>
    requires { IsRoundFor points.now round.now }
{
    let fast = told(points, round, &edit)?;
    if compared(rt, alloc, points, lists, fast, edit)? {
        pick.offer(edit);
    }
    Ok(())
}

// Compares the flips of one pair to each other pair.
fn try_flips(
    rt: &impl Abort,
    alloc: Global,
    points: &Points,
    lists: &Lists,
    round: &Round,
    pairs: &[Pair],
    from: Pair,
    pick: &mut Pick,
) -> Result<(), Fail>
    requires { IsRoundFor points.now round.now }
{
    for to in pairs {
        let edit = Edit::Flip { from, to: *to };
        try_edit(rt, alloc, points, lists, round, edit, pick)?;
    }
    Ok(())
}

// Compares every edit of every pair, and answers a legal one.
fn try_all(
    rt: &impl Abort,
    alloc: Global,
    points: &Points,
    lists: &Lists,
    pairs: &[Pair],
    seed: u64,
) -> Result<Option<Edit>, Fail> {
    let round = round_of(alloc, points, lists)?;
    let mut pick = Pick { edit: None, seed };
    for e in pairs {
        try_edit(rt, alloc, points, lists, &round, Edit::Drop(*e), &mut pick)?;
        try_edit(rt, alloc, points, lists, &round, Edit::Keep(*e), &mut pick)?;
        try_flips(rt, alloc, points, lists, &round, pairs, *e, &mut pick)?;
    }
    Ok(pick.edit)
}

fn walk(
    rt: &impl Abort,
    alloc: Global,
    corners: &[(i64, i64)],
    steps: u32,
    first: u64,
) -> Result<(), Fail> {
    let points = points_of(rt, alloc, corners)?;
    let pairs = all_pairs(rt, alloc, points.len())?;
    let start = start_of(alloc, &points, pairs.as_slice())?;
    let mut lists = opening(alloc, start.as_slice())?;
    let mut seed = first;
    for _ in 0..steps {
        seed = next(seed);
        if let Some(edit) = try_all(rt, alloc, &points, &lists, pairs.as_slice(), seed)? {
            lists = after(alloc, edit, &lists)?;
        }
    }
    Ok(())
}

const GRID: [(i64, i64); 12] = [
    (0, 0),
    (10, 0),
    (20, 0),
    (30, 0),
    (0, 10),
    (10, 10),
    (20, 10),
    (30, 10),
    (0, 20),
    (10, 20),
    (20, 20),
    (30, 20),
];

// Points inside the sides of a triangle, in line with others, and one strictly inside.
const SIDED: [(i64, i64); 9] = [
    (0, 0),
    (2, 0),
    (4, 0),
    (6, 0),
    (0, 2),
    (0, 6),
    (3, 3),
    (2, 2),
    (1, 1),
];

const SCATTER: [(i64, i64); 11] = [
    (12, 7),
    (3, 41),
    (25, 30),
    (40, 11),
    (33, 37),
    (8, 19),
    (21, 14),
    (17, 26),
    (29, 21),
    (5, 5),
    (38, 28),
];

#[test]
fn fits_is_legality_on_a_grid(rt: HostRuntime) -> Result<(), Fail> {
    walk(&rt, rt.alloc(), &GRID, 100, 1)
}

#[test]
fn fits_is_legality_with_points_on_sides(rt: HostRuntime) -> Result<(), Fail> {
    walk(&rt, rt.alloc(), &SIDED, 100, 2)
}

#[test]
fn fits_is_legality_on_a_scatter(rt: HostRuntime) -> Result<(), Fail> {
    walk(&rt, rt.alloc(), &SCATTER, 100, 3)
}
