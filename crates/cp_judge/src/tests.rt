ghost use Rattle.std.specs.Prelude.{◌<◌};

mod plain;

use crate::{Judgement, judge};
use partition_defs::{are_within, is_convex_partition_plain};
use plain::{first_crossing, plain_judgement};
use plane::{Pair, Point, Points};
use std::alloc::Global;
use std::process::Abort;
use std::test::Fail;

fn points_of(rt: &impl Abort, alloc: Global, list: &[(i64, i64)]) -> Result<Points, Fail> {
    let mut points = Vec::new(alloc);
    for (x, y) in list {
        points.push(Point { x: *x, y: *y })?;
    }
    assert!(rt; points.len() < 5001);
    Ok(Points::make(points)?)
}

fn pairs_of(rt: &impl Abort, alloc: Global, list: &[(u32, u32)]) -> Result<Vec<Pair>, Fail> {
    let mut pairs = Vec::new(alloc);
    for (i, j) in list {
        assert!(rt; *i != *j);
        pairs.push(Pair::of(*i, *j))?;
    }
    Ok(pairs)
}

// The judgement on a list, or none where an end is no point.
fn judged(points: &Points, list: &[Pair]) -> Option<Judgement> {
    if list.len() > 100_000 || !are_within(points, list) {
        return None;
    }
    Some(judge(points, list))
}

// The corners of a square, then its centre where it is asked for.
const SQUARE: [(i64, i64); 4] = [(0, 0), (0, 4), (4, 0), (4, 4)];

const CENTRED: [(i64, i64); 5] = [(0, 0), (0, 4), (4, 0), (4, 4), (2, 2)];
// A triangle with a point inside its lower side, and one inside the triangle.
const SIDED: [(i64, i64); 5] = [(0, 0), (2, 0), (4, 0), (0, 4), (1, 1)];

// A triangle with a point inside its left side, which is upright.
const UPRIGHT: [(i64, i64); 4] = [(0, 0), (0, 2), (0, 4), (4, 2)];
// Corners of a hexagon, counterclockwise. 1 and 5 have one x, and 2 and 4.
const HEXAGON: [(i64, i64); 6] = [(0, 3), (2, 0), (6, 1), (8, 4), (6, 7), (2, 6)];

#[test]
fn the_first_violation_is_shown(rt: HostRuntime) -> Result<(), Fail> {
    // Each list of points and of pairs, and its judgement by hand from the definition.
    let cases: [(&[(i64, i64)], &[(u32, u32)], Judgement); 29] = [
        (
            &SQUARE,
            &[(0, 1), (2, 0), (1, 3), (2, 3)],
            Judgement::Convex(4),
        ),
        (
            &SQUARE,
            &[(0, 1), (2, 0), (1, 3), (2, 3), (0, 3)],
            Judgement::Convex(5),
        ),
        (
            &CENTRED,
            &[(0, 1), (0, 2), (1, 3), (2, 3), (0, 4)],
            Judgement::Unmet(4, 0),
        ),
        // A straight angle at the centre is open on neither side once both ways meet it.
        (
            &CENTRED,
            &[(0, 1), (0, 2), (1, 3), (2, 3), (0, 4), (3, 4)],
            Judgement::Convex(6),
        ),
        (
            &CENTRED,
            &[(0, 1), (0, 2), (1, 3), (2, 3), (0, 4), (1, 4)],
            Judgement::Unmet(4, 0),
        ),
        (
            &CENTRED,
            &[(0, 1), (0, 2), (1, 3), (2, 3), (1, 4), (2, 4)],
            Judgement::Convex(6),
        ),
        // A straight angle between two of three ends is no gap.
        (
            &CENTRED,
            &[(0, 1), (0, 2), (1, 3), (2, 3), (0, 4), (1, 4), (3, 4)],
            Judgement::Convex(7),
        ),
        // The least point is shown, which is no end here.
        (
            &CENTRED,
            &[(0, 1), (0, 2), (1, 3), (2, 3), (3, 4)],
            Judgement::Unmet(4, 1),
        ),
        (
            &CENTRED,
            &[(0, 1), (0, 2), (1, 3), (2, 3)],
            Judgement::Unmet(4, 0),
        ),
        (
            &SQUARE,
            &[(0, 1), (0, 2), (1, 3), (2, 3), (0, 3), (1, 2)],
            Judgement::Crossing(Pair::of(0, 3), Pair::of(1, 2)),
        ),
        (
            &CENTRED,
            &[(0, 1), (0, 2), (1, 3), (2, 3), (0, 3)],
            Judgement::NotClear(Pair::of(0, 3), 4),
        ),
        (
            &SQUARE,
            &[(0, 1), (0, 2), (1, 3)],
            Judgement::MissingBorder(Pair::of(2, 3)),
        ),
        (
            &SQUARE,
            &[(2, 3), (1, 3)],
            Judgement::MissingBorder(Pair::of(0, 1)),
        ),
        (&SQUARE, &[], Judgement::MissingBorder(Pair::of(0, 1))),
        (
            &SQUARE,
            &[(0, 1), (0, 2), (1, 3), (2, 3), (1, 0)],
            Judgement::Doubled(Pair::of(0, 1)),
        ),
        (
            &SQUARE,
            &[(0, 2), (0, 1), (1, 0), (2, 0)],
            Judgement::Doubled(Pair::of(0, 1)),
        ),
        // The side with a point inside isn't clear, and its parts are border pairs.
        (
            &SIDED,
            &[(0, 2), (0, 3), (2, 3)],
            Judgement::NotClear(Pair::of(0, 2), 1),
        ),
        (
            &SIDED,
            &[(1, 2), (0, 3), (2, 3)],
            Judgement::MissingBorder(Pair::of(0, 1)),
        ),
        (
            &SIDED,
            &[(0, 1), (1, 2), (0, 3), (2, 3), (0, 4), (2, 4)],
            Judgement::Unmet(4, 2),
        ),
        (
            &SIDED,
            &[(0, 1), (1, 2), (0, 3), (2, 3), (0, 4), (2, 4), (3, 4)],
            Judgement::Convex(7),
        ),
        // Upright pairs on one line.
        (
            &UPRIGHT,
            &[(1, 2), (0, 1), (2, 3), (0, 3)],
            Judgement::Convex(4),
        ),
        (
            &UPRIGHT,
            &[(1, 3), (1, 2), (0, 1), (2, 3), (0, 3)],
            Judgement::Convex(5),
        ),
        (
            &HEXAGON,
            &[(4, 5), (0, 1), (2, 3), (0, 5), (1, 2), (3, 4), (1, 5)],
            Judgement::Convex(7),
        ),
        // The later pair begins further left.
        (
            &HEXAGON,
            &[(2, 4), (0, 3)],
            Judgement::Crossing(Pair::of(2, 4), Pair::of(0, 3)),
        ),
        // 1-5 crosses 0-3 further left, but stands later.
        (
            &HEXAGON,
            &[(2, 4), (1, 5), (0, 3)],
            Judgement::Crossing(Pair::of(2, 4), Pair::of(0, 3)),
        ),
        // 0-2 crosses 1-5 and 1-3 further left, but stands last.
        (
            &HEXAGON,
            &[(2, 4), (1, 3), (1, 5), (0, 2)],
            Judgement::Crossing(Pair::of(2, 4), Pair::of(1, 3)),
        ),
        // 0-2 begins further left than 2-5, and both cross 1-4.
        (
            &HEXAGON,
            &[(3, 4), (1, 4), (2, 5), (0, 2)],
            Judgement::Crossing(Pair::of(1, 4), Pair::of(2, 5)),
        ),
        // 0-1 comes first in order, and 3-4 stands twice first.
        (
            &HEXAGON,
            &[(0, 1), (3, 4), (2, 3), (4, 3), (1, 0)],
            Judgement::Doubled(Pair::of(3, 4)),
        ),
        (
            &HEXAGON,
            &[(2, 3), (4, 5), (0, 1), (3, 4), (0, 5), (1, 2), (2, 3)],
            Judgement::Doubled(Pair::of(2, 3)),
        ),
    ];
    for (corners, list, wanted) in cases {
        let points = points_of(&rt, rt.alloc(), corners)?;
        let pairs = pairs_of(&rt, rt.alloc(), list)?;
        let answer = judged(&points, pairs.as_slice());
        assert_eq!(rt; answer, Some(wanted), "in {list:?}");
    }
    Ok(())
}

// The next number of a simple generator.
fn next(state: u32) -> u32 {
    state.wrapping_mul(1_664_525).wrapping_add(1_013_904_223)
}

// Six points of a small grid, by the seed. Many are in line.
fn scattered(alloc: Global, seed: u32) -> Result<Vec<Point>, Fail> {
    let mut state = seed;
    let mut points = Vec::new(alloc);
    for _ in 0..6 {
        state = next(state);
        let (x, y) = ((state >> 16) % 4, (state >> 24) % 4);
        points.push(Point {
            x: i64::from(x),
            y: i64::from(y),
        })?;
    }
    Ok(points)
}

// Whether a pair is clear and crosses none of the list.
fn fits(points: &Points, list: &[Pair], e: Pair) -> bool {
    let count = points.len();
    if e.hi() >= count || !points.is_clear(e) {
        return false;
    }
    !list.iter().any(|f| f.hi() < count && points.cross(e, *f))
}

// Segments that don't cross, as many as the seed lets in.
fn drawn(points: &Points, alloc: Global, seed: u32, share: u32) -> Result<Vec<Pair>, Fail> {
    let mut state = seed;
    let mut pairs = Vec::new(alloc);
    for i in 0..6u32 {
        for j in i + 1..6 {
            state = next(state);
            let e = Pair::of(i, j);
            if (state >> 20) % 8 < share && fits(points, pairs.as_slice(), e) {
                pairs.push(e)?;
            }
        }
    }
    Ok(pairs)
}

#[test]
fn the_plain_program_agrees(rt: HostRuntime) -> Result<(), Fail> {
    let mut convex = 0u32;
    let mut other = 0u32;
    for seed in 0..60u32 {
        let made = scattered(rt.alloc(), seed)?;
        assert!(rt; made.len() < 5001);
        if let Ok(points) = Points::make(made) {
            let share = if seed % 3 == 0 { 7 } else { 8 };
            let pairs = drawn(&points, rt.alloc(), seed.wrapping_add(99), share)?;
            let answer = judged(&points, pairs.as_slice());
            let plain = is_convex_partition_plain(&points, pairs.as_slice());
            let told = matches!(answer, Some(Judgement::Convex(_)));
            assert_eq!(rt; told, plain, "at {seed}");
            if plain {
                convex = convex.saturating_add(1);
            } else {
                other = other.saturating_add(1);
            }
        }
    }
    assert!(rt; convex > 2);
    assert!(rt; other > 2);
    Ok(())
}

// The pairs that the seed lets in, in no order.
fn mixed(alloc: Global, seed: u32) -> Result<Vec<Pair>, Fail> {
    let mut state = seed;
    let mut pairs = Vec::new(alloc);
    for k in 0..36u32 {
        state = next(state);
        let place = (k * 5 + seed % 36) % 36;
        let (i, j) = (place / 6, place % 6);
        if i < j && (state >> 20) % 8 < seed % 8 {
            pairs.push(Pair::of(i, j))?;
        }
    }
    Ok(pairs)
}

#[test]
fn the_first_crossing_is_shown(rt: HostRuntime) -> Result<(), Fail> {
    let mut crossing = 0u32;
    let mut other = 0u32;
    for seed in 0..200u32 {
        let made = scattered(rt.alloc(), seed)?;
        assert!(rt; made.len() < 5001);
        if let Ok(points) = Points::make(made) {
            let mut pairs = mixed(rt.alloc(), seed)?;
            pairs.retain(|e| e.hi() < points.len() && points.is_clear(*e));
            let plain = first_crossing(&points, pairs.as_slice());
            let answer = judged(&points, pairs.as_slice());
            let shown = answer.filter(|j| matches!(j, Judgement::Crossing(_, _)));
            assert_eq!(rt; shown, plain, "at {seed}");
            if plain.is_some() {
                crossing = crossing.saturating_add(1);
            } else {
                other = other.saturating_add(1);
            }
        }
    }
    assert!(rt; crossing > 20);
    assert!(rt; other > 20);
    Ok(())
}

// A list by the seed: segments that don't cross, the same with a repeat or without the last, or pairs in no order.
fn listed(points: &Points, alloc: Global, seed: u32) -> Result<Vec<Pair>, Fail> {
    if seed % 4 == 3 {
        return mixed(alloc, seed / 4);
    }
    let share = if seed % 8 == 0 { 7 } else { 8 };
    let mut pairs = drawn(points, alloc, seed, share)?;
    if seed % 4 == 1 {
        pairs.pop();
    }
    if seed % 12 == 2 && !pairs.is_empty() {
        pairs.push(pairs[pairs.len() / 2])?;
    }
    Ok(pairs)
}

// Which kind of judgement it is.
fn kind(j: Judgement) -> usize
    ensures { result < 6 }
{
    match j {
        Judgement::Convex(_) => 0,
        Judgement::Doubled(_) => 1,
        Judgement::NotClear(_, _) => 2,
        Judgement::Crossing(_, _) => 3,
        Judgement::MissingBorder(_) => 4,
        Judgement::Unmet(_, _) => 5,
    }
}

#[test]
fn the_old_body_agrees(rt: HostRuntime) -> Result<(), Fail> {
    let mut seen = [0u32; 6];
    for seed in 0..400u32 {
        let made = scattered(rt.alloc(), seed / 4)?;
        assert!(rt; made.len() < 5001);
        if let Ok(points) = Points::make(made) {
            let mut pairs = listed(&points, rt.alloc(), seed)?;
            pairs.retain(|e| e.hi() < points.len() && (seed % 8 != 3 || points.is_clear(*e)));
            let plain = plain_judgement(&points, pairs.as_slice());
            let answer = judged(&points, pairs.as_slice());
            assert_eq!(rt; answer, Some(plain), "at {seed}");
            let k = kind(plain);
            seen[k] = seen[k].saturating_add(1);
        }
    }
    // Each kind comes.
    assert!(rt; seen.iter().all(|n| *n > 3), "{seen:?}");
    Ok(())
}

// As many points as have more pairs than are put in order.
const MANY: u32 = 210;

// So many points of a parabola.
fn parabola(rt: &impl Abort, alloc: Global, count: u32) -> Result<Points, Fail> {
    let mut made = Vec::new(alloc);
    for i in 0..count {
        made.push(Point {
            x: i64::from(i),
            y: i64::from(i.saturating_mul(i)),
        })?;
    }
    assert!(rt; made.len() < 5001);
    Ok(Points::make(made)?)
}

// All pairs of these points, ascending.
fn all_pairs(alloc: Global) -> Result<Vec<Pair>, Fail> {
    let mut pairs = Vec::new(alloc);
    for k in 0..MANY * MANY {
        let (i, j) = (k / MANY, k % MANY);
        if i < j {
            pairs.push(Pair::of(i, j))?;
        }
    }
    Ok(pairs)
}

#[test]
fn a_long_list_is_judged(rt: HostRuntime) -> Result<(), Fail> {
    let points = parabola(&rt, rt.alloc(), MANY)?;
    let mut pairs = all_pairs(rt.alloc())?;
    let first = Judgement::Crossing(Pair::of(0, 2), Pair::of(1, 3));
    assert_eq!(rt; judged(&points, pairs.as_slice()), Some(first));
    pairs.insert(0, Pair::of(0, 1))?;
    let first = Judgement::Doubled(Pair::of(0, 1));
    assert_eq!(rt; judged(&points, pairs.as_slice()), Some(first));
    Ok(())
}

// As many points of a parabola as have ranges that overlap much.
const FAN: u32 = 800;

// The sides of the polygon of these points, and then its diagonals at the first one.
fn fan(alloc: Global) -> Result<Vec<Pair>, Fail> {
    let mut pairs = Vec::new(alloc);
    for k in 1..FAN {
        pairs.push(Pair::of(k - 1, k))?;
    }
    for k in 2..FAN {
        pairs.push(Pair::of(0, k))?;
    }
    Ok(pairs)
}

#[test]
fn a_fan_is_judged_by_blocks(rt: HostRuntime) -> Result<(), Fail> {
    let points = parabola(&rt, rt.alloc(), FAN)?;
    let mut pairs = fan(rt.alloc())?;
    assert_eq!(rt;
        judged(&points, pairs.as_slice()),
        Some(Judgement::Convex(1_597))
    );
    // The last pair crosses all diagonals but the last two, and the first of them stands first.
    pairs.push(Pair::of(1, 797))?;
    let first = Judgement::Crossing(Pair::of(0, 2), Pair::of(1, 797));
    assert_eq!(rt; judged(&points, pairs.as_slice()), Some(first));
    pairs.pop();
    pairs.push(Pair::of(400, 402))?;
    let first = Judgement::Crossing(Pair::of(0, 401), Pair::of(400, 402));
    assert_eq!(rt; judged(&points, pairs.as_slice()), Some(first));
    Ok(())
}

// A grid with so many points on a side, which fills more than one strip.
const SIDE: u32 = 20;

fn grid(rt: &impl Abort, alloc: Global) -> Result<Points, Fail> {
    let mut made = Vec::new(alloc);
    for k in 0..SIDE * SIDE {
        made.push(Point {
            x: i64::from(k / SIDE),
            y: i64::from(k % SIDE),
        })?;
    }
    assert!(rt; made.len() < 5001);
    Ok(Points::make(made)?)
}

// The sides of all squares of the grid.
fn squares(alloc: Global) -> Result<Vec<Pair>, Fail> {
    let mut pairs = Vec::new(alloc);
    for k in 0..SIDE * SIDE {
        if k % SIDE != 0 {
            pairs.push(Pair::of(k - 1, k))?;
        }
        if k >= SIDE {
            pairs.push(Pair::of(k - SIDE, k))?;
        }
    }
    Ok(pairs)
}

#[test]
fn a_grid_is_judged_by_strips(rt: HostRuntime) -> Result<(), Fail> {
    let points = grid(&rt, rt.alloc())?;
    let mut pairs = squares(rt.alloc())?;
    assert_eq!(rt;
        judged(&points, pairs.as_slice()),
        Some(Judgement::Convex(760))
    );
    for (i, j, k) in [
        (0, 2, 1),
        (20, 60, 40),
        (0, 399, 21),
        (19, 380, 38),
        (358, 396, 377),
    ] {
        pairs.push(Pair::of(i, j))?;
        let first = Judgement::NotClear(Pair::of(i, j), k);
        assert_eq!(rt; judged(&points, pairs.as_slice()), Some(first));
        pairs.pop();
    }
    Ok(())
}
