// The expected answers are this project's worked ones.
use super::round::{round_of, told};
use crate::{Edit, Why};
use journal_defs::Lists;
use plane::{Pair, Point, Points};
use std::alloc::Global;
use std::process::Abort;
use std::test::Fail;

pub(crate) fn points_of(
    rt: &impl Abort,
    alloc: Global,
    list: &[(i64, i64)],
) -> Result<Points, Fail> {
    let mut points = Vec::new(alloc);
    for (x, y) in list {
        points.push(Point { x: *x, y: *y })?;
    }
    assert!(rt; points.len() < 5001);
    Ok(Points::make(points)?)
}

fn pairs_of(rt: &impl Abort, alloc: Global, list: &[(u32, u32)]) -> Result<Vec<Pair>, Fail> {
    let mut pairs = Vec::new(alloc);
    for (i, j) in list {
        assert!(rt; *i != *j);
        pairs.push(Pair::of(*i, *j))?;
    }
    Ok(pairs)
}

fn pair(rt: &impl Abort, i: u32, j: u32) -> Pair {
    assert!(rt; i != j);
    Pair::of(i, j)
}

struct Case {
    corners: &'static [(i64, i64)],
    all: &'static [(u32, u32)],
    kept: &'static [(u32, u32)],
}

const SQUARE: [(i64, i64); 4] = [(0, 0), (0, 4), (4, 0), (4, 4)];

const SQUARE_ALL: [(u32, u32); 5] = [(0, 1), (0, 2), (1, 2), (1, 3), (2, 3)];

const SQUARE_SIDES: [(u32, u32); 4] = [(0, 1), (0, 2), (1, 3), (2, 3)];

const CENTRED: [(i64, i64); 5] = [(0, 0), (0, 4), (4, 0), (4, 4), (2, 2)];

const CENTRED_ALL: [(u32, u32); 8] = [
    (0, 1),
    (0, 2),
    (0, 4),
    (1, 3),
    (1, 4),
    (2, 3),
    (2, 4),
    (3, 4),
];

const CENTRED_SEVEN: [(u32, u32); 7] = [(0, 1), (0, 2), (1, 3), (1, 4), (2, 3), (2, 4), (3, 4)];

const CENTRED_SIX: [(u32, u32); 6] = [(0, 1), (0, 2), (1, 3), (1, 4), (2, 3), (2, 4)];

const SIDED: [(i64, i64); 4] = [(0, 0), (2, 0), (4, 0), (0, 4)];

const SIDED_ALL: [(u32, u32); 5] = [(0, 1), (0, 3), (1, 2), (1, 3), (2, 3)];

const SIDED_FOUR: [(u32, u32); 4] = [(0, 1), (0, 3), (1, 2), (2, 3)];

// Holds the answers for some edits in one state against the wanted ones.
fn expect_all(
    rt: &impl Abort,
    alloc: Global,
    case: &Case,
    rows: &[(Edit, Result<(), Why>)],
) -> Result<(), Fail> {
    let points = points_of(rt, alloc, case.corners)?;
    let all = pairs_of(rt, alloc, case.all)?;
    let kept = pairs_of(rt, alloc, case.kept)?;
    let round = round_of(alloc, &points, &Lists::make(all, kept))?;
    for (edit, wanted) in rows {
        assert_eq!(rt; told(&points, &round, edit)?, *wanted, "{edit:?}");
    }
    Ok(())
}

#[test]
fn the_worked_answers(rt: HostRuntime) -> Result<(), Fail> {
    let alloc = rt.alloc();
    let flip = |from: Pair, to: Pair| Edit::Flip { from, to };
    expect_all(
        &rt,
        alloc,
        &Case {
            corners: &SQUARE,
            all: &SQUARE_ALL,
            kept: &SQUARE_ALL,
        },
        &[
            (Edit::Drop(pair(&rt, 0, 3)), Err(Why::NotThere)),
            (Edit::Drop(pair(&rt, 0, 1)), Err(Why::Border)),
            (Edit::Keep(pair(&rt, 1, 2)), Err(Why::NotSpare)),
            (flip(pair(&rt, 1, 2), pair(&rt, 0, 3)), Err(Why::NotSpare)),
            (Edit::Drop(pair(&rt, 1, 2)), Ok(())),
        ],
    )?;
    expect_all(
        &rt,
        alloc,
        &Case {
            corners: &SQUARE,
            all: &SQUARE_ALL,
            kept: &SQUARE_SIDES,
        },
        &[
            (Edit::Drop(pair(&rt, 1, 2)), Err(Why::NotKept)),
            (
                flip(pair(&rt, 1, 2), pair(&rt, 0, 1)),
                Err(Why::AlreadyThere),
            ),
            (flip(pair(&rt, 1, 2), pair(&rt, 0, 3)), Ok(())),
            (Edit::Keep(pair(&rt, 1, 2)), Ok(())),
        ],
    )?;
    expect_all(
        &rt,
        alloc,
        &Case {
            corners: &CENTRED,
            all: &CENTRED_ALL,
            kept: &CENTRED_SEVEN,
        },
        &[
            (Edit::Drop(pair(&rt, 1, 4)), Err(Why::Opens(4))),
            (Edit::Drop(pair(&rt, 3, 4)), Ok(())),
            (flip(pair(&rt, 0, 4), pair(&rt, 0, 3)), Err(Why::NotApex(0))),
            (flip(pair(&rt, 0, 4), pair(&rt, 1, 2)), Err(Why::Bent(4))),
        ],
    )?;
    expect_all(
        &rt,
        alloc,
        &Case {
            corners: &CENTRED,
            all: &CENTRED_ALL,
            kept: &CENTRED_SIX,
        },
        &[(Edit::Drop(pair(&rt, 2, 4)), Err(Why::Opens(4)))],
    )?;
    expect_all(
        &rt,
        alloc,
        &Case {
            corners: &SIDED,
            all: &SIDED_ALL,
            kept: &SIDED_FOUR,
        },
        &[(flip(pair(&rt, 1, 3), pair(&rt, 0, 2)), Err(Why::Bent(1)))],
    )
}
