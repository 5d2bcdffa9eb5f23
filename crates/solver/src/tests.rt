// Runs on small instances, worked out by hand and held against the plain slow program.
use crate::{Search, Solved, solve};
use cost_defs::Costs;
use mcp_outside::OpenGate;
use partition_defs::is_convex_partition_plain;
use plane::{Point, Points};
use std::alloc::Global;
use std::process::Abort;
use std::test::Fail;

// The points, and how many segments the start has, how many commits the journal, and the bound.
type Case = (&'static [(i64, i64)], usize, usize, u64);

const CASES: [Case; 4] = [
    (&[(0, 0), (0, 4), (4, 0), (4, 4)], 5, 1, 4),
    (&[(0, 0), (0, 4), (4, 0), (4, 4), (2, 2)], 8, 2, 6),
    (&[(0, 0), (6, 0), (0, 6), (2, 1)], 6, 0, 6),
    (&[(0, 0), (2, 0), (4, 0), (0, 4)], 5, 1, 4),
];

fn make(rt: &impl Abort, alloc: Global, list: &[(i64, i64)]) -> Result<Points, Fail> {
    let mut points = Vec::new(alloc);
    for (x, y) in list {
        points.push(Point { x: *x, y: *y })?;
    }
    assert!(rt; points.len() < 5001);
    Ok(Points::make(points)?)
}

// The solution is a convex partition, and without any of its segments it is none.
fn hold_against_plain(rt: &impl Abort, alloc: Global, run: &Solved) -> Result<(), Fail> {
    assert!(rt; is_convex_partition_plain(&run.points, &run.kept));
    for e in &run.kept {
        let mut fewer = Vec::new(alloc);
        for f in &run.kept {
            if f != e {
                fewer.push(*f)?;
            }
        }
        assert!(rt; !is_convex_partition_plain(&run.points, &fewer));
    }
    Ok(())
}

#[test]
fn runs_of_small_instances(rt: HostRuntime) -> Result<(), Fail> {
    for (list, start, commits, bound) in CASES {
        for workers in [0, 2] {
            let points = make(&rt, rt.alloc(), list)?;
            let search = Search {
                workers,
                rounds: 3,
                seed: 7,
            };
            let run = solve(
                &rt,
                rt.alloc(),
                points,
                &Costs::unit(),
                0,
                search,
                &OpenGate,
            )?;
            assert_eq!(rt; run.start.len(), start, "of {list:?}");
            assert_eq!(rt; run.journal.len(), commits, "of {list:?}");
            assert_eq!(rt; run.kept.len(), start - commits, "of {list:?}");
            assert_eq!(rt; run.bound, bound, "of {list:?}");
            hold_against_plain(&rt, rt.alloc(), &run)?;
        }
    }
    Ok(())
}

// Beside edit workers the bound is the same, and the solution is no dearer than without them.
#[test]
fn runs_with_edit_workers(rt: HostRuntime) -> Result<(), Fail> {
    for (list, start, commits, bound) in CASES {
        for edit_workers in [1, 3] {
            let points = make(&rt, rt.alloc(), list)?;
            let search = Search {
                workers: 2,
                rounds: 3,
                seed: 7,
            };
            let run = solve(
                &rt,
                rt.alloc(),
                points,
                &Costs::unit(),
                edit_workers,
                search,
                &OpenGate,
            )?;
            assert!(rt;
                run.kept.len() <= start.saturating_sub(commits),
                "of {list:?}"
            );
            assert_eq!(rt; run.bound, bound, "of {list:?}");
            hold_against_plain(&rt, rt.alloc(), &run)?;
        }
    }
    Ok(())
}
