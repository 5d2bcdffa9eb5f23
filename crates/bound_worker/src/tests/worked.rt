// Certificates that were worked out by hand.
use super::instances::{points_of, raised_floor};
use crate::{Costs, price};
use price_defs::Row;
use std::alloc::Global;
use std::process::Abort;
use std::test::Fail;

// Each seed at an end of its range or within, with each stream that the solver uses, and others.
fn gives(
    rt: &impl Abort,
    alloc: Global,
    list: &[(i64, i64)],
    rounds: u32,
    wanted: (u64, &[Row]),
) -> Result<(), Fail> {
    let points = points_of(rt, alloc, list)?;
    let costs = Costs::unit();
    for seed in [0, 1, 4_294_967_296, u64::MAX] {
        for stream in [0, 1, 101, 102, 116, u64::MAX] {
            let start = raised_floor(alloc, &points, &costs)?;
            let found = price(alloc, &points, &costs, &start, rounds, seed, stream)?;
            assert_eq!(rt; found.q, wanted.0);
            assert_eq!(rt;
                found.rows.as_slice(),
                wanted.1,
                "seed {seed}, stream {stream}"
            );
        }
    }
    Ok(())
}

#[test]
fn a_square_with_its_centre(rt: HostRuntime) -> Result<(), Fail> {
    let square = [(0, 0), (0, 4), (4, 0), (4, 4), (2, 2)];
    let raised = [
        Row::Half { p: 4, q: 0, w: 2 },
        Row::Half { p: 4, q: 3, w: 2 },
    ];
    let scaled = [
        Row::Half { p: 4, q: 0, w: 120 },
        Row::Half { p: 4, q: 3, w: 120 },
    ];
    gives(&rt, rt.alloc(), &square, 0, (2, &raised))?;
    gives(&rt, rt.alloc(), &square, 3, (120, &scaled))
}

#[test]
fn a_triangle_with_a_point_inside(rt: HostRuntime) -> Result<(), Fail> {
    let triangle = [(0, 0), (6, 0), (0, 6), (2, 1)];
    gives(
        &rt,
        rt.alloc(),
        &triangle,
        0,
        (2, &[Row::Three { p: 3, w: 2 }]),
    )?;
    gives(
        &rt,
        rt.alloc(),
        &triangle,
        3,
        (120, &[Row::Three { p: 3, w: 120 }]),
    )
}

#[test]
fn no_inner_point(rt: HostRuntime) -> Result<(), Fail> {
    gives(&rt, rt.alloc(), &[(0, 0), (1, 1), (2, 4)], 3, (2, &[]))?;
    gives(
        &rt,
        rt.alloc(),
        &[(0, 0), (0, 4), (4, 0), (4, 4)],
        1_000,
        (2, &[]),
    )
}
