// Reports of several edit workers: valid, and what is fixed of them.
use super::{commits_of, cost_of, line_of, reversed, told};
use solver_top::Status;
use std::alloc::Global;
use std::process::Abort;
use std::test::Fail;
use std::thread::Threads;

// The numbers of a line: edit workers, bound workers, rounds and the seed.
type Numbers = (usize, u32, u32, u64);

// How an instance is made, and the numbers.
const MADE: [(&str, Numbers); 7] = [
    ("gen scatter 40 3", (2, 1, 20, 7)),
    ("gen grid 30 0", (3, 0, 20, 1)),
    ("gen ring 12 1", (5, 2, 10, 9)),
    ("gen wide 30 2", (16, 3, 5, 18446744073709551615)),
    ("gen scatter 3 1", (16, 16, 1000, 18446744073709551615)),
    ("gen scatter 60 1", (8, 0, 40, 0)),
    ("gen scatter 60 2", (16, 0, 0, 7)),
];

const COSTED: [(&str, Numbers); 2] = [
    (
        r#"{"costs":[[0,3,0],[1,4,3],[2,5,7]],"name":"c","points":[{"x":0,"y":0},{"x":0,"y":4},{"x":4,"y":0},{"x":4,"y":4},{"x":2,"y":2},{"x":1,"y":2}]}"#,
        (4, 2, 30, 5),
    ),
    (
        r#"{"costs":[[1,2,1000]],"name":"sq","points":[{"x":0,"y":0},{"x":0,"y":4},{"x":4,"y":0},{"x":4,"y":4}]}"#,
        (16, 1, 30, 5),
    ),
];

// A run beside one without edit workers: its report is valid and no dearer; the instance, the certificate, the start and the
// commits of the first sweep are the same; and each caller has its count.
fn hold<R: Threads + Sync + Abort>(
    rt: &R,
    alloc: Global,
    input: &str,
    (edit_workers, bound_workers, rounds, seed): Numbers,
) -> Result<(), Fail> {
    let line = format!(in alloc; "solve {edit_workers} {bound_workers} {rounds} {seed}")?;
    let (status, report) = told(rt, alloc, &line, input)?;
    assert_eq!(rt; status, Status::Done, "{line}");
    let lone = format!(in alloc; "solve 0 {bound_workers} {rounds} {seed}")?;
    let (_, alone) = told(rt, alloc, &lone, input)?;
    assert!(rt;
        cost_of(rt, alloc, &report)? <= cost_of(rt, alloc, &alone)?,
        "{line}"
    );
    assert_eq!(rt; line_of(&report, 0), line_of(&alone, 0), "{line}");
    assert_eq!(rt; line_of(&report, 2), line_of(&alone, 2), "{line}");
    let (commits, start) = line_of(&alone, 3)
        .split_once("],\"start\"")
        .unwrap_or(("", ""));
    let (further, same) = line_of(&report, 3)
        .split_once("],\"start\"")
        .unwrap_or(("", ""));
    assert_eq!(rt; same, start, "{line}");
    assert!(rt; further.starts_with(commits), "{line}");
    let counts = commits_of(alloc, &report)?;
    assert_eq!(rt; counts.iter().skip(1).count(), edit_workers, "{line}");
    Ok(())
}

#[test]
fn edit_workers_write_valid_reports(rt: HostRuntime) -> Result<(), Fail> {
    for (made, numbers) in MADE {
        let (_, input) = told(&rt, rt.alloc(), made, "")?;
        hold(&rt, rt.alloc(), &input, numbers)?;
    }
    Ok(())
}

#[test]
fn edit_workers_count_costs(rt: HostRuntime) -> Result<(), Fail> {
    for (input, numbers) in COSTED {
        hold(&rt, rt.alloc(), input, numbers)?;
    }
    Ok(())
}

// 100 points in reverse order, and the same line twice.
#[test]
fn edit_and_bound_workers_solve_a_hundred_points(rt: HostRuntime) -> Result<(), Fail> {
    let input = reversed(&rt, rt.alloc())?;
    for _ in 0..2 {
        hold(&rt, rt.alloc(), &input, (4, 2, 50, 7))?;
    }
    Ok(())
}
