// Regions of looks of one moment agree, and those of two moments don't where an edit in between changed what they share.
ghost use Rattle.std.specs.Prelude.{◌≡◌, IfOk};

use super::making::{core_of, enter, look_at, put_in};
use edit::Look;
use journal_defs::Edit;
use plane::{Pair, Points};
use planner::{Region, agree};
use replay::Core;
use std::alloc::Global;
use std::process::Abort;
use std::test::Fail;

const GRID: [(i64, i64); 6] = [(0, 0), (10, 0), (20, 0), (0, 10), (10, 10), (20, 10)];

// A look at a vertex, and then edits.
fn look_then(core: &mut Core, v: u32, edits: &[Edit]) -> Result<Look, Fail>
    ensures points { core.new.points ≡ core.old.points }
    ensures look { IfOk result (λ l. l.star.points ≡ core.old.points) }
{
    let look = look_at(core, v)?;
    enter(core, edits)?;
    Ok(look)
}

fn do_looks_agree(points: &Points, early: Look, late: Look) -> Result<bool, Fail>
    requires early { early.star.points ≡ points.now }
    requires late { late.star.points ≡ points.now }
{
    let mut region = Region::make();
    put_in(points, &mut region, early)?;
    put_in(points, &mut region, late)?;
    Ok(agree(points, &region))
}

// Whether a look at one vertex from before the edits agrees with one at another from after them.
fn do_agree(core: &mut Core, before: u32, after: u32, edits: &[Edit]) -> Result<bool, Fail> {
    let early = look_then(core, before, edits)?;
    let late = look_at(core, after)?;
    do_looks_agree(core.points(), early, late)
}

fn grid(rt: &impl Abort, alloc: Global) -> Result<Core, Fail> {
    let mut core = core_of(rt, alloc, &GRID)?;
    enter(&mut core, &[Edit::Drop(Pair::of(2, 4))])?;
    Ok(core)
}

fn expect_row(
    rt: &impl Abort,
    alloc: Global,
    edits: &[Edit],
    row: (u32, u32, bool),
) -> Result<(), Fail> {
    let (before, after, wanted) = row;
    let mut core = grid(rt, alloc)?;
    let found = do_agree(&mut core, before, after, edits)?;
    assert!(rt; found == wanted, "{before} {after}");
    Ok(())
}

fn expect_rows(
    rt: &impl Abort,
    alloc: Global,
    edits: &[Edit],
    rows: &[(u32, u32, bool)],
) -> Result<(), Fail> {
    for row in rows {
        expect_row(rt, alloc, edits, *row)?;
    }
    Ok(())
}

// A pair that both have is kept in one of the two stars alone. What the edit changed isn't shared in the last row.
#[test]
fn looks_before_and_after_a_drop(rt: HostRuntime) -> Result<(), Fail> {
    let rows = [(1, 3, false), (3, 1, false), (0, 1, true)];
    expect_rows(&rt, rt.alloc(), &[Edit::Drop(Pair::of(1, 3))], &rows)
}

// One of the two has the pair alone; then both have each other with the same mark, and see another triangle beside their pair;
// and then what the edits changed isn't shared.
#[test]
fn looks_before_and_after_a_flip(rt: HostRuntime) -> Result<(), Fail> {
    let from = Pair::of(1, 3);
    let to = Pair::of(0, 4);
    let rows = [
        (1, 3, false),
        (3, 1, false),
        (0, 4, false),
        (0, 1, false),
        (1, 4, false),
        (3, 4, false),
        (0, 3, false),
        (1, 2, true),
        (2, 5, true),
        (0, 5, true),
    ];
    expect_rows(
        &rt,
        rt.alloc(),
        &[Edit::Drop(from), Edit::Flip { from, to }],
        &rows,
    )
}
