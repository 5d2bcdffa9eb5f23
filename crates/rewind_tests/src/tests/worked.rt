// The expected answers are this project's worked ones.
use super::making::{GRID, SQUARE, committed, core_of, kept_at, pair, undone};
use journal_defs::{Edit, Why};
use plane::Pair;
use replay::Core;
use rewind::{UndoFault, inverse};
use std::alloc::Global;
use std::process::Abort;
use std::test::Fail;

fn expect_commit(
    rt: &impl Abort,
    core: &mut Core,
    caller: u32,
    edits: &[Edit],
    number: u64,
) -> Result<(), Fail> {
    let answer = committed(core, caller, edits)?;
    assert!(rt; answer == Ok(number));
    Ok(())
}

fn expect_undo(
    rt: &impl Abort,
    core: &mut Core,
    caller: u32,
    number: u64,
    wanted: Result<u64, UndoFault>,
) -> Result<(), Fail> {
    let answer = undone(core, caller, number)?;
    assert!(rt; answer == wanted, "number {number}");
    Ok(())
}

fn expect_kept(
    rt: &impl Abort,
    alloc: Global,
    core: &Core,
    k: u64,
    wanted: &[(u32, u32)],
) -> Result<(), Fail> {
    let kept = kept_at(alloc, core, k)?;
    assert!(rt; kept.len() == wanted.len(), "after {k}");
    for (e, f) in kept.iter().zip(wanted) {
        assert!(rt; e.lo() == f.0 && e.hi() == f.1, "after {k}");
    }
    Ok(())
}

#[test]
fn inverses_of_each_kind(rt: HostRuntime) -> Result<(), Fail> {
    let (e, f) = (pair(1, 2), pair(0, 3));
    let rows = [
        (Edit::Drop(e), Edit::Keep(e)),
        (Edit::Keep(e), Edit::Drop(e)),
        (Edit::Flip { from: e, to: f }, Edit::Flip { from: f, to: e }),
    ];
    for (edit, wanted) in rows {
        assert!(&rt; inverse(&edit) == wanted);
    }
    Ok(())
}

#[test]
fn a_drop_is_undone_once(rt: HostRuntime) -> Result<(), Fail> {
    let alloc = rt.alloc();
    let mut core = core_of(&rt, alloc, &SQUARE)?;
    expect_commit(&rt, &mut core, 0, &[Edit::Drop(pair(1, 2))], 1)?;
    let rows = [
        (9, Err(UndoFault::NoSuch { length: 1 })),
        (0, Err(UndoFault::NoSuch { length: 1 })),
        (2, Err(UndoFault::NoSuch { length: 1 })),
        (1, Ok(2)),
        (
            1,
            Err(UndoFault::Illegal {
                at: 0,
                why: Why::NotSpare,
            }),
        ),
        (9, Err(UndoFault::NoSuch { length: 2 })),
        (2, Ok(3)),
        (3, Ok(4)),
    ];
    for (number, wanted) in rows {
        expect_undo(&rt, &mut core, 16, number, wanted)?;
    }
    assert!(&rt; core.count(0) == 1 && core.count(16) == 3);
    let full = [(0, 1), (0, 2), (1, 2), (1, 3), (2, 3)];
    expect_kept(&rt, alloc, &core, 0, &full)?;
    expect_kept(&rt, alloc, &core, 1, &[(0, 1), (0, 2), (1, 3), (2, 3)])?;
    expect_kept(&rt, alloc, &core, 4, &full)
}

// The diagonal of a square is dropped, flipped and kept in one commit: its inverse drops, flips back and keeps.
#[test]
fn a_flip_is_undone(rt: HostRuntime) -> Result<(), Fail> {
    let alloc = rt.alloc();
    let mut core = core_of(&rt, alloc, &SQUARE)?;
    let (from, to) = (pair(1, 2), pair(0, 3));
    let edits = [Edit::Drop(from), Edit::Flip { from, to }, Edit::Keep(to)];
    let full = [(0, 1), (0, 2), (1, 2), (1, 3), (2, 3)];
    expect_commit(&rt, &mut core, 1, &edits, 1)?;
    expect_kept(
        &rt,
        alloc,
        &core,
        1,
        &[(0, 1), (0, 2), (0, 3), (1, 3), (2, 3)],
    )?;
    expect_kept(&rt, alloc, &core, 0, &full)?;
    expect_undo(&rt, &mut core, 1, 1, Ok(2))?;
    expect_back(&rt, &core, from, to)?;
    expect_kept(&rt, alloc, &core, 2, &full)?;
    expect_undo(&rt, &mut core, 1, 2, Ok(3))?;
    let wanted = Err(UndoFault::Illegal {
        at: 0,
        why: Why::NotThere,
    });
    expect_undo(&rt, &mut core, 1, 2, wanted)
}

// The second commit is the inverse of the first.
fn expect_back(rt: &impl Abort, core: &Core, from: Pair, to: Pair) -> Result<(), Fail> {
    let back = [
        Edit::Drop(to),
        Edit::Flip { from: to, to: from },
        Edit::Keep(from),
    ];
    match core.journal().get(1) {
        Some(commit) => {
            assert!(rt; commit.edits.as_slice() == &back[..]);
            Ok(())
        }
        None => Err(Fail::from("no second commit")),
    }
}

// An earlier commit can be undone too, where what came later leaves its edits legal.
#[test]
fn an_earlier_commit_is_undone(rt: HostRuntime) -> Result<(), Fail> {
    let alloc = rt.alloc();
    let mut core = core_of(&rt, alloc, &GRID)?;
    expect_commit(&rt, &mut core, 2, &[Edit::Drop(pair(1, 3))], 1)?;
    expect_commit(&rt, &mut core, 3, &[Edit::Drop(pair(2, 4))], 2)?;
    expect_undo(&rt, &mut core, 2, 1, Ok(3))?;
    let full = [
        (0, 1),
        (0, 3),
        (1, 2),
        (1, 3),
        (1, 4),
        (2, 4),
        (2, 5),
        (3, 4),
        (4, 5),
    ];
    expect_kept(&rt, alloc, &core, 0, &full)?;
    let wanted = [
        (0, 1),
        (0, 3),
        (1, 2),
        (1, 3),
        (1, 4),
        (2, 5),
        (3, 4),
        (4, 5),
    ];
    expect_kept(&rt, alloc, &core, 3, &wanted)
}
