// The expected answers are this project's worked ones.
use super::making::{core_of, pair, swept, told};
use edit::Why;
use journal_defs::Edit;
use replay::{ApplyFault, Core};
use std::alloc::Global;
use std::process::Abort;
use std::test::Fail;

const SQUARE: [(i64, i64); 4] = [(0, 0), (0, 4), (4, 0), (4, 4)];

const CENTRED: [(i64, i64); 5] = [(0, 0), (0, 4), (4, 0), (4, 4), (2, 2)];

const SIDED: [(i64, i64); 4] = [(0, 0), (2, 0), (4, 0), (0, 4)];

// An edit by the ends of its pairs.
#[derive(Clone, Copy)]
enum Planned {
    Drop(u32, u32),
    Keep(u32, u32),
    Flip(u32, u32, u32, u32),
}

// A commit and its answer.
#[derive(Clone, Copy)]
struct Step<'a> {
    caller: u32,
    seq: u32,
    edits: &'a [Planned],
    answer: Result<u64, ApplyFault>,
}

fn commit_by(
    caller: u32,
    seq: u32,
    edits: &[Planned],
    answer: Result<u64, ApplyFault>,
) -> Step<'_> {
    Step {
        caller,
        seq,
        edits,
        answer,
    }
}

fn refused(at: u32, why: Why) -> Result<u64, ApplyFault> {
    Err(ApplyFault::Illegal { at, why })
}

fn edit_of(rt: &impl Abort, planned: &Planned) -> Edit {
    match *planned {
        Planned::Drop(i, j) => Edit::Drop(pair(rt, i, j)),
        Planned::Keep(i, j) => Edit::Keep(pair(rt, i, j)),
        Planned::Flip(i, j, k, l) => Edit::Flip {
            from: pair(rt, i, j),
            to: pair(rt, k, l),
        },
    }
}

fn edits_of(rt: &impl Abort, alloc: Global, planned: &[Planned]) -> Result<Vec<Edit>, Fail> {
    let mut edits = Vec::new(alloc);
    for one in planned {
        edits.push(edit_of(rt, one))?;
    }
    Ok(edits)
}

fn expect_answers(
    rt: &impl Abort,
    alloc: Global,
    core: &mut Core,
    steps: &[Step<'_>],
) -> Result<(), Fail> {
    for (k, step) in steps.iter().enumerate() {
        let edits = edits_of(rt, alloc, step.edits)?;
        let answer = told(core, step.caller, step.seq, edits.as_slice())?;
        assert_eq!(rt; answer, step.answer, "step {k}");
    }
    Ok(())
}

fn expect_kept(rt: &impl Abort, core: &Core, wanted: &[(u32, u32)]) -> Result<(), Fail> {
    let kept = core.kept()?;
    assert_eq!(rt; kept.len(), wanted.len());
    for (e, f) in kept.iter().zip(wanted) {
        assert_eq!(rt; (e.lo(), e.hi()), *f);
    }
    Ok(())
}

#[test]
fn commits_of_a_square(rt: HostRuntime) -> Result<(), Fail> {
    use Planned::{Drop, Flip, Keep};
    let mut core = core_of(&rt, rt.alloc(), &SQUARE)?;
    let steps = [
        commit_by(0, 2, &[Drop(1, 2)], Err(ApplyFault::WrongSeq { wanted: 1 })),
        commit_by(0, 1, &[Drop(0, 3)], refused(0, Why::NotThere)),
        commit_by(0, 1, &[Drop(0, 1)], refused(0, Why::Border)),
        commit_by(0, 1, &[Keep(1, 2)], refused(0, Why::NotSpare)),
        commit_by(0, 1, &[Flip(1, 2, 0, 3)], refused(0, Why::NotSpare)),
        commit_by(0, 1, &[Drop(1, 2)], Ok(1)),
        commit_by(0, 2, &[Drop(1, 2)], refused(0, Why::NotKept)),
        commit_by(0, 2, &[Flip(1, 2, 0, 1)], refused(0, Why::AlreadyThere)),
    ];
    expect_answers(&rt, rt.alloc(), &mut core, &steps)?;
    expect_kept(&rt, &core, &[(0, 1), (0, 2), (1, 3), (2, 3)])?;
    let flipped = [commit_by(16, 1, &[Flip(1, 2, 0, 3), Keep(0, 3)], Ok(2))];
    expect_answers(&rt, rt.alloc(), &mut core, &flipped)?;
    expect_kept(&rt, &core, &[(0, 1), (0, 2), (0, 3), (1, 3), (2, 3)])?;
    assert_eq!(&rt; (core.count(0), core.count(16), core.count(17)), (1, 1, 0));
    assert_eq!(&rt; core.start().len(), 5);
    Ok(())
}

#[test]
fn edits_before_a_refusal_are_undone(rt: HostRuntime) -> Result<(), Fail> {
    use Planned::{Drop, Flip, Keep};
    let mut core = core_of(&rt, rt.alloc(), &SQUARE)?;
    let edits = [Drop(1, 2), Flip(1, 2, 0, 3), Keep(0, 3), Drop(0, 1)];
    let undone = [commit_by(3, 1, &edits, refused(3, Why::Border))];
    expect_answers(&rt, rt.alloc(), &mut core, &undone)?;
    expect_kept(&rt, &core, &[(0, 1), (0, 2), (1, 2), (1, 3), (2, 3)])?;
    assert_eq!(&rt; (core.journal().len(), core.count(3)), (0, 0));
    let made = [commit_by(3, 1, &edits[..3], Ok(1))];
    expect_answers(&rt, rt.alloc(), &mut core, &made)
}

#[test]
fn answers_at_a_centre_and_inside_a_side(rt: HostRuntime) -> Result<(), Fail> {
    use Planned::{Drop, Flip};
    let mut core = core_of(&rt, rt.alloc(), &CENTRED)?;
    let steps = [
        commit_by(0, 1, &[Drop(0, 4)], Ok(1)),
        commit_by(0, 2, &[Drop(1, 4)], refused(0, Why::Opens(4))),
        commit_by(0, 2, &[Flip(0, 4, 0, 3)], refused(0, Why::NotApex(0))),
        commit_by(0, 2, &[Flip(0, 4, 1, 2)], refused(0, Why::Bent(4))),
        commit_by(0, 2, &[Drop(3, 4)], Ok(2)),
        commit_by(0, 3, &[Drop(2, 4)], refused(0, Why::Opens(4))),
    ];
    expect_answers(&rt, rt.alloc(), &mut core, &steps)?;
    let mut core = core_of(&rt, rt.alloc(), &SIDED)?;
    let steps = [
        commit_by(0, 1, &[Drop(1, 3)], Ok(1)),
        commit_by(0, 2, &[Flip(1, 3, 0, 2)], refused(0, Why::Bent(1))),
    ];
    expect_answers(&rt, rt.alloc(), &mut core, &steps)
}

// A sweep drops what can go in ascending order; a core that is taken apart and put together goes on from there.
#[test]
fn swept_and_put_together(rt: HostRuntime) -> Result<(), Fail> {
    let mut core = core_of(&rt, rt.alloc(), &CENTRED)?;
    core.room(2)?;
    assert_eq!(&rt; swept(&mut core)?, 2);
    let mut dropped = Vec::new(rt.alloc());
    for commit in core.journal() {
        for edit in commit.edits.as_slice() {
            dropped.push((commit.caller, commit.seq, *edit))?;
        }
    }
    let wanted = [
        (0, 1, Edit::Drop(pair(&rt, 0, 4))),
        (0, 2, Edit::Drop(pair(&rt, 3, 4))),
    ];
    assert!(&rt; dropped.as_slice() == wanted.as_slice());
    expect_kept(
        &rt,
        &core,
        &[(0, 1), (0, 2), (1, 3), (1, 4), (2, 3), (2, 4)],
    )?;
    assert_eq!(&rt; swept(&mut core)?, 0);
    let (points, start, journal, all) = core.into_parts();
    let mut core = Core::from_parts(points, start, journal, all);
    assert_eq!(&rt;
        (core.count(0), core.journal().len(), core.start().len()),
        (2, 2, 8)
    );
    expect_answers(
        &rt,
        rt.alloc(),
        &mut core,
        &[commit_by(1, 1, &[Planned::Keep(3, 4)], Ok(3))],
    )
}
