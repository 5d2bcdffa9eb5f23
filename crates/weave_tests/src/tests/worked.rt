// The expected answers are this project's worked ones.
use super::making::{SQUARE, append, back, core_of, pair, take, told};
use journal_defs::{Edit, Why};
use std::test::Fail;
use weave::StepAnswer;

#[test]
fn two_callers_at_a_square(rt: HostRuntime) -> Result<(), Fail> {
    let alloc = rt.alloc();
    let mut core = core_of(&rt, alloc, &SQUARE)?;
    let across = pair(1, 2);
    let steps = [
        take(1, 1),
        take(1, 2),
        take(1, 4),
        take(2, 1),
        append(1, Edit::Drop(across)),
        back(1, 1),
        back(1, 2),
        back(1, 4),
        take(2, 1),
        take(2, 4),
        append(2, Edit::Keep(across)),
        back(1, 1),
        take(2, 2),
        append(2, Edit::Drop(across)),
        append(2, Edit::Keep(across)),
        back(2, 4),
        append(2, Edit::Drop(across)),
        take(2, 2),
    ];
    let wanted = [
        StepAnswer::Won,
        StepAnswer::Won,
        StepAnswer::Won,
        StepAnswer::Held(1),
        StepAnswer::Commit(1),
        StepAnswer::Returned,
        StepAnswer::Returned,
        StepAnswer::Returned,
        StepAnswer::Won,
        StepAnswer::Won,
        StepAnswer::NotOwned(2),
        StepAnswer::NotOwned(1),
        StepAnswer::Won,
        StepAnswer::Illegal {
            at: 0,
            why: Why::NotKept,
        },
        StepAnswer::Commit(2),
        StepAnswer::Returned,
        StepAnswer::NotOwned(4),
        StepAnswer::Held(2),
    ];
    let answers = told(alloc, &mut core, &steps[..11])?;
    assert!(&rt; answers.as_slice() == &wanted[..11]);
    assert_eq!(&rt; (core.journal().len(), core.kept()?.len()), (1, 4));
    let mut core = core_of(&rt, alloc, &SQUARE)?;
    let answers = told(alloc, &mut core, &steps)?;
    assert!(&rt; answers.as_slice() == &wanted[..]);
    assert_eq!(&rt;
        (core.count(1), core.count(2), core.kept()?.len()),
        (1, 1, 5)
    );
    Ok(())
}
