// Random lists of steps, legal and not, of two callers: the weave's answers and its core are the plain program's.
use super::making::{GRID, append, back, core_of, pair, take, told};
use super::plain::{Plain, are_alike};
use journal_defs::{Edit, replay};
use plane::Pair;
use replay::Core;
use std::alloc::Global;
use std::process::Abort;
use std::test::Fail;
use weave::{Step, StepAnswer};

// The next number of a linear congruence.
fn next(seed: u64) -> u64 {
    (seed % 0x8000_0000 * 1_103_515_245 + 12_345) % 0x8000_0000
}

// A number below a bound from it.
fn below(seed: u64, bound: u32) -> u32 {
    if bound == 0 {
        0
    } else {
        ((seed / 1024) % bound as u64) as u32
    }
}

// The pairs of the grid that may come and go, and two that may not.
const PAIRS: [(u32, u32); 8] = [
    (1, 3),
    (0, 4),
    (1, 4),
    (2, 4),
    (1, 5),
    (0, 1),
    (2, 3),
    (1, 3),
];

fn any_pair(seed: u64) -> Pair {
    let (i, j) = PAIRS[(seed / 1024 % 8) as usize];
    pair(i, j)
}

fn any_edit(seed: u64) -> Edit {
    let e = any_pair(seed);
    let second = next(seed);
    let kind = below(second, 4);
    if kind == 0 {
        let to = any_pair(next(second));
        Edit::Flip { from: e, to }
    } else if kind == 1 {
        Edit::Keep(e)
    } else {
        Edit::Drop(e)
    }
}

fn any_step(seed: u64, count: u32) -> Step {
    let caller = if below(seed, 2) == 0 { 1 } else { 16 };
    let second = next(seed);
    let place = below(second, count.saturating_add(1));
    let kind = below(next(second), 8);
    if kind < 3 {
        take(caller, place)
    } else if kind < 4 {
        back(caller, place)
    } else {
        append(caller, any_edit(next(next(second))))
    }
}

// The core is that of the plain program, and the replay of its journal.
fn compare_core(rt: &impl Abort, alloc: Global, core: &Core, plain: &Plain) -> Result<(), Fail> {
    assert_eq!(rt; core.journal().len() as u64, plain.commits);
    let kept = core.kept()?;
    assert!(rt; kept.as_slice() == plain.state.kept());
    let again = replay(alloc, core.start(), core.journal())?;
    assert!(rt; again.all() == plain.state.all());
    assert!(rt; again.kept() == plain.state.kept());
    Ok(())
}

// Answers a list of random steps, and says how many were commits.
fn compare_steps(rt: &impl Abort, alloc: Global, seed: u64) -> Result<u64, Fail> {
    let mut core = core_of(rt, alloc, &GRID)?;
    let mut steps = Vec::new(alloc);
    let mut seed = seed;
    for _ in 0..500 {
        seed = next(next(next(seed)));
        steps.push(any_step(seed, 6))?;
    }
    let answers = told(alloc, &mut core, &steps)?;
    assert_eq!(rt; answers.len(), steps.len());
    let mut plain = Plain::make(alloc, core.points(), core.start())?;
    for (step, answer) in steps.iter().zip(&answers) {
        let wanted = plain.answer(alloc, core.points(), step)?;
        assert!(rt; are_alike(*answer, wanted));
    }
    compare_core(rt, alloc, &core, &plain)?;
    Ok(plain.commits)
}

#[test]
fn random_steps_are_those_of_the_plain_program(rt: HostRuntime) -> Result<(), Fail> {
    let mut commits = 0u64;
    for seed in 1..9 {
        commits = commits.saturating_add(compare_steps(&rt, rt.alloc(), seed)?);
    }
    assert!(&rt; commits > 40);
    Ok(())
}
