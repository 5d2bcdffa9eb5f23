// Random commits, legal and not, of several callers: the core's answer and its state are those of the plain slow program.
use super::making::{core_of, swept, told};
use journal_defs::{Edit, Lists, first_illegal, is_within, replay};
use plane::{Pair, Points};
use replay::{ApplyFault, Core};
use std::alloc::Global;
use std::process::Abort;
use std::test::Fail;

// The next number of a linear congruence.
fn next(seed: u64) -> u64 {
    (seed % 0x8000_0000 * 1_103_515_245 + 12_345) % 0x8000_0000
}

// A number below a bound from it.
fn below(seed: u64, bound: u32) -> u32 {
    if bound == 0 {
        0
    } else {
        ((seed / 1024) % bound as u64) as u32
    }
}

fn any_pair(seed: u64, count: u32) -> Pair {
    let i = below(seed, count);
    let j = below(next(seed), count);
    if i != j {
        Pair::of(i, j)
    } else if i == 0 {
        Pair::of(0, 1)
    } else {
        Pair::of(0, i)
    }
}

// A pair of the triangulation: a point and one of its neighbours.
fn some_pair(core: &Core, seed: u64) -> Pair {
    let count = core.points().len();
    let v = below(seed, count);
    if v >= count {
        return any_pair(seed, count);
    }
    let star = core.star(v);
    let k = below(next(seed), star.degree());
    if k >= star.degree() {
        return any_pair(seed, count);
    }
    let (w, _) = star.at(k);
    if v == w {
        return any_pair(seed, count);
    }
    Pair::of(v, w)
}

// A flip of the pair to the pair of its apexes, where it has two.
fn flip_of(core: &Core, from: Pair) -> Option<Edit> {
    if from.hi() >= core.points().len() {
        return None;
    }
    let near = core.star(from.lo()).next(core.points(), from.hi())?;
    let far = core.star(from.hi()).next(core.points(), from.lo())?;
    if near == far {
        return None;
    }
    Some(Edit::Flip {
        from,
        to: Pair::of(near, far),
    })
}

fn any_edit(core: &Core, seed: u64) -> Edit {
    let words = next(next(seed));
    let e = if below(words, 8) == 0 {
        any_pair(seed, core.points().len())
    } else {
        some_pair(core, seed)
    };
    let kind = below(next(words), 4);
    if kind == 0 {
        Edit::Keep(e)
    } else if kind == 1 {
        match flip_of(core, e) {
            Some(flip) => flip,
            None => Edit::Keep(e),
        }
    } else {
        Edit::Drop(e)
    }
}

fn any_edits(alloc: Global, core: &Core, seed: u64) -> Result<Vec<Edit>, Fail> {
    let mut edits = Vec::new(alloc);
    let mut seed = seed;
    for _ in 0..2 {
        seed = next(seed);
        edits.push(any_edit(core, seed))?;
        if below(seed, 2) == 0 {
            break;
        }
    }
    Ok(edits)
}

// The core's pairs, its kept pairs and its stars are those of the state.
fn compare_state(rt: &impl Abort, core: &Core, now: &Lists) -> Result<(), Fail> {
    let kept = core.kept()?;
    assert!(rt; kept.as_slice() == now.kept());
    let mut ends = 0u64;
    for v in 0..core.points().len() {
        ends = ends.saturating_add(core.star(v).degree() as u64);
    }
    assert_eq!(rt; ends, (now.all().len() as u64).saturating_mul(2));
    for e in now.all() {
        assert!(rt; e.hi() < core.points().len());
        assert!(rt; core.star(e.lo()).place(core.points(), e.hi()).is_some());
    }
    Ok(())
}

// The plain program's answer: the position of the first edit that isn't legal in its turn, or none.
fn plain_answer(
    alloc: Global,
    points: &Points,
    before: &Lists,
    edits: &[Edit],
) -> Result<Option<u32>, Fail> {
    if edits.len() > 8 || !is_within(points, before) {
        return Err(Fail::from("an end beyond the points"));
    }
    Ok(first_illegal(alloc, points, before, edits)?)
}

// One commit: the answer is that of the plain program.
fn compare_answer(
    rt: &impl Abort,
    alloc: Global,
    core: &mut Core,
    caller: u32,
    edits: &[Edit],
) -> Result<bool, Fail> {
    let before = replay(alloc, core.start(), core.journal())?;
    compare_state(rt, core, &before)?;
    let plain = plain_answer(alloc, core.points(), &before, edits)?;
    let seq = core.count(caller).saturating_add(1);
    match (plain, told(core, caller, seq, edits)?) {
        (None, Ok(number)) => {
            assert_eq!(rt; number, core.journal().len() as u64);
            Ok(true)
        }
        (Some(k), Err(ApplyFault::Illegal { at, .. })) => {
            assert_eq!(rt; at, k);
            Ok(false)
        }
        _ => Err(Fail::from("another answer than the plain program's")),
    }
}

// So many commits; how many were taken.
fn walk(
    rt: &impl Abort,
    alloc: Global,
    corners: &[(i64, i64)],
    seed: u64,
    count: u32,
) -> Result<u32, Fail> {
    let mut core = core_of(rt, alloc, corners)?;
    let mut seed = seed;
    let mut taken = 0u32;
    for _ in 0..count {
        seed = next(seed);
        let edits = any_edits(alloc, &core, seed)?;
        if compare_answer(rt, alloc, &mut core, below(seed, 4), edits.as_slice())? {
            taken = taken.saturating_add(1);
        }
    }
    let _dropped = swept(&mut core)?;
    compare_state(rt, &core, &replay(alloc, core.start(), core.journal())?)?;
    assert_eq!(rt; swept(&mut core)?, 0);
    Ok(taken)
}

const GRID: [(i64, i64); 9] = [
    (0, 0),
    (0, 1),
    (0, 2),
    (1, 0),
    (1, 1),
    (1, 2),
    (2, 0),
    (2, 1),
    (2, 2),
];

const SCATTERED: [(i64, i64); 8] = [
    (0, 0),
    (9, 1),
    (4, 8),
    (3, 3),
    (5, 4),
    (2, 5),
    (7, 3),
    (4, 1),
];

#[test]
fn random_commits_on_a_grid(rt: HostRuntime) -> Result<(), Fail> {
    let taken = walk(&rt, rt.alloc(), &GRID, 5, 300)?;
    assert!(&rt; taken > 20);
    Ok(())
}

#[test]
fn random_commits_on_scattered_points(rt: HostRuntime) -> Result<(), Fail> {
    let taken = walk(&rt, rt.alloc(), &SCATTERED, 11, 900)?;
    assert!(&rt; taken > 20);
    Ok(())
}
