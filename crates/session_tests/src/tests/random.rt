// Random sessions: every reply is the plain program's, and so is the journal in the end.
use super::making::{GRID, commit, core_of, pair, played};
use super::plain::{Place, Plain, compare};
use cost_defs::Costs;
use edit_session::{EditCommand, Played, Reply};
use journal_defs::{Commit, Edit};
use plane::Pair;
use std::alloc::Global;
use std::process::Abort;
use std::test::Fail;

// The next number of a linear congruence.
fn next(seed: u64) -> u64 {
    (seed % 0x8000_0000 * 1_103_515_245 + 12_345) % 0x8000_0000
}

// A number below a bound from it.
fn below(seed: u64, bound: u64) -> u64 {
    if bound == 0 { 0 } else { (seed / 1024) % bound }
}

// Inner pairs of the grid, one of its border, and one that is no pair.
const PAIRS: [(u32, u32); 12] = [
    (1, 3),
    (0, 4),
    (1, 4),
    (2, 4),
    (1, 5),
    (3, 4),
    (4, 5),
    (4, 7),
    (4, 6),
    (5, 7),
    (0, 1),
    (2, 6),
];

fn any_pair(seed: u64) -> Pair {
    let (i, j) = PAIRS[(seed / 1024 % 12) as usize];
    pair(i, j)
}

fn any_edit(seed: u64) -> Edit {
    let e = any_pair(seed);
    let second = next(seed);
    match below(second, 5) {
        0 => Edit::Flip {
            from: e,
            to: any_pair(next(second)),
        },
        1 => Edit::Keep(e),
        _ => Edit::Drop(e),
    }
}

fn any_commit(seed: u64) -> Result<EditCommand, Fail> {
    let edits = [any_edit(seed), any_edit(next(next(seed)))];
    if below(next(seed), 3) == 0 {
        commit(&edits)
    } else {
        commit(&edits[..1])
    }
}

fn any_command(seed: u64) -> Result<EditCommand, Fail> {
    let second = next(seed);
    match below(seed, 12) {
        0 | 1 => Ok(EditCommand::Look((second / 1024 % 9) as u32)),
        2 | 3 => Ok(EditCommand::Undo),
        4 => Ok(EditCommand::Bound),
        _ => any_commit(next(second)),
    }
}

fn any_commands(alloc: Global, seed: u64) -> Result<Vec<EditCommand>, Fail> {
    let mut commands = Vec::new(alloc);
    let mut seed = seed;
    for _ in 0..200 {
        seed = next(next(next(seed)));
        commands.push(any_command(seed)?)?;
    }
    Ok(commands)
}

// How many replies are of each kind: stars, commits, refusals, nothing to undo, bounds.
fn count(counts: &mut [u32; 5], reply: &Reply) {
    let kind = match reply {
        Reply::Seen { star: _, stamp: _ } => 0usize,
        Reply::Commit(_) => 1,
        Reply::Illegal { at: _, why: _ } => 2,
        Reply::Nothing => 3,
        Reply::Bound { value: _, cost: _ } => 4,
    };
    counts[kind] = counts[kind].saturating_add(1);
}

fn compare_journals(rt: &impl Abort, one: &[Commit], other: &[Commit]) -> Result<(), Fail> {
    assert!(rt; one.len() == other.len());
    for (c, d) in one.iter().zip(other) {
        assert!(rt; c.caller == d.caller && c.seq == d.seq);
        assert!(rt; c.edits.as_slice() == d.edits.as_slice());
    }
    Ok(())
}

fn compare_all(
    rt: &impl Abort,
    alloc: Global,
    played: &Played,
    commands: &[EditCommand],
    counts: &mut [u32; 5],
) -> Result<(), Fail> {
    let costs = Costs::unit();
    let place = Place {
        points: played.core.points(),
        start: played.core.start(),
        costs: &costs,
    };
    let mut plain = Plain::make(alloc);
    assert!(rt; played.replies.as_slice().len() == commands.len());
    for (command, reply) in commands.iter().zip(played.replies.as_slice()) {
        compare(rt, alloc, &place, &mut plain, command, reply)?;
        count(counts, reply);
    }
    compare_journals(rt, played.core.journal(), &plain.journal)
}

#[test]
fn random_sessions_are_those_of_the_plain_program(rt: HostRuntime) -> Result<(), Fail> {
    let mut counts = [0u32; 5];
    for seed in 1..7 {
        let core = core_of(&rt, rt.alloc(), &GRID)?;
        let commands = any_commands(rt.alloc(), seed)?;
        let played = played(rt.alloc(), core, &Costs::unit(), &commands)?;
        compare_all(&rt, rt.alloc(), &played, &commands, &mut counts)?;
    }
    for (kind, many) in counts.iter().enumerate() {
        assert!(&rt; *many > 20, "{kind}");
    }
    Ok(())
}
