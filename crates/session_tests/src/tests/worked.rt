// The expected replies are this project's worked ones.
use super::making::{SQUARE, commit, core_of, pair, played};
use cost_defs::{Costs, are_costs};
use edit_session::{EditCommand, Played, Reply};
use journal_defs::{Edit, Why};
use plane::Pair;
use star::Star;
use std::alloc::Global;
use std::process::Abort;
use std::test::Fail;

// A reply as a row of a table tells it.
#[derive(Clone, Copy)]
enum Told {
    Seen(u64),
    Commit(u64),
    Illegal(u32, Why),
    Nothing,
    Bound(u64, u64),
}

// An edit, and a command, as a row tells it.
#[derive(Clone, Copy)]
enum Change {
    Drop(u32, u32),
    Keep(u32, u32),
    Flip((u32, u32), (u32, u32)),
}

#[derive(Clone, Copy)]
enum Step {
    Look(u32),
    Commit(&'static [Change]),
    Undo,
    Bound,
}

fn edit_of(change: Change) -> Edit {
    match change {
        Change::Drop(i, j) => Edit::Drop(pair(i, j)),
        Change::Keep(i, j) => Edit::Keep(pair(i, j)),
        Change::Flip((i, j), (k, l)) => Edit::Flip {
            from: pair(i, j),
            to: pair(k, l),
        },
    }
}

fn commit_of(alloc: Global, changes: &[Change]) -> Result<EditCommand, Fail> {
    let mut edits = Vec::new(alloc);
    for change in changes {
        edits.push(edit_of(*change))?;
    }
    commit(&edits)
}

fn command_of(alloc: Global, step: Step) -> Result<EditCommand, Fail> {
    match step {
        Step::Look(v) => Ok(EditCommand::Look(v)),
        Step::Commit(changes) => commit_of(alloc, changes),
        Step::Undo => Ok(EditCommand::Undo),
        Step::Bound => Ok(EditCommand::Bound),
    }
}

fn commands_of(alloc: Global, steps: &[Step]) -> Result<Vec<EditCommand>, Fail> {
    let mut commands = Vec::new(alloc);
    for step in steps {
        commands.push(command_of(alloc, *step)?)?;
    }
    Ok(commands)
}

fn is_told(reply: &Reply, row: Told) -> bool {
    match row {
        Told::Seen(wanted) => matches!(reply, Reply::Seen { star: _, stamp } if *stamp == wanted),
        Told::Commit(wanted) => matches!(reply, Reply::Commit(number) if *number == wanted),
        Told::Illegal(k, reason) => {
            matches!(reply, Reply::Illegal { at, why } if *at == k && *why == reason)
        }
        Told::Nothing => matches!(reply, Reply::Nothing),
        Told::Bound(least, kept) => {
            matches!(reply, Reply::Bound { value, cost } if *value == least && *cost == kept)
        }
    }
}

fn expect(rt: &impl Abort, replies: &[Reply], wanted: &[Told]) -> Result<(), Fail> {
    assert!(rt; replies.len() == wanted.len());
    for (k, (reply, row)) in replies.iter().zip(wanted).enumerate() {
        assert!(rt; is_told(reply, *row), "{k}");
    }
    Ok(())
}

fn expect_star(rt: &impl Abort, star: &Star, wanted: &[(u32, bool)]) -> Result<(), Fail> {
    assert!(rt; star.degree() as usize == wanted.len());
    for k in 0..star.degree() {
        assert!(rt; wanted.get(k as usize) == Some(&star.at(k)), "{k}");
    }
    Ok(())
}

// The pairs of a list with their costs, ascending.
fn costs_of(alloc: Global, list: &[(u32, u32, u32)]) -> Result<Costs, Fail> {
    let mut costs = Vec::new(alloc);
    for (i, j, c) in list {
        costs.push((pair(*i, *j), *c))?;
    }
    if are_costs(&costs) {
        Ok(Costs::make(costs))
    } else {
        Err(Fail::from("no list of costs"))
    }
}

// Plays the steps on the square, and compares the replies.
fn expect_session(
    rt: &impl Abort,
    alloc: Global,
    costs: &Costs,
    steps: &[Step],
    wanted: &[Told],
) -> Result<Played, Fail> {
    let core = core_of(rt, alloc, &SQUARE)?;
    let commands = commands_of(alloc, steps)?;
    let played = played(alloc, core, costs, &commands)?;
    expect(rt, played.replies.as_slice(), wanted)?;
    Ok(played)
}

// All five segments of the start are kept again.
fn expect_start(rt: &impl Abort, kept: &[Pair]) -> Result<(), Fail> {
    let start = [(0, 1), (0, 2), (1, 2), (1, 3), (2, 3)];
    assert!(rt; kept.len() == start.len());
    for (e, f) in kept.iter().zip(&start) {
        assert!(rt; e.lo() == f.0 && e.hi() == f.1);
    }
    Ok(())
}

// The diagonal of a square goes and comes back.
const DROP_STEPS: [Step; 6] = [
    Step::Commit(&[Change::Drop(1, 2)]),
    Step::Look(1),
    Step::Undo,
    Step::Undo,
    Step::Commit(&[Change::Drop(0, 1)]),
    Step::Bound,
];

const DROP_ROWS: [Told; 6] = [
    Told::Commit(1),
    Told::Seen(1),
    Told::Commit(2),
    Told::Nothing,
    Told::Illegal(0, Why::Border),
    Told::Bound(4, 5),
];

#[test]
fn a_drop_is_taken_back(rt: HostRuntime) -> Result<(), Fail> {
    let played = expect_session(&rt, rt.alloc(), &Costs::unit(), &DROP_STEPS, &DROP_ROWS)?;
    assert!(&rt; played.core.journal().len() == 2 && played.core.count(1) == 2);
    match played.replies.as_slice().get(1) {
        Some(Reply::Seen { star, stamp: _ }) => {
            expect_star(&rt, star, &[(3, true), (0, true), (2, false)])
        }
        _ => Err(Fail::from("no star")),
    }
}

// Three commits are taken back one by one, the last one first, and an undo isn't taken back itself.
const UNDO_STEPS: [Step; 11] = [
    Step::Commit(&[Change::Drop(1, 2)]),
    Step::Commit(&[Change::Flip((1, 2), (0, 3))]),
    Step::Commit(&[Change::Keep(0, 3), Change::Drop(0, 3), Change::Keep(0, 3)]),
    Step::Commit(&[Change::Drop(0, 3), Change::Keep(1, 2)]),
    Step::Look(3),
    Step::Undo,
    Step::Undo,
    Step::Undo,
    Step::Undo,
    Step::Look(3),
    Step::Bound,
];

const UNDO_ROWS: [Told; 11] = [
    Told::Commit(1),
    Told::Commit(2),
    Told::Commit(3),
    Told::Illegal(1, Why::NotThere),
    Told::Seen(3),
    Told::Commit(4),
    Told::Commit(5),
    Told::Commit(6),
    Told::Nothing,
    Told::Seen(5),
    Told::Bound(4, 5),
];

#[test]
fn undos_go_back_one_by_one(rt: HostRuntime) -> Result<(), Fail> {
    let played = expect_session(&rt, rt.alloc(), &Costs::unit(), &UNDO_STEPS, &UNDO_ROWS)?;
    expect_start(&rt, &played.core.kept()?)
}

// A bound counts what each segment costs: a border pair of cost 7, and the diagonal of cost 3.
const COSTS: [(u32, u32, u32); 2] = [(0, 1, 7), (1, 2, 3)];

const BOUND_STEPS: [Step; 5] = [
    Step::Bound,
    Step::Commit(&[Change::Drop(1, 2)]),
    Step::Bound,
    Step::Undo,
    Step::Bound,
];

const BOUND_ROWS: [Told; 5] = [
    Told::Bound(10, 13),
    Told::Commit(1),
    Told::Bound(10, 10),
    Told::Commit(2),
    Told::Bound(10, 13),
];

#[test]
fn bounds_count_costs(rt: HostRuntime) -> Result<(), Fail> {
    let costs = costs_of(rt.alloc(), &COSTS)?;
    let played = expect_session(&rt, rt.alloc(), &costs, &BOUND_STEPS, &BOUND_ROWS)?;
    assert!(&rt; played.core.journal().len() == 2);
    Ok(())
}
