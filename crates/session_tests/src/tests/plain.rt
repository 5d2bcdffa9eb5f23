// Sessions as a plain slow program: each command replays the journal from the start, legality is that of all pairs and all
// points, and a star is looked for among all pairs.
use cost_defs::Costs;
use edit_session::{EditCommand, Reply};
use journal_defs::{Commit, Edit, EditList, Lists, first_illegal, is_within, replay};
use plane::{Pair, Points};
use star::Star;
use std::alloc::Global;
use std::process::Abort;
use std::test::Fail;

/// The journal, and the positions in it of the commits that can be undone.
#[derive(Drop)]
pub struct Plain {
    pub journal: Vec<Commit>,
    undoable: Vec<usize>,
}

/// What a session is about.
#[derive(Drop)]
pub struct Place<'a> {
    pub points: &'a Points,
    pub start: &'a [Pair],
    pub costs: &'a Costs,
}

impl Plain {
    pub fn make(alloc: Global) -> Plain {
        Plain {
            journal: Vec::new(alloc),
            undoable: Vec::new(alloc),
        }
    }
}

fn inverse_of(edit: &Edit) -> Edit {
    match *edit {
        Edit::Drop(e) => Edit::Keep(e),
        Edit::Keep(e) => Edit::Drop(e),
        Edit::Flip { from, to } => Edit::Flip { from: to, to: from },
    }
}

fn has_end(e: Pair, v: u32) -> bool {
    e.lo() == v || e.hi() == v
}

fn touches(edit: &Edit, v: u32) -> bool {
    match *edit {
        Edit::Drop(e) => has_end(e, v),
        Edit::Keep(e) => has_end(e, v),
        Edit::Flip { from, to } => has_end(from, v) || has_end(to, v),
    }
}

// The number of the last commit that touched a vertex.
fn stamp_of(journal: &[Commit], v: u32) -> u64 {
    let mut stamp = 0;
    for (k, commit) in journal.iter().enumerate() {
        if commit.edits.as_slice().iter().any(|edit| touches(edit, v)) {
            stamp = (k as u64).saturating_add(1);
        }
    }
    stamp
}

// The star has the other end of each segment at its vertex, marked where the segment is kept, and no other.
fn compare_star(rt: &impl Abort, state: &Lists, star: &Star, v: u32) -> Result<(), Fail> {
    assert!(rt; star.centre() == v);
    let mut degree = 0u32;
    for e in state.all() {
        if has_end(*e, v) {
            degree = degree.saturating_add(1);
            let other = if e.lo() == v { e.hi() } else { e.lo() };
            let wanted = state.kept().contains(e);
            assert!(rt; is_marked(star, other) == Some(wanted), "{v} {other}");
        }
    }
    assert!(rt; star.degree() == degree);
    Ok(())
}

// Whether a neighbour is kept, or none where it is no neighbour.
fn is_marked(star: &Star, other: u32) -> Option<bool> {
    for k in 0..star.degree() {
        let (w, kept) = star.at(k);
        if w == other {
            return Some(kept);
        }
    }
    None
}

fn refused_at(
    alloc: Global,
    points: &Points,
    state: &Lists,
    edits: &[Edit],
) -> Result<Option<u32>, Fail> {
    if edits.len() > 8 || !is_within(points, state) {
        return Err(Fail::from("an end beyond the points"));
    }
    Ok(first_illegal(alloc, points, state, edits)?)
}

fn entered(plain: &mut Plain, edits: &[Edit]) -> Result<u64, Fail> {
    if edits.len() < 1 || edits.len() > 8 {
        return Err(Fail::from("no list of edits"));
    }
    let Ok(count) = u32::try_from(plain.journal.len()) else {
        return Err(Fail::from("a journal beyond 32 bits"));
    };
    plain.journal.push(Commit {
        caller: 1,
        seq: count.saturating_add(1),
        edits: EditList::make(edits),
    })?;
    Ok(plain.journal.len() as u64)
}

fn compare_commit(
    rt: &impl Abort,
    alloc: Global,
    place: &Place,
    plain: &mut Plain,
    edits: &[Edit],
    reply: &Reply,
) -> Result<(), Fail> {
    let state = replay(alloc, place.start, &plain.journal)?;
    match refused_at(alloc, place.points, &state, edits)? {
        Some(wanted) => {
            assert!(rt; matches!(reply, Reply::Illegal { at, why: _ } if *at == wanted));
        }
        None => {
            let wanted = entered(plain, edits)?;
            plain.undoable.push((wanted as usize).saturating_sub(1))?;
            assert!(rt; matches!(reply, Reply::Commit(number) if *number == wanted));
        }
    }
    Ok(())
}

fn compare_undo(
    rt: &impl Abort,
    alloc: Global,
    plain: &mut Plain,
    reply: &Reply,
) -> Result<(), Fail> {
    let Some(k) = plain.undoable.pop() else {
        assert!(rt; matches!(reply, Reply::Nothing));
        return Ok(());
    };
    let mut edits = Vec::new(alloc);
    if let Some(commit) = plain.journal.get(k) {
        for edit in commit.edits.as_slice().iter().rev() {
            edits.push(inverse_of(edit))?;
        }
    }
    let wanted = entered(plain, &edits)?;
    assert!(rt; matches!(reply, Reply::Commit(number) if *number == wanted));
    Ok(())
}

fn cost_of(costs: &Costs, pairs: &[Pair]) -> u64 {
    let mut sum = 0u64;
    for e in pairs {
        sum = sum.saturating_add(u64::from(costs.of(*e)));
    }
    sum
}

/// Compares what a command was replied, and makes it.
pub fn compare(
    rt: &impl Abort,
    alloc: Global,
    place: &Place,
    plain: &mut Plain,
    command: &EditCommand,
    reply: &Reply,
) -> Result<(), Fail> {
    match command {
        EditCommand::Look(v) => {
            let state = replay(alloc, place.start, &plain.journal)?;
            match reply {
                Reply::Seen { star, stamp } => {
                    assert!(rt; *stamp == stamp_of(&plain.journal, *v));
                    compare_star(rt, &state, star, *v)
                }
                _ => Err(Fail::from("no star")),
            }
        }
        EditCommand::Commit(edits) => {
            compare_commit(rt, alloc, place, plain, edits.as_slice(), reply)
        }
        EditCommand::Undo => compare_undo(rt, alloc, plain, reply),
        EditCommand::Bound => {
            let state = replay(alloc, place.start, &plain.journal)?;
            let wanted = cost_of(place.costs, state.kept());
            assert!(rt;
                matches!(reply, Reply::Bound { value, cost } if *cost == wanted && *value <= *cost)
            );
            Ok(())
        }
    }
}
