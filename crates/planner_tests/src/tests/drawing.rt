// Drawn lists of legal edits, and drawn costs.
use cost_defs::{Costs, are_costs};
use journal_defs::{Edit, Lists, after, is_legal, is_within, replay};
use plane::{Pair, Points};
use replay::Core;
use std::alloc::Global;
use std::test::Fail;

/// The next number of a linear congruence.
pub fn next(seed: u64) -> u64 {
    (seed % 0x8000_0000 * 1_103_515_245 + 12_345) % 0x8000_0000
}

/// A number below a bound from it.
pub fn below(seed: u64, bound: u32) -> u32 {
    if bound == 0 {
        0
    } else {
        ((seed / 65_536) % bound as u64) as u32
    }
}

// A pair of the list.
fn any_of(list: &[Pair], seed: u64) -> Pair {
    let count = list.len();
    if count == 0 {
        return Pair::of(0, 1);
    }
    match list.get((seed / 65_536) as usize % count) {
        Some(e) => *e,
        None => Pair::of(0, 1),
    }
}

/// Whether the edit is legal, by all pairs and all points.
pub fn is_fine(alloc: Global, points: &Points, state: &Lists, edit: Edit) -> Result<bool, Fail> {
    if !is_within(points, state) {
        return Err(Fail::from("an end beyond the points"));
    }
    Ok(is_legal(alloc, points, state, edit)?)
}

// Adds the pairs of a point and a later one.
fn push_pairs(pairs: &mut Vec<Pair>, i: u32, count: u32) -> Result<(), Fail> {
    for j in 0..count {
        if i < j {
            pairs.push(Pair::of(i, j))?;
        }
    }
    Ok(())
}

// All pairs of so many points, ascending.
fn pairs_of(alloc: Global, count: u32) -> Result<Vec<Pair>, Fail> {
    let mut pairs = Vec::new(alloc);
    for i in 0..count {
        push_pairs(&mut pairs, i, count)?;
    }
    Ok(pairs)
}

/// The flip of the pair that is legal, if there is one.
pub fn flip_of(
    alloc: Global,
    points: &Points,
    state: &Lists,
    from: Pair,
) -> Result<Option<Edit>, Fail> {
    for to in &pairs_of(alloc, points.len())? {
        let flip = Edit::Flip { from, to: *to };
        if is_fine(alloc, points, state, flip)? {
            return Ok(Some(flip));
        }
    }
    Ok(None)
}

fn any_edit(alloc: Global, points: &Points, state: &Lists, seed: u64) -> Result<Edit, Fail> {
    let e = any_of(state.all(), seed);
    match below(next(seed), 5) {
        0 | 1 => Ok(Edit::Drop(e)),
        2 => Ok(Edit::Keep(e)),
        _ => match flip_of(alloc, points, state, e)? {
            Some(flip) => Ok(flip),
            None => Ok(Edit::Keep(e)),
        },
    }
}

/// At most 4 edits that are legal in their turn after the core's journal.
pub fn any_edits(alloc: Global, core: &Core, seed: u64) -> Result<Vec<Edit>, Fail> {
    let mut now = replay(alloc, core.start(), core.journal())?;
    let mut edits = Vec::new(alloc);
    let mut seed = seed;
    for _ in 0..4 {
        seed = next(next(seed));
        let edit = any_edit(alloc, core.points(), &now, seed)?;
        if is_fine(alloc, core.points(), &now, edit)? {
            now = after(alloc, edit, &now)?;
            edits.push(edit)?;
        }
    }
    Ok(edits)
}

/// Costs from 0 to 3 for some pairs of so many points.
pub fn any_costs(alloc: Global, count: u32, seed: u64) -> Result<Costs, Fail> {
    let mut list = Vec::new(alloc);
    let mut seed = seed;
    for e in &pairs_of(alloc, count)? {
        seed = next(seed);
        let cost = below(seed, 4);
        if cost != 1 {
            list.push((*e, cost))?;
        }
    }
    if !are_costs(list.as_slice()) {
        return Err(Fail::from("no costs"));
    }
    Ok(Costs::make(list))
}
