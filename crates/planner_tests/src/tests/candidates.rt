// The moves at a vertex: drops, swaps with and without a flip, trades and flips.
use super::making::pair;
use plan_defs::Move;
use plane::Pair;
use replay::Core;
use std::alloc::Global;
use std::test::Fail;

// Adds the pairs at a vertex that are kept, or those that aren't, in the order of its star.
fn push_pairs_at(pairs: &mut Vec<Pair>, core: &Core, v: u32, kept: bool) -> Result<(), Fail> {
    if v >= core.points().len() {
        return Ok(());
    }
    let star = core.star(v);
    for k in 0..star.degree() {
        let (w, mark) = star.at(k);
        if mark == kept {
            pairs.push(pair(v, w))?;
        }
    }
    Ok(())
}

fn pairs_at(alloc: Global, core: &Core, v: u32, kept: bool) -> Result<Vec<Pair>, Fail> {
    let mut pairs = Vec::new(alloc);
    push_pairs_at(&mut pairs, core, v, kept)?;
    Ok(pairs)
}

// The kept pairs at v, and then those at q.
fn drops_of(alloc: Global, core: &Core, v: u32, q: u32) -> Result<Vec<Pair>, Fail> {
    let mut drops = pairs_at(alloc, core, v, true)?;
    push_pairs_at(&mut drops, core, q, true)?;
    Ok(drops)
}

fn push_drops(moves: &mut Vec<Move>, kept: &[Pair]) -> Result<(), Fail> {
    for e in kept {
        moves.push(Move::DropOne(*e))?;
    }
    Ok(())
}

// A swap, and the same after a flip.
fn push_swap(
    moves: &mut Vec<Move>,
    pair: Pair,
    first: Pair,
    second: Option<Pair>,
) -> Result<(), Fail> {
    moves.push(Move::Swap {
        keep: pair,
        first,
        second,
    })?;
    moves.push(Move::FlipSwap {
        pair,
        first,
        second,
    })?;
    Ok(())
}

// Those that drop this pair, with each of the rest and alone.
fn push_swaps_from(
    moves: &mut Vec<Move>,
    pair: Pair,
    first: Pair,
    rest: &[Pair],
) -> Result<(), Fail> {
    for second in rest {
        push_swap(moves, pair, first, Some(*second))?;
    }
    push_swap(moves, pair, first, None)
}

fn push_swaps(moves: &mut Vec<Move>, pair: Pair, list: &[Pair]) -> Result<(), Fail> {
    for k in 0..list.len() {
        push_swaps_from(moves, pair, list[k], &list[k + 1..])?;
    }
    Ok(())
}

// Trades that drop this pair and one of the rest.
fn push_trades_from(
    moves: &mut Vec<Move>,
    keep: (Pair, Pair),
    first: Pair,
    rest: &[Pair],
) -> Result<(), Fail> {
    for second in rest {
        moves.push(Move::Trade {
            keep: keep.0,
            other: keep.1,
            first,
            second: *second,
        })?;
    }
    Ok(())
}

fn push_trades_of(moves: &mut Vec<Move>, keep: (Pair, Pair), kept: &[Pair]) -> Result<(), Fail> {
    for k in 0..kept.len() {
        push_trades_from(moves, keep, kept[k], &kept[k + 1..])?;
    }
    Ok(())
}

// Trades that keep this pair and one of the rest.
fn push_trades_with(
    moves: &mut Vec<Move>,
    keep: Pair,
    rest: &[Pair],
    kept: &[Pair],
) -> Result<(), Fail> {
    for other in rest {
        push_trades_of(moves, (keep, *other), kept)?;
    }
    Ok(())
}

fn push_trades(moves: &mut Vec<Move>, spare: &[Pair], kept: &[Pair]) -> Result<(), Fail> {
    for k in 0..spare.len() {
        push_trades_with(moves, spare[k], &spare[k + 1..], kept)?;
    }
    Ok(())
}

// The other end of the pair.
fn other_end(e: Pair, v: u32) -> u32 {
    if e.lo() == v { e.hi() } else { e.lo() }
}

// The moves of a pair at v that isn't kept.
fn push_spare(
    alloc: Global,
    core: &Core,
    v: u32,
    spare: Pair,
    moves: &mut Vec<Move>,
) -> Result<(), Fail> {
    let list = drops_of(alloc, core, v, other_end(spare, v))?;
    push_swaps(moves, spare, &list)?;
    moves.push(Move::FlipOne(spare))?;
    Ok(())
}

fn push_spares(
    alloc: Global,
    core: &Core,
    v: u32,
    spare: &[Pair],
    moves: &mut Vec<Move>,
) -> Result<(), Fail> {
    for e in spare {
        push_spare(alloc, core, v, *e, moves)?;
    }
    Ok(())
}

fn push_all(
    alloc: Global,
    core: &Core,
    v: u32,
    spare: &[Pair],
    moves: &mut Vec<Move>,
) -> Result<(), Fail> {
    let kept = pairs_at(alloc, core, v, true)?;
    push_drops(moves, &kept)?;
    push_spares(alloc, core, v, spare, moves)?;
    push_trades(moves, spare, &kept)
}

/// The moves at a vertex.
pub fn moves_at(alloc: Global, core: &Core, v: u32) -> Result<Vec<Move>, Fail> {
    let spare = pairs_at(alloc, core, v, false)?;
    let mut moves = Vec::new(alloc);
    push_all(alloc, core, v, &spare, &mut moves)?;
    Ok(moves)
}
