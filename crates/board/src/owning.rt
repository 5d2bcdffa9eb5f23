// Passes as the holders and the rest that they are made of.
ghost use Rattle.std.specs.Prelude.{◌≡◌, ◌≤◌, List, [], length, map, vec_len, vec_capacity, IfOk};
ghost use Rattle.index_sets.specs.Indices.{numbers_from};
ghost use Rattle.chronicle.specs.History.{ChronicleSeen, caller_share};
ghost use Rattle.seats.specs.Ground.{caller_of};
ghost use Rattle.seats.specs.Seats.{SeatSeen};
ghost use Rattle.board.specs.Owning.{AreTogether};

use crate::board::Pass;
use crate::own::Own;
use chronicle::Share;
use edit::Look;
use journal_defs::Commit;
use mcp_outside::NoMemory;
use seats::{Cell, Seat};
use std::alloc::Global;
use vertex_claims::Holder;

/// Puts passes together, in order.
pub fn put_together(holders: Vec<Holder<Cell>>, owns: Vec<Own>, passes: Vec<Pass>) -> Vec<Pass>
    requires together { (seats : List SeatSeen) × AreTogether holders.items owns.items seats }
    requires empty { passes.items ≡ [] }
    requires room { length holders.items ≤ vec_capacity passes }
    ensures { (seats : List SeatSeen) → AreTogether holders.items owns.items seats → result.items ≡ seats }
{
    let mut passes = passes;
    let mut holders = holders.into_iter();
    let mut owns = owns.into_iter();
    while let Some(holder) = holders.next() {
        let next = owns.next();
        let Some(own) = next else { unreachable!() };
        let pushed = passes.push(own.with_holder(holder));
        let Ok(()) = pushed else { unreachable!() };
    }
    holders.destroy_empty();
    owns.destroy_empty();
    passes
}

/// Takes passes apart, in order.
pub fn take_apart(
    passes: Vec<Pass>,
    holders: Vec<Holder<Cell>>,
    owns: Vec<Own>,
) -> (Vec<Holder<Cell>>, Vec<Own>)
    requires empty { (holders.items ≡ []) × (owns.items ≡ []) }
    requires room { (length passes.items ≤ vec_capacity holders) × (length passes.items ≤ vec_capacity owns) }
    ensures { AreTogether result.0.items result.1.items passes.items }
{
    let mut holders = holders;
    let mut owns = owns;
    let mut passes = passes.into_iter();
    while let Some(pass) = passes.next() {
        let (holder, own) = Own::of(pass);
        let pushed = holders.push(holder);
        let Ok(()) = pushed else { unreachable!() };
        let pushed = owns.push(own);
        let Ok(()) = pushed else { unreachable!() };
    }
    passes.destroy_empty();
    (holders, owns)
}
