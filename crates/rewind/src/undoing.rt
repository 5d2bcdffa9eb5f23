// A commit that undoes an earlier one.
ghost use Rattle.std.specs.Prelude.{◌≡◌, ◌-◌, ◌<◌, ◌≤◌, length, take, IfOk, IfErr, OnOk, OnErr};
ghost use Rattle.journal_defs.specs.Journal.{replay};
ghost use Rattle.replay.specs.Applied.{AreWithin};
ghost use Rattle.replay.specs.Replayed.{IsCore, IsAsBefore, state_of};
ghost use Rattle.rewind.specs.Undone.{IsInverseOf, IsUndone, IsUndoRefused};

use crate::inverting::inverses;
use journal_defs::{EditList, Why};
use replay::{ApplyFault, Commit, Core, MOST_CALLER, MOST_COMMITS};

/// Why a commit isn't undone.
#[derive(Clone, Copy, Debug, PartialEq, Eq)]
pub enum UndoFault {
    /// No commit has this number; the journal has so many.
    NoSuch { length: u64 },
    /// No memory was found.
    NoMemory,
    /// The edit of the inverse at this position is the first that isn't legal in its turn, and why.
    Illegal { at: u32, why: Why },
}

// The inverse of the commit of a number.
fn inverse_of(core: &Core, number: u64) -> EditList
    requires some { 1 ≤ number }
    requires within { number ≤ length core.now.journal }
    ensures inverse { IsInverseOf core.now.journal number result }
    ensures within { AreWithin (length core.now.points) result }
    ensures core { IsCore core.now }
{
    let _count = core.points().len();
    let journal = core.journal();
    let place = number as usize - 1;
    inverses(&journal[place].edits)
}

/// Undoes the commit of a number, counted from 1, by a new commit of the caller: its next one, with the inverses of that
/// commit's edits in reverse order. It answers the number of the new commit. The last commit can always be undone, and
/// then all is as it was before it; an earlier one where these edits are legal in their turn. A refusal leaves all as it
/// was.
pub fn undo(core: &mut Core, caller: u32, number: u64) -> Result<u64, UndoFault>
    requires caller { caller ≤ MOST_CALLER }
    requires few { length core.old.journal < MOST_COMMITS }
    ensures undone { IfOk result (IsUndone core.old core.new caller number) }
    ensures back { OnOk result (number ≡ length core.old.journal
        → state_of core.new ≡ replay core.old.start (take (number - 1) core.old.journal)) }
    ensures refused { IfErr result (IsUndoRefused core.old number) }
    ensures unchanged { OnErr result (IsAsBefore core.old core.new) }
    ensures core { IsCore core.new }
{
    let _count = core.points().len();
    let length = core.journal().len() as u64;
    if number == 0 || length < number {
        return Err(UndoFault::NoSuch { length });
    }
    let edits = inverse_of(core, number);
    let seq = core.count(caller) + 1;
    match core.apply(Commit { caller, seq, edits }) {
        Ok(number) => Ok(number),
        Err(ApplyFault::Illegal { at, why }) => Err(UndoFault::Illegal { at, why }),
        Err(ApplyFault::NoMemory) => Err(UndoFault::NoMemory),
        Err(ApplyFault::WrongSeq { wanted: _ }) => unreachable!(),
    }
}
