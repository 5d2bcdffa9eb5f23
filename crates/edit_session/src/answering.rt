// What one command is replied.
ghost use Rattle.std.specs.Prelude.{◌≡◌, ◌+◌, ◌<◌, ◌≤◌, List, length, slice_index_or, OnErr, IfOk};
ghost use Rattle.cost_defs.specs.Costs.{Costed};
ghost use Rattle.replay.specs.Applied.{AreWithin};
ghost use Rattle.replay.specs.Replayed.{IsCore, IsAsBefore};
ghost use Rattle.edit_session.specs.declared.command.EditCommand.TheVariants as the_command;
ghost use Rattle.edit_session.specs.Bounds.{IsRaisedValue};
ghost use Rattle.edit_session.specs.Sessions.{IsCommandOf};
ghost use Rattle.edit_session.specs.Desks.{HasReplied, IsDesk};

use crate::bounding::raised_value;
use crate::command::{EditCommand, Reply};
use crate::desk::{Desk, last_of, put_last, stamp_last, stamp_of, take_off};
use dual_prices::Costs;
use journal_defs::EditList;
use mcp_outside::NoMemory;
use replay::{ApplyFault, Commit, Core, MOST_COMMITS};
use rewind::{UndoFault, undo};
use std::alloc::Global;

// Who makes the commits of a session.
const CALLER: u32 = 1;

fn look(core: &Core, desk: &Desk, v: u32) -> Result<Reply, NoMemory>
    requires vertex { v < length core.now.points }
    requires desk { (D : List Costed) × IsDesk core.now D desk.now }
    ensures { (D : List Costed) → IsDesk core.now D desk.now
        → IfOk result (HasReplied core.now core.now D desk.now desk.now (the_command.Look v)) }
{
    let _count = core.points().len();
    let star = core.star(v).copy(core.points())?;
    let stamp = stamp_of(&desk.stamps, v);
    Ok(Reply::Seen { star, stamp })
}

fn commit(core: &mut Core, desk: &mut Desk, edits: &EditList) -> Result<Reply, NoMemory>
    requires within { AreWithin (length core.old.points) edits.now }
    requires few { length core.old.journal < MOST_COMMITS }
    requires desk { (D : List Costed) × IsDesk core.old D desk.old }
    ensures replied { (D : List Costed) → IsDesk core.old D desk.old
        → IfOk result (HasReplied core.old core.new D desk.old desk.new (the_command.Commit edits.now)) }
    ensures stopped { OnErr result (IsAsBefore core.old core.new) }
    ensures core { IsCore core.new }
{
    let _count = core.points().len();
    desk.undoable.reserve(1)?;
    let seq = core.count(CALLER) + 1;
    let edits = EditList::make(edits.as_slice());
    let caller = CALLER;
    match core.apply(Commit { caller, seq, edits }) {
        Ok(number) => {
            put_last(&mut desk.undoable, number);
            stamp_last(core, &mut desk.stamps);
            Ok(Reply::Commit(number))
        }
        Err(ApplyFault::Illegal { at, why }) => Ok(Reply::Illegal { at, why }),
        Err(ApplyFault::NoMemory) => Err(NoMemory),
        Err(ApplyFault::WrongSeq { wanted: _ }) => unreachable!(),
    }
}

fn take_back(core: &mut Core, desk: &mut Desk) -> Result<Reply, NoMemory>
    requires few { length core.old.journal < MOST_COMMITS }
    requires desk { (D : List Costed) × IsDesk core.old D desk.old }
    ensures replied { (D : List Costed) → IsDesk core.old D desk.old
        → IfOk result (HasReplied core.old core.new D desk.old desk.new the_command.Undo) }
    ensures stopped { OnErr result (IsAsBefore core.old core.new) }
    ensures core { IsCore core.new }
{
    let _count = core.points().len();
    let Some(number) = last_of(&desk.undoable) else {
        return Ok(Reply::Nothing);
    };
    match undo(core, CALLER, number) {
        Ok(answer) => {
            take_off(&mut desk.undoable, number);
            stamp_last(core, &mut desk.stamps);
            Ok(Reply::Commit(answer))
        }
        Err(UndoFault::NoMemory) => Err(NoMemory),
        Err(UndoFault::NoSuch { length: _ }) => unreachable!(),
        Err(UndoFault::Illegal { at: _, why: _ }) => unreachable!(),
    }
}

// The lower bound, which is the same at every moment.
fn value_at(alloc: Global, core: &Core, desk: &mut Desk, costs: &Costs) -> Result<u64, NoMemory>
    requires { IsDesk core.now costs.now desk.old }
    ensures value { IfOk result (IsRaisedValue core.now.points costs.now) }
    ensures desk { IfOk result (λ _. IsDesk core.now costs.now desk.new) }
    ensures undoable { desk.new.undoable.items ≡ desk.old.undoable.items }
{
    let _count = core.points().len();
    if let Some(value) = desk.value {
        return Ok(value);
    }
    let value = raised_value(alloc, core.points(), costs, core.start())?;
    desk.value = Some(value);
    Ok(value)
}

fn bound(alloc: Global, core: &Core, desk: &mut Desk, costs: &Costs) -> Result<Reply, NoMemory>
    requires { IsDesk core.now costs.now desk.old }
    ensures { IfOk result (HasReplied core.now core.now costs.now desk.old desk.new the_command.Bound) }
{
    let _count = core.points().len();
    let value = value_at(alloc, core, desk, costs)?;
    let kept = core.kept()?;
    let cost = costs.total(&kept);
    Ok(Reply::Bound { value, cost })
}

/// The reply to one command. Without memory the core is as before.
pub fn answer(
    alloc: Global,
    core: &mut Core,
    desk: &mut Desk,
    costs: &Costs,
    command: &EditCommand,
) -> Result<Reply, NoMemory>
    requires command { IsCommandOf (length core.old.points) command.now }
    requires few { length core.old.journal < MOST_COMMITS }
    requires desk { IsDesk core.old costs.now desk.old }
    ensures replied { IfOk result (HasReplied core.old core.new costs.now desk.old desk.new command.now) }
    ensures stopped { OnErr result (IsAsBefore core.old core.new) }
    ensures core { IsCore core.new }
{
    let _count = core.points().len();
    match command {
        EditCommand::Look(v) => look(core, desk, *v),
        EditCommand::Commit(edits) => commit(core, desk, edits),
        EditCommand::Undo => take_back(core, desk),
        EditCommand::Bound => bound(alloc, core, desk, costs),
    }
}
