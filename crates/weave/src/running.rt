// Steps on a core, one after the other.
ghost use Rattle.std.specs.Prelude.{◌≡◌, ◌+◌, ◌<◌, ◌≤◌, All, IfOk, OnErr, length};
ghost use Rattle.journal_defs.specs.Weave.{steps as weave_after};
ghost use Rattle.replay.specs.Applied.{AreWithin};
ghost use Rattle.replay.specs.Replayed.{IsCore, IsAsBefore};
ghost use Rattle.weave.specs.declared.step.Step.TheVariants as the_step;
ghost use Rattle.weave.specs.Answers.{IsStepOf};
ghost use Rattle.weave.specs.Woven.{HasWoven, HasKeptLaw, IsWovenInPart};
ghost use Rattle.weave.specs.Owned.{HasStepped};

use crate::owners::{free_places, give_back, is_owner, least_lacking, take};
use crate::step::{Step, StepAnswer};
use journal_defs::EditList;
use mcp_outside::NoMemory;
use replay::{ApplyFault, Commit, Core, MOST_CALLER, MOST_COMMITS};
use std::alloc::Global;

// The caller's next commit, where the caller has all places for it and the edits are legal in their turn.
fn append(
    core: &mut Core,
    owners: &[Option<u32>],
    caller: u32,
    edits: &EditList,
) -> Result<StepAnswer, NoMemory>
    requires caller { caller ≤ MOST_CALLER }
    requires within { AreWithin (length core.old.points) edits.now }
    requires places { length owners.now ≡ length core.old.points + 1 }
    requires few { length core.old.journal < MOST_COMMITS }
    ensures stepped { IfOk result
        (HasStepped core.old core.new owners.now owners.now (the_step.Append caller edits.now)) }
    ensures stopped { OnErr result (IsAsBefore core.old core.new) }
    ensures core { IsCore core.new }
{
    let journal = core.points().len();
    if let Some(v) = least_lacking(owners, caller, edits.as_slice()) {
        return Ok(StepAnswer::NotOwned(v));
    }
    if !is_owner(owners, caller, journal) {
        return Ok(StepAnswer::NotOwned(journal));
    }
    let seq = core.count(caller) + 1;
    let edits = EditList::make(edits.as_slice());
    match core.apply(Commit { caller, seq, edits }) {
        Ok(number) => Ok(StepAnswer::Commit(number)),
        Err(ApplyFault::Illegal { at, why }) => Ok(StepAnswer::Illegal { at, why }),
        Err(ApplyFault::NoMemory) => Err(NoMemory),
        Err(ApplyFault::WrongSeq { wanted: _ }) => unreachable!(),
    }
}

// One step.
fn make_step(
    core: &mut Core,
    owners: &mut [Option<u32>],
    step: &Step,
) -> Result<StepAnswer, NoMemory>
    requires step { IsStepOf (length core.old.points) step.now }
    requires places { length owners.old ≡ length core.old.points + 1 }
    requires few { length core.old.journal < MOST_COMMITS }
    ensures stepped { IfOk result (HasStepped core.old core.new owners.old owners.new step.now) }
    ensures stopped { OnErr result (IsAsBefore core.old core.new) }
    ensures core { IsCore core.new }
{
    let _count = core.points().len();
    match step {
        Step::Take { caller, place } => Ok(take(owners, *caller, *place)),
        Step::Append { caller, edits } => append(core, owners, *caller, edits),
        Step::Back { caller, place } => Ok(give_back(owners, *caller, *place)),
    }
}

/// Makes the steps in their order; all places are free at first. Each is answered as the weave answers it: a take
/// with Won where the place is free, else with Held and its owner; a return with Returned where the place is the
/// caller's, else with NotOwned. An append is answered with NotOwned and the least touched vertex that isn't the
/// caller's, else with NotOwned and the journal's place where that isn't the caller's, else with Illegal as the
/// core's `apply` says, else with Commit. Without memory the steps so far stand.
pub fn run_steps(
    alloc: Global,
    core: &mut Core,
    steps: &[Step],
) -> Result<Vec<StepAnswer>, NoMemory>
    requires steps { All (IsStepOf (length core.old.points)) steps.now }
    requires few { length core.old.journal + length steps.now ≤ MOST_COMMITS }
    ensures woven { IfOk result (λ answers. HasWoven core.old core.new steps.now answers.items) }
    ensures lawful { IfOk result (λ answers. HasKeptLaw core.old steps.now answers.items) }
    ensures stopped { OnErr result (IsWovenInPart core.old core.new steps.now) }
    ensures core { IsCore core.new }
{
    let places = core.points().len() as usize + 1;
    let mut owners = free_places(alloc, places)?;
    let mut answers = Vec::with_capacity(alloc, steps.len())?;
    for step in steps {
        let answer = make_step(core, &mut owners, step)?;
        answers.push(answer)?;
    }
    Ok(answers)
}
