// The steps of a script, made on the core of its start.
ghost use Rattle.std.specs.Prelude.{◌≡◌, ◌≤◌, ◌++◌, [], All, IfOk, length};
ghost use Rattle.replay.specs.Replayed.{Replayed, IsCore, state_of};
ghost use Rattle.triangulate.specs.Start.{IsSortedStart};
ghost use Rattle.weave.specs.Answers.{IsStepOf};
ghost use Rattle.weave_script.specs.Lines.{answers_text, end_line};
ghost use Rattle.weave_script.specs.Playing.{IsPlayed};
ghost use Rattle.weave_script.specs.Reading.{most_steps};

use crate::lines::{answer_line, end_line};
use crate::script::Script;
use mcp_outside::NoMemory;
use plane::Points;
use replay::Core;
use std::alloc::Global;
use triangulate::start;
use weave::{StepAnswer, run_steps};

/// The core of the start of the points, unswept.
pub fn core_of(alloc: Global, points: Points) -> Result<Core, NoMemory>
    ensures points { IfOk result (λ core. core.points ≡ points) }
    ensures start { IfOk result (λ core. IsSortedStart points core.start) }
    ensures journal { IfOk result (λ core. core.journal ≡ []) }
    ensures core { IfOk result IsCore }
{
    let all = start(alloc, &points)?;
    match Core::make(points, all) {
        Ok(core) => Ok(core),
        Err((_, _, fault)) => Err(fault),
    }
}

// A line for each answer.
fn answer_lines(alloc: Global, answers: &[StepAnswer]) -> Result<Vec<u8>, NoMemory>
    ensures { IfOk result (λ text. text.items ≡ answers_text answers.now) }
{
    let mut text = Vec::new(alloc);
    for answer in answers {
        let line = answer_line(alloc, *answer)?;
        text.extend_from_slice(line.as_bytes())?;
    }
    Ok(text)
}

/// Appends the line of the end: how many commits the journal of the core has, and how many segments are kept.
pub fn push_end(text: &mut Vec<u8>, alloc: Global, core: &Core) -> Result<(), NoMemory>
    ensures { IfOk result (λ _. text.new.items
        ≡ text.old.items ++ end_line (length core.now.journal) (length (state_of core.now).kept)) }
{
    let kept = core.kept()?;
    let line = end_line(alloc, core.journal().len(), kept.len())?;
    text.extend_from_slice(line.as_bytes())?;
    Ok(())
}

/// What the steps of a script are answered, a line for each, with all places free at first, and a last line with the
/// length of the journal and the number of kept segments. The core is that of the start, unswept. (This project's own.)
pub fn script_text(alloc: Global, script: Script) -> Result<Vec<u8>, NoMemory>
    requires steps { All (IsStepOf (length script.points)) script.steps.items }
    requires few { length script.steps.items ≤ most_steps }
    ensures { IfOk result (λ text. IsPlayed script.points script.steps.items text.items) }
{
    let mut core = core_of(alloc, script.points)?;
    let answers = run_steps(alloc, &mut core, &script.steps)?;
    let mut text = answer_lines(alloc, &answers)?;
    push_end(&mut text, alloc, &core)?;
    Ok(text)
}
