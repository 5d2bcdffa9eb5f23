// The command `weave`.
ghost use Rattle.std.specs.Prelude.{◌≢◌, ◌≤◌, length, All, IfOk};
ghost use Rattle.weave.specs.Answers.{IsStepOf};
ghost use Rattle.weave_script.specs.Reading.{most_steps};
ghost use Rattle.weave_script.specs.Scripts.{IsScript, HasFault};
ghost use Rattle.solver_top.specs.Weaving.{IsWeaveAnswer};

use crate::answers::Answer;
use crate::status::Verdict;
use mcp_outside::NoMemory;
use std::alloc::Global;
use weave_script::{Script, ScriptFault, read_script, refused_line, script_text};

/// What `weave` answers to an input.
pub fn woven(alloc: Global, bytes: &[u8]) -> Result<Answer, NoMemory>
    ensures { IfOk result (λ answer. IsWeaveAnswer bytes.now answer.verdict answer.text.items) }
{
    match read_script(alloc, bytes) {
        Ok(script) => played(alloc, bytes, script),
        Err(ScriptFault::NoMemory) => Err(NoMemory),
        Err(fault) => refused_script(alloc, bytes, fault),
    }
}

// The answers to the steps of the script that an input is.
fn played(alloc: Global, bytes: &[u8], script: Script) -> Result<Answer, NoMemory>
    requires read { IsScript bytes.now script.points script.steps.items }
    requires steps { All (IsStepOf (length script.points)) script.steps.items }
    requires few { length script.steps.items ≤ most_steps }
    ensures { IfOk result (λ answer. IsWeaveAnswer bytes.now answer.verdict answer.text.items) }
{
    let _ = bytes;
    let text = script_text(alloc, script)?;
    Ok(Answer {
        verdict: Verdict::Done,
        text,
    })
}

// The refusal of an input that is no script, with its first fault.
fn refused_script(alloc: Global, bytes: &[u8], fault: ScriptFault) -> Result<Answer, NoMemory>
    requires named { fault ≢ ScriptFault.NoMemory }
    requires fault { HasFault bytes.now fault }
    ensures { IfOk result (λ answer. IsWeaveAnswer bytes.now answer.verdict answer.text.items) }
{
    let _ = bytes;
    let line = refused_line(alloc, fault)?;
    Ok(Answer::of_line(Verdict::Refused, line))
}
