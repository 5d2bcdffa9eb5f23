// The command `edit`.
ghost use Rattle.std.specs.Prelude.{◌≢◌, ◌≤◌, length, All, IfOk};
ghost use Rattle.edit_session.specs.Sessions.{IsCommandOf};
ghost use Rattle.session_script.specs.Reading.{most_commands};
ghost use Rattle.session_script.specs.Sessions.{IsSession, HasFault};
ghost use Rattle.solver_top.specs.Editing.{IsEditAnswer};

use crate::answers::Answer;
use crate::status::Verdict;
use mcp_outside::NoMemory;
use session_script::{SessionFault, SessionScript, read_session, refused_line, session_text};
use std::alloc::Global;

/// What `edit` answers to an input.
pub fn edited(alloc: Global, bytes: &[u8]) -> Result<Answer, NoMemory>
    ensures { IfOk result (λ answer. IsEditAnswer bytes.now answer.verdict answer.text.items) }
{
    match read_session(alloc, bytes) {
        Ok(script) => played(alloc, bytes, script),
        Err(SessionFault::NoMemory) => Err(NoMemory),
        Err(fault) => refused_session(alloc, bytes, fault),
    }
}

// The replies to the commands of the session that an input is.
fn played(alloc: Global, bytes: &[u8], script: SessionScript) -> Result<Answer, NoMemory>
    requires read { IsSession bytes.now script.points script.costs script.commands.items }
    requires commands { All (IsCommandOf (length script.points)) script.commands.items }
    requires few { length script.commands.items ≤ most_commands }
    ensures { IfOk result (λ answer. IsEditAnswer bytes.now answer.verdict answer.text.items) }
{
    let _ = bytes;
    let text = session_text(alloc, script)?;
    Ok(Answer {
        verdict: Verdict::Done,
        text,
    })
}

// The refusal of an input that is no session, with its first fault.
fn refused_session(alloc: Global, bytes: &[u8], fault: SessionFault) -> Result<Answer, NoMemory>
    requires named { fault ≢ SessionFault.NoMemory }
    requires fault { HasFault bytes.now fault }
    ensures { IfOk result (λ answer. IsEditAnswer bytes.now answer.verdict answer.text.items) }
{
    let _ = bytes;
    let line = refused_line(alloc, fault)?;
    Ok(Answer::of_line(Verdict::Refused, line))
}
