// The commands of a session, played on the core of its start.
ghost use Rattle.std.specs.Prelude.{◌≡◌, ◌≤◌, All, IfOk, length};
ghost use Rattle.edit_session.specs.Sessions.{IsCommandOf};
ghost use Rattle.session_script.specs.Lines.{replies_text};
ghost use Rattle.session_script.specs.Playing.{IsPlayed};
ghost use Rattle.session_script.specs.Reading.{most_commands};

use crate::lines::reply_line;
use crate::script::SessionScript;
use edit_session::{Reply, session};
use mcp_outside::NoMemory;
use std::alloc::Global;
use weave_script::{core_of, push_end};

// A line for each reply.
fn reply_lines(alloc: Global, replies: &[Reply]) -> Result<Vec<u8>, NoMemory>
    ensures { IfOk result (λ text. text.items ≡ replies_text replies.now) }
{
    let mut text = Vec::new(alloc);
    for reply in replies {
        let line = reply_line(alloc, reply)?;
        text.extend_from_slice(line.as_bytes())?;
    }
    Ok(text)
}

/// What the commands of a session are replied, a line for each, and a last line with the length of the journal and the
/// number of kept segments. The core is that of the start, unswept. (This project's own.)
pub fn session_text(alloc: Global, script: SessionScript) -> Result<Vec<u8>, NoMemory>
    requires commands { All (IsCommandOf (length script.points)) script.commands.items }
    requires few { length script.commands.items ≤ most_commands }
    ensures { IfOk result (λ text. IsPlayed script.points script.costs script.commands.items text.items) }
{
    let core = core_of(alloc, script.points)?;
    match session(alloc, core, &script.costs, &script.commands) {
        Ok(played) => {
            let mut text = reply_lines(alloc, played.replies.as_slice())?;
            push_end(&mut text, alloc, &played.core)?;
            Ok(text)
        }
        Err((_, fault)) => Err(fault),
    }
}
