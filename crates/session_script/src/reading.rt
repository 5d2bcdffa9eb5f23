// The session that a text is.
ghost use Rattle.std.specs.Prelude.{◌≡◌, ◌≤◌, map, length, Some, All, IfOk, MatchResult};
ghost use Rattle.serde_json.specs.View.{view};
ghost use Rattle.text_defs.specs.Reading.{json_reading};
ghost use Rattle.edit_session.specs.Sessions.{IsCommandOf};
ghost use Rattle.session_script.specs.Reading.{most_commands};
ghost use Rattle.session_script.specs.Sessions.{HasParts, IsSession, HasFault};
ghost use Rattle.session_script.specs.Told.{IsSessionOf};

use crate::commands::commands_in;
use crate::script::{SessionFault, SessionScript};
use instance_io::{InstanceFault, instance_of};
use json_text::{TextFault, array_at, value_of};
use serde_json::Value;
use std::alloc::Global;

/// The session that a text is, or its first fault, in the order in which the faults stand in `SessionFault`. Other keys are
/// ignored. (This project's own.)
pub fn read_session(alloc: Global, bytes: &[u8]) -> Result<SessionScript, SessionFault>
    ensures answer { MatchResult result (λ script. IsSession bytes.now script.points script.costs script.commands.items)
        (HasFault bytes.now) }
    ensures commands { IfOk result (λ script. All (IsCommandOf (length script.points)) script.commands.items) }
    ensures few { IfOk result (λ script. length script.commands.items ≤ most_commands) }
{
    match value_of(alloc, bytes) {
        Ok(value) => session_of(alloc, bytes, &value),
        Err(TextFault::NotJson) => Err(SessionFault::NotJson),
        Err(TextFault::NoMemory) => Err(SessionFault::NoMemory),
    }
}

// The session of the value that an input is.
fn session_of(alloc: Global, bytes: &[u8], value: &Value) -> Result<SessionScript, SessionFault>
    requires { json_reading bytes.now ≡ Some (view value.now) }
    ensures { MatchResult result (IsSessionOf bytes.now) (HasFault bytes.now) }
{
    let Some(instance) = value.get("instance") else {
        return Err(SessionFault::NoInstance);
    };
    let Some(items) = array_at(value, "commands") else {
        return Err(SessionFault::NoCommands);
    };
    parts_session(alloc, bytes, instance, items)
}

// The session of the parts of an input.
fn parts_session(
    alloc: Global,
    bytes: &[u8],
    instance: &Value,
    items: &[Value],
) -> Result<SessionScript, SessionFault>
    requires { HasParts bytes.now (view instance.now) (map view items.now) }
    ensures { MatchResult result (IsSessionOf bytes.now) (HasFault bytes.now) }
{
    let _ = bytes;
    let (points, costs) = match instance_of(alloc, instance) {
        Ok(instance) => (instance.points, instance.costs),
        Err(InstanceFault::NoMemory) => return Err(SessionFault::NoMemory),
        Err(fault) => return Err(SessionFault::Instance(fault)),
    };
    match commands_in(alloc, items, points.len()) {
        Ok(commands) => Ok(SessionScript {
            points,
            costs,
            commands,
        }),
        Err(fault) => Err(fault),
    }
}
