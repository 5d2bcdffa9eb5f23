// The commands of a session: arrays that begin with a tag.
ghost use Rattle.std.specs.Prelude.{◌≡◌, ◌≤◌, map, length, option_map};
ghost use Rattle.serde_json.specs.View.{view};
ghost use Rattle.session_script.specs.Reading.{alone, tagged, command_of, command_items, most_commands};
ghost use Rattle.session_script.specs.Sessions.{command_item};
ghost use Rattle.session_script.specs.Told.{IsOr, Answers, tell_commands};

use crate::script::SessionFault;
use edit_session::EditCommand;
use json_text::{array_of, index, is_tag};
use serde_json::Value;
use std::alloc::Global;
use weave_script::edits_of;

const MOST_COMMANDS: usize = 100_000;

// The command that a tag alone is.
fn alone(tag: &Value) -> Option<EditCommand>
    ensures { option_map command_item result ≡ alone (view tag.now) }
{
    if is_tag(tag, "undo") {
        Some(EditCommand::Undo)
    } else if is_tag(tag, "bound") {
        Some(EditCommand::Bound)
    } else {
        None
    }
}

// The command of a tag and a vertex below n, or edits.
fn tagged(tag: &Value, last: &Value, n: u32) -> Option<EditCommand>
    ensures { option_map command_item result ≡ tagged n (view tag.now) (view last.now) }
{
    if is_tag(tag, "look") {
        let v = index(last, n)?;
        Some(EditCommand::Look(v))
    } else if is_tag(tag, "commit") {
        let edits = edits_of(last, n)?;
        Some(EditCommand::Commit(edits))
    } else {
        None
    }
}

// The command that an item is, over n points.
fn command_of(item: &Value, n: u32) -> Option<EditCommand>
    ensures { option_map command_item result ≡ command_of n (view item.now) }
{
    let items = array_of(item)?;
    if items.len() == 1 {
        return alone(&items[0]);
    }
    if items.len() != 2 {
        return None;
    }
    tagged(&items[0], &items[1], n)
}

/// The commands of items over `n` points, or their first fault.
pub fn commands_in(alloc: Global, items: &[Value], n: u32) -> Result<Vec<EditCommand>, SessionFault>
    ensures { Answers tell_commands (command_items n (map view items.now)) result }
{
    if items.len() > MOST_COMMANDS {
        return Err(too_many_commands(items.len()));
    }
    commands_of(alloc, items, n)
}

// The fault of so many commands; a number past 32 bits is taken as a want of memory.
fn too_many_commands(count: usize) -> SessionFault
    ensures { IsOr (SessionFault.TooManyCommands count) result }
{
    match u32::try_from(count) {
        Ok(count) => SessionFault::TooManyCommands(count),
        Err(_) => SessionFault::NoMemory,
    }
}

// The commands of at most 100,000 items in their order, or the fault of the first that is no command.
fn commands_of(alloc: Global, items: &[Value], n: u32) -> Result<Vec<EditCommand>, SessionFault>
    requires { length items.now ≤ most_commands }
    ensures { Answers tell_commands (command_items n (map view items.now)) result }
{
    let Ok(mut commands) = Vec::with_capacity(alloc, items.len()) else {
        return Err(SessionFault::NoMemory);
    };
    for (place, item) in items.iter().enumerate() {
        let Some(command) = command_of(item, n) else {
            return Err(SessionFault::BadCommand(place as u32));
        };
        let Ok(_) = commands.push(command) else {
            return Err(SessionFault::NoMemory);
        };
    }
    Ok(commands)
}
