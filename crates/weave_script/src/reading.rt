// The script that a text is.
ghost use Rattle.std.specs.Prelude.{◌≡◌, ◌≤◌, map, length, Some, All, IfOk, MatchResult};
ghost use Rattle.serde_json.specs.View.{view};
ghost use Rattle.text_defs.specs.Reading.{json_reading};
ghost use Rattle.weave.specs.Answers.{IsStepOf};
ghost use Rattle.weave_script.specs.Reading.{most_steps};
ghost use Rattle.weave_script.specs.Scripts.{HasParts, IsScript, HasFault};
ghost use Rattle.weave_script.specs.Told.{IsScriptOf};

use crate::script::{Script, ScriptFault};
use crate::steps::steps_in;
use instance_io::{InstanceFault, instance_of};
use json_text::{TextFault, array_at, value_of};
use serde_json::Value;
use std::alloc::Global;

/// The script that a text is, or its first fault, in the order in which the faults stand in `ScriptFault`. Other keys are
/// ignored. (This project's own.)
pub fn read_script(alloc: Global, bytes: &[u8]) -> Result<Script, ScriptFault>
    ensures answer { MatchResult result (λ script. IsScript bytes.now script.points script.steps.items)
        (HasFault bytes.now) }
    ensures steps { IfOk result (λ script. All (IsStepOf (length script.points)) script.steps.items) }
    ensures few { IfOk result (λ script. length script.steps.items ≤ most_steps) }
{
    match value_of(alloc, bytes) {
        Ok(value) => script_of(alloc, bytes, &value),
        Err(TextFault::NotJson) => Err(ScriptFault::NotJson),
        Err(TextFault::NoMemory) => Err(ScriptFault::NoMemory),
    }
}

// The script of the value that an input is.
fn script_of(alloc: Global, bytes: &[u8], value: &Value) -> Result<Script, ScriptFault>
    requires { json_reading bytes.now ≡ Some (view value.now) }
    ensures { MatchResult result (IsScriptOf bytes.now) (HasFault bytes.now) }
{
    let Some(instance) = value.get("instance") else {
        return Err(ScriptFault::NoInstance);
    };
    let Some(items) = array_at(value, "steps") else {
        return Err(ScriptFault::NoSteps);
    };
    parts_script(alloc, bytes, instance, items)
}

// The script of the parts of an input.
fn parts_script(
    alloc: Global,
    bytes: &[u8],
    instance: &Value,
    items: &[Value],
) -> Result<Script, ScriptFault>
    requires { HasParts bytes.now (view instance.now) (map view items.now) }
    ensures { MatchResult result (IsScriptOf bytes.now) (HasFault bytes.now) }
{
    let _ = bytes;
    let points = match instance_of(alloc, instance) {
        Ok(instance) => instance.points,
        Err(InstanceFault::NoMemory) => return Err(ScriptFault::NoMemory),
        Err(fault) => return Err(ScriptFault::Instance(fault)),
    };
    match steps_in(alloc, items, points.len()) {
        Ok(steps) => Ok(Script { points, steps }),
        Err(fault) => Err(fault),
    }
}
