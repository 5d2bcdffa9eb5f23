// The steps of a script: arrays that begin with a tag.
ghost use Rattle.std.specs.Prelude.{◌≡◌, ◌≤◌, map, length, option_map};
ghost use Rattle.serde_json.specs.View.{view};
ghost use Rattle.weave_script.specs.Reading.{tagged, step_of, step_items, most_steps};
ghost use Rattle.weave_script.specs.Scripts.{step_item};
ghost use Rattle.weave_script.specs.Told.{IsOr, Answers, tell_steps};

use crate::edits::edits_of;
use crate::script::ScriptFault;
use json_text::{array_of, is_tag, number_within};
use serde_json::Value;
use std::alloc::Global;
use weave::Step;

const MOST_STEPS: usize = 100_000;

const MOST_CALLERS: u64 = 16;

// What the last item of a step is, by the step's tag: a place from 0 to n, or edits.
fn tagged(tag: &Value, caller: u32, last: &Value, n: u32) -> Option<Step>
    ensures { option_map step_item result ≡ tagged n (view tag.now) caller (view last.now) }
{
    if is_tag(tag, "take") {
        let place = number_within(last, 0, u64::from(n))? as u32;
        Some(Step::Take { caller, place })
    } else if is_tag(tag, "append") {
        let edits = edits_of(last, n)?;
        Some(Step::Append { caller, edits })
    } else if is_tag(tag, "back") {
        let place = number_within(last, 0, u64::from(n))? as u32;
        Some(Step::Back { caller, place })
    } else {
        None
    }
}

// The step that an item is, over n points.
fn step_of(item: &Value, n: u32) -> Option<Step>
    ensures { option_map step_item result ≡ step_of n (view item.now) }
{
    let items = array_of(item)?;
    if items.len() != 3 {
        return None;
    }
    let caller = number_within(&items[1], 1, MOST_CALLERS)?;
    tagged(&items[0], caller as u32, &items[2], n)
}

/// The steps of items over `n` points, or their first fault.
pub fn steps_in(alloc: Global, items: &[Value], n: u32) -> Result<Vec<Step>, ScriptFault>
    ensures { Answers tell_steps (step_items n (map view items.now)) result }
{
    if items.len() > MOST_STEPS {
        return Err(too_many_steps(items.len()));
    }
    steps_of(alloc, items, n)
}

// The fault of so many steps; a number past 32 bits is taken as a want of memory.
fn too_many_steps(count: usize) -> ScriptFault
    ensures { IsOr (ScriptFault.TooManySteps count) result }
{
    match u32::try_from(count) {
        Ok(count) => ScriptFault::TooManySteps(count),
        Err(_) => ScriptFault::NoMemory,
    }
}

// The steps of at most 100,000 items in their order, or the fault of the first that is no step.
fn steps_of(alloc: Global, items: &[Value], n: u32) -> Result<Vec<Step>, ScriptFault>
    requires { length items.now ≤ most_steps }
    ensures { Answers tell_steps (step_items n (map view items.now)) result }
{
    let Ok(mut steps) = Vec::with_capacity(alloc, items.len()) else {
        return Err(ScriptFault::NoMemory);
    };
    for (place, item) in items.iter().enumerate() {
        let Some(step) = step_of(item, n) else {
            return Err(ScriptFault::BadStep(place as u32));
        };
        let Ok(_) = steps.push(step) else {
            return Err(ScriptFault::NoMemory);
        };
    }
    Ok(steps)
}
