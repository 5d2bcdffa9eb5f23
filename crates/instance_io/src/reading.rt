// A text as a JSON value, refused by an instance's fault.
ghost use Rattle.std.specs.Prelude.{◌≡◌, MatchResult, Some};
ghost use Rattle.serde_json.specs.View.{view};
ghost use Rattle.text_defs.specs.Reading.{json_reading};
ghost use Rattle.instance_io.specs.Refusal.{RefusesText};

use crate::instances::InstanceFault;
use json_text::{TextFault, value_of};
use serde_json::Value;
use std::alloc::Global;

/// The value of a text, whose numbers are rewritten first. The fault is `NotJson`, exactly where the text has
/// more than 64 levels or no reading, or `NoMemory`.
pub fn read_value(alloc: Global, bytes: &[u8]) -> Result<Value, InstanceFault>
    ensures { MatchResult result (λ value. json_reading bytes.now ≡ Some (view value))
        (λ fault. RefusesText fault (json_reading bytes.now)) }
{
    match value_of(alloc, bytes) {
        Ok(value) => Ok(value),
        Err(TextFault::NotJson) => Err(InstanceFault::NotJson),
        Err(TextFault::NoMemory) => Err(InstanceFault::NoMemory),
    }
}
