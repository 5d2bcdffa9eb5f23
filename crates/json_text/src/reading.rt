// A text as a JSON value.
ghost use Rattle.std.specs.Prelude.{◌≡◌, MatchResult, Some};
ghost use Rattle.serde_json.specs.View.{view};
ghost use Rattle.text_defs.specs.Reading.{json_reading};
ghost use Rattle.json_text.specs.Refusal.{RefusesText};

use crate::levels::has_few_levels;
use crate::rewriting::plain_numbers;
use serde_json::Value;
use std::alloc::Global;

/// Why a text has no value.
#[derive(Clone, Copy, Debug, PartialEq, Eq)]
pub enum TextFault {
    /// The text has more than 64 levels, or no reading as JSON.
    NotJson,
    /// Memory was not found.
    NoMemory,
}

/// The value of a text, whose numbers are rewritten first. The fault is `NotJson` exactly where the text has more than
/// 64 levels or no reading. (This project's own.)
pub fn value_of(alloc: Global, bytes: &[u8]) -> Result<Value, TextFault>
    ensures { MatchResult result (λ value. json_reading bytes.now ≡ Some (view value))
        (λ fault. RefusesText fault (json_reading bytes.now)) }
{
    if !has_few_levels(bytes) {
        return Err(TextFault::NotJson);
    }
    let plain = match plain_numbers(alloc, bytes) {
        Ok(plain) => plain,
        Err(_) => return Err(TextFault::NoMemory),
    };
    match Value::from_slice(alloc, &plain) {
        Ok(value) => Ok(value),
        Err(error) => {
            if error.is_memory() {
                Err(TextFault::NoMemory)
            } else {
                Err(TextFault::NotJson)
            }
        }
    }
}
