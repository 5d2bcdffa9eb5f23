// The fields and items of a value, and the numbers that they give.
ghost use Rattle.std.specs.Prelude.{◌≡◌, ◌<◌, option_map, option_and_then, IfSome};
ghost use Rattle.serde_json.specs.View.{view, items_view};
ghost use Rattle.serde_json.specs.Find.{get, as_str, as_array};
ghost use Rattle.text_defs.specs.Fields.{array_at, has, whole_at, below, whole_below};

use crate::whole_numbers::whole;
use serde_json::Value;

/// Whether the value is an object with this key.
pub fn has(value: &Value, key: &str) -> bool
    ensures { result ≡ has key.now (view value.now) }
{
    value.get(key).is_some()
}

/// The text under a key.
pub fn text_at<'v>(value: &'v Value, key: &str) -> Option<&'v str>
    ensures { option_map (λ s. s.now) result ≡ option_and_then as_str (get key.now (view value.now)) }
{
    match value.get(key) {
        Some(found) => found.as_str(),
        None => None,
    }
}

/// The items that the value is an array of.
pub fn array_of(value: &Value) -> Option<&[Value]>
    ensures { option_map (λ items. items_view items.now) result ≡ as_array (view value.now) }
{
    match value.as_array() {
        Some(items) => Some(items.as_slice()),
        None => None,
    }
}

/// The array under a key.
pub fn array_at<'v>(value: &'v Value, key: &str) -> Option<&'v [Value]>
    ensures { option_map (λ items. items_view items.now) result ≡ array_at key.now (view value.now) }
{
    match value.get(key) {
        Some(found) => array_of(found),
        None => None,
    }
}

/// The whole number under a key.
pub fn whole_at(value: &Value, key: &str) -> Option<i64>
    ensures { result ≡ whole_at key.now (view value.now) }
{
    match value.get(key) {
        Some(found) => whole(found),
        None => None,
    }
}

/// A whole number as an index below `count`, or none.
pub fn below(number: i64, count: usize) -> Option<usize>
    ensures value { result ≡ below count number }
    ensures bound { IfSome result (λ i. i < count) }
{
    if number < 0 || number as u64 >= count as u64 {
        None
    } else {
        Some(number as usize)
    }
}

/// The whole number below `count` that a value gives, or none.
pub fn whole_below(value: &Value, count: u32) -> Option<u32>
    ensures value { result ≡ whole_below count (view value.now) }
    ensures bound { IfSome result (λ i. i < count) }
{
    match whole(value) {
        Some(number) => match below(number, count as usize) {
            Some(index) => Some(index as u32),
            None => None,
        },
        None => None,
    }
}
