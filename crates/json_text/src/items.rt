// The items of arrays: numbers that are JSON numbers, and texts that tell what an array is.
ghost use Rattle.std.specs.Prelude.{◌≡◌, ◌<◌, ◌≤◌, IfSome, option_and_then};
ghost use Rattle.serde_json.specs.View.{view};
ghost use Rattle.serde_json.specs.Find.{get};
ghost use Rattle.text_defs.specs.Items.{number_within, index, is_tag};

use serde_json::Value;

/// The number from `low` to `high` that the value is, or none. A text is no number here.
pub fn number_within(value: &Value, low: u64, high: u64) -> Option<u64>
    ensures value { result ≡ number_within low high (view value.now) }
    ensures bound { IfSome result (λ n. (low ≤ n) × (n ≤ high)) }
{
    let number = value.as_u64()?;
    if low <= number && number <= high {
        Some(number)
    } else {
        None
    }
}

/// The number from `low` to `high` under a key, or none.
pub fn number_at(value: &Value, key: &str, low: u64, high: u64) -> Option<u64>
    ensures value { result ≡ option_and_then (number_within low high) (get key.now (view value.now)) }
    ensures bound { IfSome result (λ n. (low ≤ n) × (n ≤ high)) }
{
    match value.get(key) {
        Some(found) => number_within(found, low, high),
        None => None,
    }
}

/// The number below `count` that the value is, or none. A text is no number here.
pub fn index(value: &Value, count: u32) -> Option<u32>
    ensures value { result ≡ index count (view value.now) }
    ensures bound { IfSome result (λ i. i < count) }
{
    let number = value.as_u64()?;
    if number < u64::from(count) {
        Some(number as u32)
    } else {
        None
    }
}

/// Whether the value is this text.
pub fn is_tag(value: &Value, tag: &str) -> bool
    ensures { result ≡ is_tag tag.now (view value.now) }
{
    match value.as_str() {
        Some(text) => tag == text,
        None => false,
    }
}
