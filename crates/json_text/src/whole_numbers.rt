// The whole number that a value gives.
ghost use Rattle.std.specs.Prelude.{◌≡◌, ◌&&◌, nat_lt, length};
ghost use Rattle.std.specs.List.{list_all};
ghost use Rattle.std.specs.Char.{is_ascii_digit};
ghost use Rattle.serde_json.specs.View.{view};
ghost use Rattle.text_defs.specs.Whole.{whole, whole_of_text, nearest_64};

use crate::numbers::{CAP, after_minus, capped_value};
use serde_json::Value;

/// The whole number of 64 bits with a sign that the value gives: a number that is one, or a string of an
/// optional minus and digits, at its value or the nearer of the two bounds (this project's own).
pub fn whole(value: &Value) -> Option<i64>
    ensures { result ≡ whole (view value.now) }
{
    match value {
        Value::Number(number) => number.as_i64(),
        Value::String(text) => whole_of_text(text.as_bytes()),
        _ => None,
    }
}

fn whole_of_text(text: &[u8]) -> Option<i64>
    ensures { result ≡ whole_of_text text.now }
{
    let digits = after_minus(text);
    if are_digits(digits) {
        Some(nearest(digits.len() < text.len(), capped_value(digits)))
    } else {
        None
    }
}

fn are_digits(digits: &[u8]) -> bool
    ensures { result ≡ (nat_lt 0 (length digits.now) && list_all is_ascii_digit digits.now) }
{
    !digits.is_empty() && all_digits(digits)
}

fn all_digits(digits: &[u8]) -> bool
    ensures { result ≡ list_all is_ascii_digit digits.now }
{
    digits.iter().all(|c| c.is_ascii_digit())
}

// The number under its sign, or the nearer bound of 64 bits.
fn nearest(minus: bool, value: u64) -> i64
    ensures { result ≡ nearest_64 minus value }
{
    if !minus {
        value.min(CAP - 2) as i64
    } else if value >= CAP - 1 {
        i64::MIN
    } else {
        -(value as i64)
    }
}
