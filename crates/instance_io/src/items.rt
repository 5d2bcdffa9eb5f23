// One item of the points.
ghost use Rattle.std.specs.Prelude.{◌≡◌, ◌<◌, true, false, MatchOption, IfSome};
ghost use Rattle.serde_json.specs.View.{view};
ghost use Rattle.text_defs.specs.Instances.{has_both, is_point, point_of, index_in};
ghost use Rattle.instance_io.specs.Refusal.{coordinates};

use json_text::{below, has, whole_at};
use plane::Point;
use serde_json::Value;

pub(crate) fn has_both(item: &Value) -> bool
    ensures { result ≡ has_both (view item.now) }
{
    has(item, "x") && has(item, "y")
}

// The point that an item is, or none.
pub(crate) fn point_of(item: &Value) -> Option<Point>
    ensures { MatchOption result (is_point (view item.now) ≡ false)
        (λ p. (is_point (view item.now) ≡ true) × (coordinates p ≡ point_of (view item.now))) }
{
    match (whole_at(item, "x"), whole_at(item, "y")) {
        (Some(x), Some(y)) => Some(Point { x, y }),
        _ => None,
    }
}

// The index of an item among `count`, or none.
pub(crate) fn index_of(item: &Value, count: usize) -> Option<usize>
    ensures value { result ≡ index_in count (view item.now) }
    ensures bound { IfSome result (λ i. i < count) }
{
    match whole_at(item, "i") {
        Some(i) => below(i, count),
        None => None,
    }
}
