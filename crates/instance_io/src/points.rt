// The points of an array of items.
ghost use Rattle.std.specs.Prelude.{◌≡◌, ◌<◌, ◌^◌, map, length, true, false, slice_index_or, None, Some, option_map};
ghost use Rattle.std.specs.Prelude.{MatchOption, MatchResult};
ghost use Rattle.std.specs.List.{position};
ghost use Rattle.serde_json.specs.View.{view};
ghost use Rattle.text_defs.specs.Instances.{point_fault, point_of, has_index, is_indexed, differs, index_in};
ghost use Rattle.text_defs.specs.Instances.{index_fault, points_fault, points_of};
ghost use Rattle.instance_io.specs.Refusal.{coordinates};
ghost use Rattle.instance_io.specs.Told.{Tells, is_seen, lack_of};

use crate::instances::InstanceFault;
use crate::items::{has_both, index_of, point_of};
use json_text::has;
use plane::Point;
use serde_json::Value;
use std::alloc::Global;

const ORIGIN: Point = Point { x: 0, y: 0 };

// The points of the items by index, or the first fault of the items.
pub(crate) fn points_of(alloc: Global, items: &[Value]) -> Result<Vec<Point>, InstanceFault>
    requires { length items.now < 2 ^ 32 }
    ensures { MatchResult result
        (λ points. (points_fault (map view items.now) ≡ None)
        × (map coordinates points.items ≡ points_of (map view items.now)))
        (λ fault. Tells fault (points_fault (map view items.now))) }
{
    let points = match points_by_place(alloc, items) {
        Ok(points) => points,
        Err(fault) => return Err(fault),
    };
    if let Some(place) = first_mixed(items) {
        return Err(InstanceFault::MixedIndex(place));
    }
    if is_indexed(items) {
        points_by_index(alloc, items, &points)
    } else {
        Ok(points)
    }
}

// The points of the items by their places, or the fault of the first that is no point.
fn points_by_place(alloc: Global, items: &[Value]) -> Result<Vec<Point>, InstanceFault>
    requires { length items.now < 2 ^ 32 }
    ensures { MatchResult result
        (λ points. (point_fault (map view items.now) ≡ None)
        × (map coordinates points.items ≡ map point_of (map view items.now)))
        (λ fault. Tells fault (point_fault (map view items.now))) }
{
    let Ok(mut points) = Vec::with_capacity(alloc, items.len()) else {
        return Err(InstanceFault::NoMemory);
    };
    for (place, item) in items.iter().enumerate() {
        let Some(point) = point_of(item) else {
            return Err(lack_of(item, place as u32));
        };
        let Ok(_) = points.push(point) else {
            return Err(InstanceFault::NoMemory);
        };
    }
    Ok(points)
}

// What an item lacks that is no point.
fn lack_of(item: &Value, place: u32) -> InstanceFault
    ensures { result ≡ lack_of (view item.now) place }
{
    if has_both(item) {
        InstanceFault::NotWhole(place)
    } else {
        InstanceFault::BadPoint(place)
    }
}

fn is_indexed(items: &[Value]) -> bool
    ensures { result ≡ is_indexed (map view items.now) }
{
    match items.first() {
        Some(item) => has(item, "i"),
        None => false,
    }
}

fn differs(a: bool, b: bool) -> bool
    ensures { result ≡ differs a b }
{
    a != b
}

// The first place that has an index where item 0 hasn't, or the reverse.
fn first_mixed(items: &[Value]) -> Option<u32>
    requires { length items.now < 2 ^ 32 }
    ensures { result ≡ position (λ d. differs (is_indexed (map view items.now)) (has_index d)) (map view items.now) }
{
    let indexed = is_indexed(items);
    for (place, item) in items.iter().enumerate() {
        if differs(indexed, has(item, "i")) {
            return Some(place as u32);
        }
    }
    None
}

// The points by the indices of their items, or the first place whose index isn't below the count or stood before.
fn points_by_index(
    alloc: Global,
    items: &[Value],
    points: &[Point],
) -> Result<Vec<Point>, InstanceFault>
    requires short { length items.now < 2 ^ 32 }
    requires all { map coordinates points.now ≡ map point_of (map view items.now) }
    requires indexed { is_indexed (map view items.now) ≡ true }
    ensures { MatchResult result
        (λ placed. (index_fault (map view items.now) ≡ None)
        × (map coordinates placed.items ≡ points_of (map view items.now)))
        (λ fault. Tells fault (index_fault (map view items.now))) }
{
    let Ok(mut seen) = vec![in alloc; false; items.len()] else {
        return Err(InstanceFault::NoMemory);
    };
    let Ok(mut placed) = vec![in alloc; ORIGIN; items.len()] else {
        return Err(InstanceFault::NoMemory);
    };
    for (place, item) in items.iter().enumerate() {
        let Some(index) = new_index(item, &seen) else {
            return Err(InstanceFault::BadIndex(place as u32));
        };
        seen[index] = true;
        placed[index] = points[place];
    }
    Ok(placed)
}

// The index of an item, unless it isn't below the count or stood before.
fn new_index(item: &Value, seen: &[bool]) -> Option<usize>
    ensures { MatchOption result (is_seen seen.now (length seen.now) (view item.now) ≡ true)
        (λ i. (is_seen seen.now (length seen.now) (view item.now) ≡ false)
        × (index_in (length seen.now) (view item.now) ≡ Some i) × (i < length seen.now)) }
{
    match index_of(item, seen.len()) {
        Some(index) => { if seen[index] { None } else { Some(index) } }
        None => None,
    }
}
