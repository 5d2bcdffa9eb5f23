// The pairs of an array of items.
ghost use Rattle.std.specs.Prelude.{◌≡◌, ◌<◌, ◌≤◌, ◌^◌, map, length, false, true, is_some, option_map};
ghost use Rattle.serde_json.specs.View.{view};
ghost use Rattle.text_defs.specs.Solutions.{edge_of, edges_of, end_at, most_edges};
ghost use Rattle.instance_io.specs.Refusal.{ends};
ghost use Rattle.solution_io.specs.Refusal.{IsRead};

use crate::fault::SolutionFault;
use instance_io::pair_of;
use json_text::{below, whole_at};
use plane::Pair;
use serde_json::Value;
use std::alloc::Global;

// The index below n under a key.
fn end_at(item: &Value, key: &str, n: u32) -> Option<u32>
    ensures { result ≡ end_at n key.now (view item.now) }
{
    match whole_at(item, key) {
        Some(number) => match below(number, n as usize) {
            Some(index) => Some(index as u32),
            None => None,
        },
        None => None,
    }
}

// The pair that an item is, or none.
fn edge_of(item: &Value, n: u32) -> Option<Pair>
    ensures { option_map ends result ≡ edge_of n (view item.now) }
{
    match end_at(item, "i", n) {
        Some(i) => match end_at(item, "j", n) {
            Some(j) => pair_of(i, j),
            None => None,
        },
        None => None,
    }
}

// The pairs of at most 20,000 items in their order, or the fault of the first that is no pair.
pub(crate) fn edges_of(alloc: Global, items: &[Value], n: u32) -> Result<Vec<Pair>, SolutionFault>
    requires { length items.now ≤ most_edges }
    ensures { IsRead (edges_of n (map view items.now)) result }
{
    let Ok(mut pairs) = Vec::with_capacity(alloc, items.len()) else {
        return Err(SolutionFault::NoMemory);
    };
    for (place, item) in items.iter().enumerate() {
        let Some(pair) = edge_of(item, n) else {
            return Err(SolutionFault::BadEdge(place as u32));
        };
        let Ok(_) = pairs.push(pair) else {
            return Err(SolutionFault::NoMemory);
        };
    }
    Ok(pairs)
}
