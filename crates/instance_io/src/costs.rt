// The costs of the items of a value.
ghost use Rattle.std.specs.Prelude.{◌≡◌, ◌<◌, ◌≤◌, ◌^◌, map, length, option_map, filter, IfOk, MatchResult};
ghost use Rattle.serde_json.specs.View.{view};
ghost use Rattle.text_defs.specs.Fields.{pair_of};
ghost use Rattle.text_defs.specs.Costs.{whole_pair, cost_of, costs_of, costs_in, most_costs};
ghost use Rattle.instance_io.specs.Refusal.{ends, cost_item};
ghost use Rattle.instance_io.specs.Reading.{GivesCosts, is_listed};
ghost use Rattle.instance_io.specs.Told.{TellsCosts, AreTooManyCosts, error};

use crate::instances::InstanceFault;
use cost_defs::{Costs, MOST_COST};
use json_text::{array_of, whole_below};
use plane::Pair;
use serde_json::Value;
use std::alloc::{AllocError, Global};
use std::collections::BTreeMap;

const MOST_COSTS: usize = 300_000;

// The costs under the key `costs` of a value that is an instance with n points, or their first fault.
pub(crate) fn costs_in(alloc: Global, value: &Value, n: u32) -> Result<Costs, InstanceFault>
    ensures { MatchResult result (λ costs. GivesCosts (costs_in n (view value.now)) costs)
        (λ fault. TellsCosts fault (error (costs_in n (view value.now)))) }
{
    let Some(found) = value.get("costs") else {
        return Ok(Costs::unit());
    };
    let Some(items) = array_of(found) else {
        return Err(InstanceFault::BadCosts);
    };
    if items.len() > MOST_COSTS {
        return Err(too_many(items.len()));
    }
    costs_of(alloc, items, n)
}

// The fault of so many items; a number past 32 bits is taken as a want of memory.
fn too_many(count: usize) -> InstanceFault
    ensures { AreTooManyCosts count result }
{
    match u32::try_from(count) {
        Ok(count) => InstanceFault::TooManyCosts(count),
        Err(_) => InstanceFault::NoMemory,
    }
}

// The costs of at most 300,000 items, or the fault of the first that gives none or a pair that stood before.
fn costs_of(alloc: Global, items: &[Value], n: u32) -> Result<Costs, InstanceFault>
    requires { length items.now ≤ most_costs }
    ensures { MatchResult result (λ costs. GivesCosts (costs_of n (map view items.now)) costs)
        (λ fault. TellsCosts fault (error (costs_of n (map view items.now)))) }
{
    let mut found = BTreeMap::new(alloc);
    for (place, item) in items.iter().enumerate() {
        let Some((pair, cost)) = cost_of(item, n) else {
            return Err(InstanceFault::BadCost(place as u32));
        };
        match found.insert(pair, cost) {
            Ok(None) => {}
            Ok(Some(_)) => return Err(InstanceFault::BadCost(place as u32)),
            Err(_) => return Err(InstanceFault::NoMemory),
        }
    }
    let _count = found.len();
    match listed(alloc, &found) {
        Ok(list) => Ok(Costs::make(list)),
        Err(_) => Err(InstanceFault::NoMemory),
    }
}

// The pairs whose cost isn't 1, ascending.
fn listed(alloc: Global, found: &BTreeMap<Pair, u32>) -> Result<Vec<(Pair, u32)>, AllocError>
    ensures { IfOk result (λ list. list.items ≡ filter is_listed found.now.entries) }
{
    let mut list = Vec::new(alloc);
    for (pair, cost) in found {
        if *cost != 1 {
            list.push((*pair, *cost))?;
        }
    }
    Ok(list)
}

// The pair and the cost that an item is, or none.
fn cost_of(item: &Value, n: u32) -> Option<(Pair, u32)>
    ensures { option_map cost_item result ≡ cost_of n (view item.now) }
{
    let items = array_of(item)?;
    if items.len() != 3 {
        return None;
    }
    let pair = whole_pair(&items[0], &items[1], n)?;
    let cost = whole_below(&items[2], MOST_COST + 1)?;
    Some((pair, cost))
}

// The pair of two values that are different indices below n, or none.
fn whole_pair(first: &Value, second: &Value, n: u32) -> Option<Pair>
    ensures { option_map ends result ≡ whole_pair n (view first.now) (view second.now) }
{
    let i = whole_below(first, n)?;
    let j = whole_below(second, n)?;
    pair_of(i, j)
}

/// The pair of two indices, the smaller first, or none where they are equal.
pub fn pair_of(i: u32, j: u32) -> Option<Pair>
    ensures { option_map ends result ≡ pair_of i j }
{
    if i == j { None } else { Some(Pair::of(i, j)) }
}
