// The instance of a value and of a text.
ghost use Rattle.std.specs.Prelude.{◌≡◌, ◌<◌, ◌^◌, map, vec_len, Ok, IfOk, MatchResult};
ghost use Rattle.serde_json.specs.View.{view};
ghost use Rattle.text_defs.specs.Instances.{name_in, points_in, instance_in, instance_from};
ghost use Rattle.instance_io.specs.Refusal.{IsRead, IsExact, coordinates};
ghost use Rattle.instance_io.specs.Told.{Tells, IsLongName, error};

use crate::costs::costs_in;
use crate::instances::{Instance, InstanceFault};
use crate::names::Name;
use crate::points::points_of;
use crate::reading::read_value;
use json_text::{array_at, text_at};
use plane::{Point, Points};
use serde_json::Value;
use std::alloc::Global;

/// The instance that a value is, or its first fault, in the order in which the faults stand in `InstanceFault`.
/// Other keys are ignored. (This project's own, after the challenge's files.)
pub fn instance_of(alloc: Global, value: &Value) -> Result<Instance, InstanceFault>
    ensures answer { IsRead (instance_in (view value.now)) result }
    ensures exact { IsExact (instance_in (view value.now)) result }
{
    let name = match name_of(alloc, value) {
        Ok(name) => name,
        Err(fault) => return Err(fault),
    };
    let list = match points_in(alloc, value) {
        Ok(list) => list,
        Err(fault) => return Err(fault),
    };
    let points = match Points::make(list) {
        Ok(points) => points,
        Err(bad) => return Err(InstanceFault::Bad(bad)),
    };
    match costs_in(alloc, value, points.len()) {
        Ok(costs) => Ok(Instance {
            name,
            points,
            costs,
        }),
        Err(fault) => Err(fault),
    }
}

const MOST_NAME_BYTES: usize = 1_000;

// The name of an instance that a value is, or its fault.
fn name_of(alloc: Global, value: &Value) -> Result<Name, InstanceFault>
    ensures { MatchResult result (λ name. name_in (view value.now) ≡ Ok name)
        (λ fault. Tells fault (error (name_in (view value.now)))) }
{
    let Some(text) = text_at(value, "name") else {
        return Err(InstanceFault::NoName);
    };
    if text.len() > MOST_NAME_BYTES {
        return Err(long_name(text.len()));
    }
    match String::from_str(alloc, text) {
        Ok(text) => Ok(Name::make(text)),
        Err(_) => Err(InstanceFault::NoMemory),
    }
}

// The fault of a name of this length; a length past 32 bits is taken as a want of memory.
fn long_name(length: usize) -> InstanceFault
    ensures { IsLongName length result }
{
    match u32::try_from(length) {
        Ok(length) => InstanceFault::LongName(length),
        Err(_) => InstanceFault::NoMemory,
    }
}

// The points of an instance that a value is, or the first fault of its items.
fn points_in(alloc: Global, value: &Value) -> Result<Vec<Point>, InstanceFault>
    ensures short { IfOk result (λ points. vec_len points < 2 ^ 32) }
    ensures answer { MatchResult result (λ points. points_in (view value.now) ≡ Ok (map coordinates points.items))
        (λ fault. Tells fault (error (points_in (view value.now)))) }
{
    let Some(items) = array_at(value, "points") else {
        return Err(InstanceFault::NoPoints);
    };
    if items.len() > u32::MAX as usize {
        return Err(InstanceFault::NoMemory);
    }
    points_of(alloc, items)
}

/// The instance that a text is, or its first fault, in the order in which the faults stand in `InstanceFault`.
pub fn read_instance(alloc: Global, bytes: &[u8]) -> Result<Instance, InstanceFault>
    ensures answer { IsRead (instance_from bytes.now) result }
    ensures exact { IsExact (instance_from bytes.now) result }
{
    match read_value(alloc, bytes) {
        Ok(value) => instance_of(alloc, &value),
        Err(fault) => Err(fault),
    }
}
