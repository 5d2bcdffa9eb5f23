// The text of an instance.
ghost use Rattle.std.specs.Prelude.{◌≡◌, ◌++◌, ◌<◌, nat_lt, map, IfOk};
ghost use Rattle.serde_json.specs.Written.{comma_if, compact_text};
ghost use Rattle.text_defs.specs.Texts.{instance_text, point_data, cost_data};
ghost use Rattle.instance_io.specs.Refusal.{coordinates, cost_item};
ghost use Rattle.instance_io.specs.Writing.{costs_text, points_text};

use crate::instances::Instance;
use cost_defs::Costs;
use json_text::{push_comma, push_index, push_whole, quoted};
use mcp_outside::NoMemory;
use plane::{Pair, Point, Points};
use std::alloc::Global;

const POINT_BYTES: usize = 64;

/// The text of an instance: one line without its end, with the costs before the name where there are some, and the
/// points by index.
pub fn write_instance(alloc: Global, instance: &Instance) -> Result<Vec<u8>, NoMemory>
    ensures { IfOk result (λ text. text.items
        ≡ instance_text (map cost_item instance.now.costs) instance.now.name (map coordinates instance.now.points)) }
{
    let name = quoted(alloc, instance.name.as_str())?;
    let count = instance.points.len() as usize;
    let mut text = Vec::with_capacity(alloc, name.len() + count * POINT_BYTES)?;
    text.push(b'{')?;
    push_costs(&mut text, &instance.costs)?;
    text.extend_from_slice(b"\"name\":")?;
    text.extend_from_slice(&name)?;
    text.extend_from_slice(b",\"points\":")?;
    push_points(&mut text, &instance.points)?;
    text.push(b'}')?;
    Ok(text)
}

// Appends the costs and a comma, where there are some.
fn push_costs(text: &mut Vec<u8>, costs: &Costs) -> Result<(), NoMemory>
    ensures { IfOk result (λ _. text.new.items ≡ text.old.items ++ costs_text (map cost_item costs.now)) }
{
    let list = costs.list();
    if list.is_empty() {
        return Ok(());
    }
    text.extend_from_slice(b"\"costs\":[")?;
    for (place, (pair, cost)) in list.iter().enumerate() {
        push_cost(text, place > 0, *pair, *cost)?;
    }
    text.extend_from_slice(b"],")?;
    Ok(())
}

// Appends a pair with its cost, after a comma where it isn't the first.
fn push_cost(text: &mut Vec<u8>, later: bool, pair: Pair, cost: u32) -> Result<(), NoMemory>
    ensures { IfOk result (λ _. text.new.items
        ≡ text.old.items ++ (comma_if later ++ compact_text (cost_data (cost_item (pair, cost))))) }
{
    push_comma(text, later)?;
    text.push(b'[')?;
    push_index(text, pair.lo())?;
    text.push(b',')?;
    push_index(text, pair.hi())?;
    text.push(b',')?;
    push_index(text, cost)?;
    text.push(b']')?;
    Ok(())
}

// Appends the array of the points by index.
fn push_points(text: &mut Vec<u8>, points: &Points) -> Result<(), NoMemory>
    ensures { IfOk result (λ _. text.new.items ≡ text.old.items ++ points_text (map coordinates points.now)) }
{
    text.push(b'[')?;
    for i in 0..points.len() {
        push_point(text, i, points.at(i))?;
    }
    text.push(b']')?;
    Ok(())
}

// Appends a point with its index, after a comma where it isn't the first.
fn push_point(text: &mut Vec<u8>, i: u32, point: Point) -> Result<(), NoMemory>
    ensures { IfOk result (λ _. text.new.items
        ≡ text.old.items ++ (comma_if (nat_lt 0 i) ++ compact_text (point_data (i, coordinates point)))) }
{
    push_comma(text, i > 0)?;
    text.extend_from_slice(b"{\"i\":")?;
    push_index(text, i)?;
    text.extend_from_slice(b",\"x\":")?;
    push_whole(text, point.x)?;
    text.extend_from_slice(b",\"y\":")?;
    push_whole(text, point.y)?;
    text.push(b'}')?;
    Ok(())
}
