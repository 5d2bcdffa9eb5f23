// The border as a cycle, in two halves.
ghost use Rattle.std.specs.Prelude.{IfOk};
ghost use Rattle.border.specs.Cycle.{IsBorderCycle};

use crate::chain::add_half;
use mcp_outside::NoMemory;
use plane::Points;
use point_order::in_order;
use std::alloc::Global;

/// The border points, each once, counterclockwise from the one that is least by x, then by y. Neighbours in this cycle
/// are exactly the border pairs; points inside a side of the hull are among them. (Textbook: monotone chains.)
pub fn border(alloc: Global, points: &Points) -> Result<Vec<u32>, NoMemory>
    ensures { IfOk result (λ list. IsBorderCycle points.now list.items) }
{
    let _count = points.len();
    let mut order = in_order(alloc, points)?;
    let mut list = Vec::new(alloc);
    add_half(alloc, points, order.as_slice(), true, &mut list)?;
    order.reverse();
    add_half(alloc, points, order.as_slice(), false, &mut list)?;
    Ok(list)
}
