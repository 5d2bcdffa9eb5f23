// The solution of a value and of a text.
ghost use Rattle.std.specs.Prelude.{◌≡◌};
ghost use Rattle.serde_json.specs.View.{view};
ghost use Rattle.text_defs.specs.Solutions.{edges_in, edges_from};
ghost use Rattle.solution_io.specs.Refusal.{IsRead, IsExact, IsTooMany};

use crate::edges::edges_of;
use crate::fault::SolutionFault;
use json_text::{TextFault, array_at, value_of};
use plane::Pair;
use serde_json::Value;
use std::alloc::Global;

const MOST_EDGES: usize = 20_000;

/// The pairs of a solution over `n` points that a value is, in their order, or its first fault, in the order in
/// which the faults stand in `SolutionFault`. A pair may be written either way round, and other keys are ignored.
/// (This project's own, after the challenge's files.)
pub fn solution_of(alloc: Global, value: &Value, n: u32) -> Result<Vec<Pair>, SolutionFault>
    ensures answer { IsRead (edges_in n (view value.now)) result }
    ensures exact { IsExact (edges_in n (view value.now)) result }
{
    let Some(items) = array_at(value, "edges") else {
        return Err(SolutionFault::NoEdges);
    };
    if items.len() > MOST_EDGES {
        return Err(too_many(items.len()));
    }
    edges_of(alloc, items, n)
}

// The fault of so many edges; a number past 32 bits is taken as a want of memory.
fn too_many(count: usize) -> SolutionFault
    ensures { IsTooMany count result }
{
    match u32::try_from(count) {
        Ok(count) => SolutionFault::TooManyEdges(count),
        Err(_) => SolutionFault::NoMemory,
    }
}

/// The pairs of a solution over `n` points that a text is, in their order, or its first fault.
pub fn read_solution(alloc: Global, bytes: &[u8], n: u32) -> Result<Vec<Pair>, SolutionFault>
    ensures answer { IsRead (edges_from n bytes.now) result }
    ensures exact { IsExact (edges_from n bytes.now) result }
{
    match value_of(alloc, bytes) {
        Ok(value) => solution_of(alloc, &value, n),
        Err(TextFault::NotJson) => Err(SolutionFault::NotJson),
        Err(TextFault::NoMemory) => Err(SolutionFault::NoMemory),
    }
}
