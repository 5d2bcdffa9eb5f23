// The bundle of an instance and a solution.
ghost use Rattle.std.specs.Prelude.{◌≡◌, Some, MatchResult};
ghost use Rattle.serde_json.specs.View.{view};
ghost use Rattle.text_defs.specs.Reading.{json_reading};
ghost use Rattle.solver_top.specs.Bundles.{HasBundle, HasParts};
ghost use Rattle.solver_top.specs.Reading.{TellsBundle};

use crate::refusals::{BundleFault, Refusal, Unread};
use instance_io::{InstanceFault, instance_of, read_value};
use plane::{Pair, Points};
use serde_json::Value;
use solution_io::{SolutionFault, solution_of};
use std::alloc::Global;

/// An instance's points and a solution's pairs.
#[derive(Drop)]
pub struct Bundle {
    pub points: Points,
    pub pairs: Vec<Pair>,
}

/// The bundle of an input, or its first refusal.
#[tactic(auto, unfolding(text_defs::specs::Bundles::parts_from))]
pub fn read_bundle(alloc: Global, bytes: &[u8]) -> Result<Bundle, Unread>
    ensures { MatchResult result
        (λ bundle. HasBundle bytes.now bundle.points bundle.pairs.items) (TellsBundle bytes.now) }
{
    let value = match read_value(alloc, bytes) {
        Ok(value) => value,
        Err(InstanceFault::NotJson) => return Err(refused(BundleFault::NotJson)),
        Err(_) => return Err(Unread::NoMemory),
    };
    parts_of(alloc, bytes, &value)
}

// The bundle of the value that an input is.
#[tactic(auto, unfolding(text_defs::specs::Bundles::parts_from))]
fn parts_of(alloc: Global, bytes: &[u8], value: &Value) -> Result<Bundle, Unread>
    requires { json_reading bytes.now ≡ Some (view value.now) }
    ensures { MatchResult result
        (λ bundle. HasBundle bytes.now bundle.points bundle.pairs.items) (TellsBundle bytes.now) }
{
    let Some(instance) = value.get("instance") else {
        return Err(refused(BundleFault::NoInstance));
    };
    let Some(solution) = value.get("solution") else {
        return Err(refused(BundleFault::NoSolution));
    };
    bundle_of(alloc, bytes, instance, solution)
}

// The bundle of the parts of an input.
fn bundle_of(
    alloc: Global,
    bytes: &[u8],
    instance: &Value,
    solution: &Value,
) -> Result<Bundle, Unread>
    requires { HasParts bytes.now (view instance.now) (view solution.now) }
    ensures { MatchResult result
        (λ bundle. HasBundle bytes.now bundle.points bundle.pairs.items) (TellsBundle bytes.now) }
{
    let points = match instance_of(alloc, instance) {
        Ok(instance) => instance.points,
        Err(InstanceFault::NoMemory) => return Err(Unread::NoMemory),
        Err(fault) => return Err(Unread::Refused(Refusal::Instance(fault))),
    };
    match solution_of(alloc, solution, points.len()) {
        Ok(pairs) => Ok(Bundle { points, pairs }),
        Err(SolutionFault::NoMemory) => Err(Unread::NoMemory),
        Err(fault) => Err(Unread::Refused(Refusal::Solution(fault))),
    }
}

fn refused(fault: BundleFault) -> Unread
    ensures { result ≡ Unread.Refused (Refusal.Bundle fault) }
{
    Unread::Refused(Refusal::Bundle(fault))
}
