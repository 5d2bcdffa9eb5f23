// The core with which the journal of a report begins.
ghost use Rattle.std.specs.Prelude.{◌≡◌, [], IfOk};
ghost use Rattle.replay.specs.Replayed.{IsCore};
ghost use Rattle.report_defs.specs.Relation.{HasStart, IsStartInOrder};

use mcp_outside::NoMemory;
use plane::Points;
use replay::Core;
use report_io::Report;
use std::alloc::Global;
use subdivision::Subdivision;

// The same points again.
fn copy_points(alloc: Global, points: &Points) -> Result<Points, NoMemory>
    ensures { IfOk result (λ copy. copy ≡ points.now) }
{
    let mut list = Vec::new(alloc);
    for k in 0..points.len() {
        list.push(points.at(k))?;
    }
    match Points::make(list) {
        Ok(copy) => Ok(copy),
        Err(_) => unreachable!(),
    }
}

/// The core of a report's start, with no commit.
pub fn opening(alloc: Global, report: &Report) -> Result<Core, NoMemory>
    requires { HasStart report.now }
    ensures points { IfOk result (λ c. c.points ≡ report.now.instance.points) }
    ensures start { IfOk result (λ c. IsStartInOrder report.now c.start) }
    ensures journal { IfOk result (λ c. c.journal ≡ []) }
    ensures core { IfOk result IsCore }
{
    let all = Subdivision::from_pairs(alloc, &report.instance.points, report.start.as_slice())?;
    let points = copy_points(alloc, &report.instance.points)?;
    match Core::make(points, all) {
        Ok(core) => Ok(core),
        Err((_, _, fault)) => Err(fault),
    }
}
