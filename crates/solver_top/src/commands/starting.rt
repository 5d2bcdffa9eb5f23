// The command `start`.
ghost use Rattle.std.specs.Prelude.{IfOk};
ghost use Rattle.text_defs.specs.Instances.{instance_from};
ghost use Rattle.instance_io.specs.Refusal.{Gives};
ghost use Rattle.solver_top.specs.Starting.{IsStarted};

use crate::answers::Answer;
use crate::commands::refusing::refused_instance;
use crate::status::Verdict;
use instance_io::{Instance, InstanceFault, read_instance};
use mcp_outside::NoMemory;
use solution_io::write_solution;
use std::alloc::Global;
use triangulate::start_pairs;

/// What `start` answers to an input.
pub fn started(alloc: Global, bytes: &[u8]) -> Result<Answer, NoMemory>
    ensures { IfOk result (λ answer. IsStarted bytes.now answer.verdict answer.text.items) }
{
    match read_instance(alloc, bytes) {
        Ok(instance) => started_instance(alloc, bytes, &instance),
        Err(InstanceFault::NoMemory) => Err(NoMemory),
        Err(fault) => refused_instance(alloc, bytes, fault),
    }
}

// The start of the instance that an input is.
fn started_instance(alloc: Global, bytes: &[u8], instance: &Instance) -> Result<Answer, NoMemory>
    requires { Gives (instance_from bytes.now) instance.now.name instance.now.points instance.now.costs }
    ensures { IfOk result (λ answer. IsStarted bytes.now answer.verdict answer.text.items) }
{
    let _count = instance.points.len();
    let pairs = start_pairs(alloc, &instance.points)?;
    let mut text = write_solution(alloc, &instance.name, pairs.as_slice())?;
    text.push(b'\n')?;
    Ok(Answer {
        verdict: Verdict::Done,
        text,
    })
}
