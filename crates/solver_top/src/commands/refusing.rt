// What the commands that read an instance answer to an input that is none.
ghost use Rattle.std.specs.Prelude.{◌≡◌, ◌≢◌, IfOk};
ghost use Rattle.text_defs.specs.Instances.{instance_from};
ghost use Rattle.instance_io.specs.Refusal.{HasFault};
ghost use Rattle.solver_top.specs.Starting.{IsRefusedInstance};

use crate::answers::Answer;
use crate::lines::refusal_line;
use crate::refusals::Refusal;
use crate::status::Verdict;
use instance_io::InstanceFault;
use mcp_outside::NoMemory;
use std::alloc::Global;

/// The refusal of an input that is no instance, with its first fault.
pub fn refused_instance(
    alloc: Global,
    bytes: &[u8],
    fault: InstanceFault,
) -> Result<Answer, NoMemory>
    requires named { fault ≢ InstanceFault.NoMemory }
    requires fault { HasFault (instance_from bytes.now) fault }
    ensures verdict { IfOk result (λ answer. answer.verdict ≡ Verdict.Refused) }
    ensures text { IfOk result (λ answer. IsRefusedInstance bytes.now answer.text.items) }
{
    let _ = bytes;
    let line = refusal_line(alloc, &Refusal::Instance(fault))?;
    Ok(Answer::of_line(Verdict::Refused, line))
}
