// The command `gen`.
ghost use Rattle.std.specs.Prelude.{◌≡◌, ◌≤◌, IfOk};
ghost use Rattle.solver_top.specs.Generating.{IsGenerated};

use crate::answers::Answer;
use crate::status::Verdict;
use generator::{Kind, generate};
use instance_io::write_instance;
use mcp_outside::NoMemory;
use std::alloc::Global;

/// What `gen` answers: the line of an instance made from a number.
pub fn generated(alloc: Global, kind: Kind, n: u32, seed: u64) -> Result<Answer, NoMemory>
    requires least { 3 ≤ n }
    requires most { n ≤ 5000 }
    ensures done { IfOk result (λ answer. answer.verdict ≡ Verdict.Done) }
    ensures text { IfOk result (λ answer. IsGenerated kind n seed answer.text.items) }
{
    let instance = generate(alloc, kind, n, seed)?;
    let mut text = write_instance(alloc, &instance)?;
    text.push(b'\n')?;
    Ok(Answer {
        verdict: Verdict::Done,
        text,
    })
}
