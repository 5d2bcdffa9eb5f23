// The commands `check`, `part` and `rewind`.
ghost use Rattle.std.specs.Prelude.{◌≡◌, IfOk};
ghost use Rattle.solver_top.specs.Checking.{verdict_of, IsCheckAnswer, IsPartAnswer, IsRewindAnswer};

use crate::answers::Answer;
use crate::status::Verdict;
use mcp_outside::NoMemory;
use report_answers::{Part, Told, check_text, part_of_text, rewound};
use std::alloc::Global;

fn verdict_of(told: Told) -> Verdict
    ensures { result ≡ verdict_of told }
{
    match told {
        Told::Yes => Verdict::Done,
        Told::No => Verdict::No,
        Told::Refused => Verdict::Refused,
    }
}

/// What `check` answers to an input.
pub fn checked(alloc: Global, bytes: &[u8]) -> Result<Answer, NoMemory>
    ensures { IfOk result (λ answer. IsCheckAnswer bytes.now answer.verdict answer.text.items) }
{
    let answer = check_text(alloc, bytes)?;
    Ok(Answer {
        verdict: verdict_of(answer.told),
        text: answer.text,
    })
}

/// What `part NAME` answers to an input.
pub fn parted(alloc: Global, bytes: &[u8], part: Part) -> Result<Answer, NoMemory>
    ensures { IfOk result (λ answer. IsPartAnswer part bytes.now answer.verdict answer.text.items) }
{
    let answer = part_of_text(alloc, bytes, part)?;
    Ok(Answer {
        verdict: verdict_of(answer.told),
        text: answer.text,
    })
}

/// What `rewind K` answers to an input.
pub fn rewound_to(alloc: Global, bytes: &[u8], commits: u32) -> Result<Answer, NoMemory>
    ensures { IfOk result (λ answer. IsRewindAnswer commits bytes.now answer.verdict answer.text.items) }
{
    let answer = rewound(alloc, bytes, commits)?;
    Ok(Answer {
        verdict: verdict_of(answer.told),
        text: answer.text,
    })
}
