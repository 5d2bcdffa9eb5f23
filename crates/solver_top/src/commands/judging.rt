// The command `judge`.
ghost use Rattle.std.specs.Prelude.{◌≡◌, ◌<◌, ◌^◌, length, IfOk};
ghost use Rattle.partition_defs.specs.Partition.{AreWithin};
ghost use Rattle.solver_top.specs.Bundles.{HasBundle, HasRefusal, refusal_line};
ghost use Rattle.solver_top.specs.Judging.{IsJudged};

use crate::answers::Answer;
use crate::bundles::{Bundle, read_bundle};
use crate::lines::{judgement_line, refusal_line};
use crate::refusals::{Refusal, Unread};
use crate::status::Verdict;
use cp_judge::{Judgement, judge};
use mcp_outside::NoMemory;
use plane::{Pair, Points};
use std::alloc::Global;

/// What `judge` answers to an input.
pub fn judged(alloc: Global, bytes: &[u8]) -> Result<Answer, NoMemory>
    ensures { IfOk result (λ answer. IsJudged bytes.now answer.verdict answer.text.items) }
{
    match read_bundle(alloc, bytes) {
        Ok(bundle) => judged_bundle(alloc, bytes, &bundle),
        Err(Unread::Refused(refusal)) => refused_bundle(alloc, bytes, &refusal),
        Err(Unread::NoMemory) => Err(NoMemory),
    }
}

// The refusal of an input.
fn refused_bundle(alloc: Global, bytes: &[u8], refusal: &Refusal) -> Result<Answer, NoMemory>
    requires { HasRefusal bytes.now refusal.now }
    ensures { IfOk result (λ answer. IsJudged bytes.now answer.verdict answer.text.items) }
{
    let line = refusal_line(alloc, refusal)?;
    Ok(Answer::of_line(Verdict::Refused, line))
}

// The judgement on the bundle of an input.
fn judged_bundle(alloc: Global, bytes: &[u8], bundle: &Bundle) -> Result<Answer, NoMemory>
    requires { HasBundle bytes.now bundle.now.points bundle.now.pairs.items }
    ensures { IfOk result (λ answer. IsJudged bytes.now answer.verdict answer.text.items) }
{
    let judgement = judge(&bundle.points, bundle.pairs.as_slice());
    let line = judgement_line(alloc, judgement)?;
    match judgement {
        Judgement::Convex(_) => Ok(Answer::of_line(Verdict::Done, line)),
        _ => Ok(Answer::of_line(Verdict::No, line)),
    }
}
