// The lines that are printed of a script.
ghost use Rattle.std.specs.Prelude.{◌≡◌, string_bytes, IfOk};
ghost use Rattle.weave_script.specs.Lines.{why_text, answer_line, end_line, script_fault_text, refused_line};

use crate::script::ScriptFault;
use fault_texts::instance_fault_text;
use journal_defs::Why;
use std::alloc::{AllocError, Global};
use weave::StepAnswer;

/// Why an edit isn't legal: the word, and the number where it has one.
pub fn why_text(alloc: Global, why: Why) -> Result<String, AllocError>
    ensures { IfOk result (λ text. string_bytes text ≡ why_text why) }
{
    match why {
        Why::NotThere => format!(in alloc; "NotThere"),
        Why::NotKept => format!(in alloc; "NotKept"),
        Why::NotSpare => format!(in alloc; "NotSpare"),
        Why::Border => format!(in alloc; "Border"),
        Why::Opens(v) => format!(in alloc; "Opens {v}"),
        Why::AlreadyThere => format!(in alloc; "AlreadyThere"),
        Why::NotApex(v) => format!(in alloc; "NotApex {v}"),
        Why::Bent(v) => format!(in alloc; "Bent {v}"),
    }
}

/// The line of what a step is answered.
pub fn answer_line(alloc: Global, answer: StepAnswer) -> Result<String, AllocError>
    ensures { IfOk result (λ line. string_bytes line ≡ answer_line answer) }
{
    match answer {
        StepAnswer::Won => format!(in alloc; "won\n"),
        StepAnswer::Held(owner) => format!(in alloc; "held {owner}\n"),
        StepAnswer::Commit(number) => format!(in alloc; "commit {number}\n"),
        StepAnswer::NotOwned(place) => format!(in alloc; "notowned {place}\n"),
        StepAnswer::Illegal { at, why } => {
            let why = why_text(alloc, why)?;
            format!(in alloc; "illegal {at} {why}\n")
        }
        StepAnswer::Returned => format!(in alloc; "back\n"),
    }
}

/// The last line: how many commits the journal has, and how many segments are kept.
pub fn end_line(alloc: Global, commits: usize, segments: usize) -> Result<String, AllocError>
    ensures { IfOk result (λ line. string_bytes line ≡ end_line commits segments) }
{
    format!(in alloc; "end commits {commits} segments {segments}\n")
}

fn script_fault_text(alloc: Global, fault: ScriptFault) -> Result<String, AllocError>
    ensures { IfOk result (λ text. string_bytes text ≡ script_fault_text fault) }
{
    match fault {
        ScriptFault::NotJson => format!(in alloc; "script NotJson"),
        ScriptFault::NoInstance => format!(in alloc; "script NoInstance"),
        ScriptFault::NoSteps => format!(in alloc; "script NoSteps"),
        ScriptFault::Instance(fault) => {
            let text = instance_fault_text(alloc, fault)?;
            format!(in alloc; "instance {text}")
        }
        ScriptFault::TooManySteps(count) => format!(in alloc; "script TooManySteps {count}"),
        ScriptFault::BadStep(place) => format!(in alloc; "script BadStep {place}"),
        ScriptFault::NoMemory => format!(in alloc; "NoMemory"),
    }
}

/// The line of a text that is no script.
pub fn refused_line(alloc: Global, fault: ScriptFault) -> Result<String, AllocError>
    ensures { IfOk result (λ line. string_bytes line ≡ refused_line fault) }
{
    let text = script_fault_text(alloc, fault)?;
    format!(in alloc; "refused {text}\n")
}
