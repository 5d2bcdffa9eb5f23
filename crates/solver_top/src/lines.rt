// The lines that are printed.
ghost use Rattle.std.specs.Prelude.{◌≡◌, string_bytes, IfOk};
ghost use Rattle.solver_top.specs.Bundles.{bundle_fault_text, refusal_line};
ghost use Rattle.solver_top.specs.Lines.{usage_line, judgement_line};

use crate::refusals::{BundleFault, Refusal};
use cp_judge::Judgement;
use fault_texts::{instance_fault_text, pair_text, solution_fault_text};
use std::alloc::{AllocError, Global};

/// The line of words that are no line of the program, with the position that it shows.
pub fn usage_line(alloc: Global, k: usize) -> Result<String, AllocError>
    ensures { IfOk result (λ line. string_bytes line ≡ usage_line k) }
{
    format!(in alloc; "usage {k}\n")
}

/// The line of a judgement.
pub fn judgement_line(alloc: Global, judgement: Judgement) -> Result<String, AllocError>
    ensures { IfOk result (λ line. string_bytes line ≡ judgement_line judgement) }
{
    match judgement {
        Judgement::Convex(n) => format!(in alloc; "convex partition {n} segments\n"),
        Judgement::Doubled(e) => {
            let e = pair_text(alloc, e)?;
            format!(in alloc; "no Doubled {e}\n")
        }
        Judgement::NotClear(e, p) => {
            let e = pair_text(alloc, e)?;
            format!(in alloc; "no NotClear {e} {p}\n")
        }
        Judgement::Crossing(e, f) => {
            let (e, f) = (pair_text(alloc, e)?, pair_text(alloc, f)?);
            format!(in alloc; "no Crossing {e} {f}\n")
        }
        Judgement::MissingBorder(e) => {
            let e = pair_text(alloc, e)?;
            format!(in alloc; "no MissingBorder {e}\n")
        }
        Judgement::Unmet(p, q) => format!(in alloc; "no Unmet {p} {q}\n"),
    }
}

fn bundle_fault_text(fault: BundleFault) -> &'static str
    ensures { result.now ≡ bundle_fault_text fault }
{
    match fault {
        BundleFault::NotJson => "NotJson",
        BundleFault::NoInstance => "NoInstance",
        BundleFault::NoSolution => "NoSolution",
    }
}

/// The line of a refusal.
pub fn refusal_line(alloc: Global, refusal: &Refusal) -> Result<String, AllocError>
    ensures { IfOk result (λ line. string_bytes line ≡ refusal_line refusal.now) }
{
    match refusal {
        Refusal::Bundle(fault) => {
            let text = bundle_fault_text(*fault);
            format!(in alloc; "refused bundle {text}\n")
        }
        Refusal::Instance(fault) => {
            let text = instance_fault_text(alloc, *fault)?;
            format!(in alloc; "refused instance {text}\n")
        }
        Refusal::Solution(fault) => {
            let text = solution_fault_text(alloc, fault)?;
            format!(in alloc; "refused solution {text}\n")
        }
    }
}
