// What came of jobs.
ghost use Rattle.std.specs.Prelude.{◌≡◌, ◌≤◌, [], ◌∷◌, ◌++◌, IfOk};
ghost use Rattle.std.specs.List.{AllByRecursion};
ghost use Rattle.workers.specs.Jobs.{HasEnded, passes_in, found_in};

use crate::jobs::Job;
use board::Pass;
use dual_prices::Certificate;
use mcp_outside::NoMemory;
use std::alloc::Global;

/// What came of jobs that all came to their end.
#[derive(Drop)]
pub(crate) struct Results {
    pub(crate) passes: Vec<Pass>,
    pub(crate) found: Vec<Certificate>,
}

// One job's result more.
fn take_result(results: &mut Results, job: Job) -> Result<(), NoMemory>
    ensures ended { IfOk result (λ _. HasEnded job) }
    ensures passes { IfOk result (λ _. results.new.passes.items ≡ results.old.passes.items ++ passes_in (job ∷ [])) }
    ensures found { IfOk result (λ _. results.new.found.items ≡ results.old.found.items ++ found_in (job ∷ [])) }
{
    match job {
        Job::Edit { pass, ended } => {
            if !ended {
                return Err(NoMemory);
            }
            results.passes.push(pass)?;
        }
        Job::Bound { worker: _, found } => {
            let Some(certificate) = found else {
                return Err(NoMemory);
            };
            results.found.push(certificate)?;
        }
    }
    Ok(())
}

/// The passes in their order, and what the bound workers found, in theirs.
pub(crate) fn results_of(alloc: Global, jobs: Vec<Job>) -> Result<Results, NoMemory>
    ensures ended { IfOk result (λ _. AllByRecursion HasEnded jobs.items) }
    ensures passes { IfOk result (λ r. r.passes.items ≡ passes_in jobs.items) }
    ensures found { IfOk result (λ r. r.found.items ≡ found_in jobs.items) }
{
    let mut results = Results {
        passes: Vec::new(alloc),
        found: Vec::new(alloc),
    };
    for job in jobs {
        take_result(&mut results, job)?;
    }
    Ok(results)
}
