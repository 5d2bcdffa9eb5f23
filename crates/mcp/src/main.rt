//! `mcp WORD ..`: reads standard input, writes standard output, and ends with the status of the run.
#![tactic(auto)]

ghost use Rattle.std.specs.Prelude.{◌≡◌, MatchOption};
ghost use Rattle.std.specs.Process.{exit_status};
ghost use Rattle.solver_top.specs.Statuses.{number_of, no_words};

use mcp_outside::{OpenGate, StdSink, StdSource};
use solver_top::{NO_WORDS, Status, run, words_after_name};
use std::env;
use std::process::ExitCode;

// The exit code of a status, or of a run for which the machine gives no words.
fn exit_code(end: Option<Status>) -> ExitCode
    ensures { MatchOption end (exit_status result ≡ no_words) (λ status. exit_status result ≡ number_of status) }
{
    match end {
        Some(status) => ExitCode::from(status.number()),
        None => ExitCode::from(NO_WORDS),
    }
}

fn main(rt: HostRuntime) -> ExitCode {
    let Ok(arguments) = env::args(&rt) else {
        return exit_code(None);
    };
    let Ok(arguments) = arguments.collect::<Vec<String>>(rt.alloc()) else {
        return exit_code(Some(Status::NoMemory));
    };
    let mut input = StdSource::make(rt.stdin());
    let mut out = StdSink::make(rt.stdout());
    let status = run(
        &rt,
        rt.alloc(),
        words_after_name(arguments.as_slice()),
        &mut input,
        &mut out,
        &OpenGate,
    );
    exit_code(Some(status))
}
