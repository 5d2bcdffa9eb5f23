mod editing;
mod failing;
mod rewinding;

use mcp_outside::{MemorySink, MemorySource, OpenGate};
use solver_top::{Status, run};
use std::alloc::Global;
use std::test::Fail;
use std::thread::Threads;

fn words_of(alloc: Global, line: &str) -> Result<Vec<String>, Fail> {
    let mut words = Vec::new(alloc);
    for word in line.split_whitespace() {
        words.push(String::from_str(alloc, word)?)?;
    }
    Ok(words)
}

// What the program writes over memory, and its status, where the source fails at one call and the sink at another,
// counted from 1. At call 0 nothing fails.
fn failed<R: Threads + Sync>(
    rt: &R,
    alloc: Global,
    (line, text): (&str, &str),
    source_call: u64,
    sink_call: u64,
) -> Result<(Status, String), Fail> {
    let words = words_of(alloc, line)?;
    let input = Vec::from_slice(alloc, text.as_bytes())?;
    let mut source = MemorySource::make(input, 64, [source_call].to_vec(alloc)?);
    let mut sink = MemorySink::make(alloc, 1_000_000, 100, [sink_call].to_vec(alloc)?)?;
    let status = run(
        rt,
        alloc,
        words.as_slice(),
        &mut source,
        &mut sink,
        &OpenGate,
    );
    let written = Vec::from_slice(alloc, sink.written())?;
    Ok((status, String::from_utf8(written)?))
}

// The same where nothing fails.
fn told<R: Threads + Sync>(
    rt: &R,
    alloc: Global,
    line: &str,
    text: &str,
) -> Result<(Status, String), Fail> {
    failed(rt, alloc, (line, text), 0, 0)
}

const LINES: [(&str, &str); 9] = [
    ("rewind", "usage 1\n"),
    ("rewind x", "usage 1\n"),
    ("rewind 01", "usage 1\n"),
    ("rewind -1", "usage 1\n"),
    ("rewind 200001", "usage 1\n"),
    ("rewind 0 0", "usage 2\n"),
    ("edit 0", "usage 1\n"),
    ("edit edit", "usage 1\n"),
    ("undo", "usage 0\n"),
];

// Words that are no line of theirs.
#[test]
fn reads_its_words(rt: HostRuntime) -> Result<(), Fail> {
    for (line, text) in LINES {
        let (ended, written) = told(&rt, rt.alloc(), line, "")?;
        assert_eq!(rt; ended, Status::Usage, "{line}");
        assert_eq!(rt; written.as_str(), text, "{line}");
    }
    Ok(())
}
