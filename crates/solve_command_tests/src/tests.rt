mod beside;
mod failing;
mod meeting;
mod one;

use mcp_outside::{Gate, MemorySink, MemorySource, OpenGate};
use solver_top::{Status, run};
use std::alloc::Global;
use std::test::Fail;
use std::thread::Threads;

// How many bytes a call of the sink takes, at least 1, and the calls of the source and the sink that fail, counted from 1.
#[derive(Clone, Copy)]
struct Ends {
    step: usize,
    source_call: u64,
    sink_call: u64,
}

const SOUND: Ends = Ends {
    step: 1000,
    source_call: 0,
    sink_call: 0,
};

fn words_of(alloc: Global, line: &str) -> Result<Vec<String>, Fail> {
    let mut words = Vec::new(alloc);
    for word in line.split_whitespace() {
        words.push(String::from_str(alloc, word)?)?;
    }
    Ok(words)
}

// What the program writes over memory, and its status. The source gives 64 bytes a call.
fn ran<R: Threads + Sync, G: Gate + Sync>(
    rt: &R,
    alloc: Global,
    (line, input): (&str, &str),
    ends: Ends,
    gate: &G,
) -> Result<(Status, String), Fail> {
    let words = words_of(alloc, line)?;
    let input = Vec::from_slice(alloc, input.as_bytes())?;
    let mut source = MemorySource::make(input, 64, [ends.source_call].to_vec(alloc)?);
    let step = ends.step.max(1);
    let mut sink = MemorySink::make(alloc, 2_000_000, step, [ends.sink_call].to_vec(alloc)?)?;
    let status = run(rt, alloc, words.as_slice(), &mut source, &mut sink, gate);
    let written = Vec::from_slice(alloc, sink.written())?;
    Ok((status, String::from_utf8(written)?))
}

// The same over ends that never fail, beside a gate that does nothing.
fn told<R: Threads + Sync>(
    rt: &R,
    alloc: Global,
    line: &str,
    input: &str,
) -> Result<(Status, String), Fail> {
    ran(rt, alloc, (line, input), SOUND, &OpenGate)
}

// What `check` says of a report that is valid: its costs, first.
fn cost_of<R: Threads + Sync>(rt: &R, alloc: Global, report: &str) -> Result<u64, Fail> {
    let (status, says) = told(rt, alloc, "check", report)?;
    if status != Status::Done || !says.starts_with("valid cost ") {
        return Err(Fail::from(says));
    }
    Ok(says.split_whitespace().nth(2).unwrap_or("").parse::<u64>()?)
}

// The line of a text, counted from 0.
fn line_of(text: &str, k: usize) -> &str {
    text.lines().nth(k).unwrap_or("")
}

// How many commits each caller made, from the summary of a report.
fn commits_of(alloc: Global, report: &str) -> Result<Vec<u64>, Fail> {
    let (_, rest) = line_of(report, 4)
        .split_once("\"commits\":[")
        .unwrap_or(("", ""));
    let (counts, _) = rest.split_once("]").unwrap_or(("", ""));
    let mut commits = Vec::new(alloc);
    for count in counts.split(",") {
        commits.push(count.parse::<u64>()?)?;
    }
    Ok(commits)
}

// The instance of 100 scattered points with two keys more, and its points in reverse order with their numbers.
fn reversed<R: Threads + Sync>(rt: &R, alloc: Global) -> Result<String, Fail> {
    let (_, made) = told(rt, alloc, "gen scatter 100 7", "")?;
    let (front, rest) = made.split_once("[{").unwrap_or(("", ""));
    let (items, _) = rest.split_once("}]").unwrap_or(("", ""));
    let mut text = String::from_str(alloc, front)?;
    text.push_str("[")?;
    let mut later = false;
    for item in items.rsplit("},{") {
        if later {
            text.push_str(",")?;
        }
        later = true;
        text.push_str("{")?;
        text.push_str(item)?;
        text.push_str("}")?;
    }
    text.push_str("],\"type\":\"Instance\",\"meta\":{\"made\":[7]}}")?;
    Ok(text)
}
