// A source of 64 bytes a call and a sink of 100 bytes a call, with each call that is made failing in turn.
use super::editing::session;
use super::failed;
use super::rewinding::changed;
use solver_top::Status;
use std::alloc::Global;
use std::process::Abort;
use std::test::Fail;
use std::thread::Threads;

// A call for each 64 bytes of the input, and one that finds its end. What is written in the end is handed out.
fn expect_reads<R: Threads + Sync + Abort>(
    rt: &R,
    alloc: Global,
    line: &str,
    text: &str,
) -> Result<String, Fail> {
    let calls = (text.len() as u64).div_ceil(64).saturating_add(1);
    for call in 0..calls {
        let call = call.saturating_add(1);
        let (status, written) = failed(rt, alloc, (line, text), call, 0)?;
        assert!(rt; status == Status::ReadFault, "{line} {call}");
        assert!(rt; written.is_empty(), "{line} {call}");
    }
    let (status, written) = failed(rt, alloc, (line, text), calls.saturating_add(1), 0)?;
    assert!(rt; status == Status::Done, "{line}");
    Ok(written)
}

// A call for each 100 bytes that are written: those before the one that fails are written, and no more.
fn expect_writes<R: Threads + Sync + Abort>(
    rt: &R,
    alloc: Global,
    line: &str,
    text: &str,
    whole: &str,
) -> Result<(), Fail> {
    let calls = (whole.len() as u64).div_ceil(100);
    assert!(rt; calls > 1);
    for call in 0..calls {
        let (status, written) = failed(rt, alloc, (line, text), 0, call.saturating_add(1))?;
        assert!(rt; status == Status::WriteFault, "{line} {call}");
        assert!(rt;
            written.len() as u64 == call.saturating_mul(100),
            "{line} {call}"
        );
        assert!(rt; whole.starts_with(written.as_str()), "{line} {call}");
    }
    Ok(())
}

#[test]
fn fails_at_each_call_in_turn(rt: HostRuntime) -> Result<(), Fail> {
    let report = changed(rt.alloc(), 5, "")?;
    let commands =
        r#"[["look",0],["look",1],["look",2],["look",3],["commit",[["d",1,2]]],["undo"],["bound"]]"#;
    let edits = session(rt.alloc(), "[]", commands)?;
    for (line, text) in [("rewind 2", report.as_str()), ("edit", edits.as_str())] {
        let whole = expect_reads(&rt, rt.alloc(), line, text)?;
        expect_writes(&rt, rt.alloc(), line, text, &whole)?;
    }
    Ok(())
}

// Lines that refuse words or inputs, into a sink that fails at once.
const REFUSALS: [(&str, &str); 4] = [
    ("rewind", ""),
    ("rewind 0", "7\n"),
    ("edit 7", ""),
    ("edit", "[]"),
];

#[test]
fn writes_no_refusal_into_a_sink_that_fails(rt: HostRuntime) -> Result<(), Fail> {
    for (line, text) in REFUSALS {
        let (status, written) = failed(&rt, rt.alloc(), (line, text), 0, 1)?;
        assert_eq!(rt; status, Status::WriteFault, "{line}");
        assert!(rt; written.is_empty(), "{line}");
    }
    Ok(())
}
