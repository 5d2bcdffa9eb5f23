// What `weave` says of scripts. The answers were worked out by hand.
use super::told;
use solver_top::Status;
use std::alloc::Global;
use std::test::Fail;

// The script of a square with these steps.
fn script(alloc: Global, steps: &str) -> Result<String, Fail> {
    Ok(format!(in alloc;
        "{{\"instance\":{{\"name\":\"sq\",\"points\":[{{\"x\":0,\"y\":0}},{{\"x\":0,\"y\":4}},{{\"x\":4,\"y\":0}},\
          {{\"x\":4,\"y\":4}}]}},\"steps\":{steps}}}"
    )?)
}

// Steps, the status, and the lines that are printed of them.
const RUNS: [(&str, Status, &str); 5] = [
    ("[]", Status::Done, "end commits 0 segments 5\n"),
    (
        r#"[["take",1,1],["take",1,2],["take",1,4],["take",2,1],["append",1,[["d",1,2]]],["back",1,1],["back",1,2],
            ["back",1,4],["take",2,1],["take",2,4],["append",2,[["k",1,2]]]]"#,
        Status::Done,
        "won\nwon\nwon\nheld 1\ncommit 1\nback\nback\nback\nwon\nwon\nnotowned 2\nend commits 1 segments 4\n",
    ),
    (
        r#"[["back",16,4],["take",3,1],["take",3,1],["take",3,2],["take",3,4],["append",3,[["k",2,1]]],["append",3,[["d",2,1]]]]"#,
        Status::Done,
        "notowned 4\nwon\nheld 3\nwon\nwon\nillegal 0 NotSpare\ncommit 1\nend commits 1 segments 4\n",
    ),
    (
        r#"[["take",1,1],["take",1,5]]"#,
        Status::Refused,
        "refused script BadStep 1\n",
    ),
    ("7", Status::Refused, "refused script NoSteps\n"),
];

#[test]
fn plays_scripts(rt: HostRuntime) -> Result<(), Fail> {
    for (steps, status, lines) in RUNS {
        let (ended, says) = told(&rt, rt.alloc(), "weave", &script(rt.alloc(), steps)?)?;
        assert_eq!(rt; says.as_str(), lines, "{steps}");
        assert_eq!(rt; ended, status, "{steps}");
    }
    Ok(())
}

// Texts that are no script, and the fault.
const REFUSED: [(&str, &str); 5] = [
    ("", "script NotJson"),
    ("[]", "script NoInstance"),
    (r#"{"instance":{}}"#, "script NoSteps"),
    (r#"{"instance":{},"steps":[7]}"#, "instance NoName"),
    (
        r#"{"instance":{"name":"w","points":[]},"steps":[7]}"#,
        "instance TooFew 0",
    ),
];

#[test]
fn refuses_what_is_no_script(rt: HostRuntime) -> Result<(), Fail> {
    for (text, fault) in REFUSED {
        let (ended, says) = told(&rt, rt.alloc(), "weave", text)?;
        let line = format!(in rt.alloc(); "refused {fault}\n")?;
        assert_eq!(rt; says.as_str(), line.as_str());
        assert_eq!(rt; ended, Status::Refused, "{fault}");
    }
    Ok(())
}
