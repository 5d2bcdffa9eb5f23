// Scripts on a square, worked out by hand.
use crate::{ScriptFault, read_script, refused_line, script_text};
use std::alloc::Global;
use std::test::Fail;

const SQUARE: &str =
    r#""instance":{"name":"sq","points":[{"x":0,"y":0},{"x":0,"y":4},{"x":4,"y":0},{"x":4,"y":4}]}"#;

// What is printed of the square with these steps.
fn printed(alloc: Global, steps: &str) -> Result<String, Fail> {
    let text = format!(in alloc; "{{{SQUARE},\"steps\":{steps}}}")?;
    told(alloc, &text)
}

// What is printed of a text.
fn told(alloc: Global, text: &str) -> Result<String, Fail> {
    match read_script(alloc, text.as_bytes()) {
        Ok(script) => Ok(String::from_utf8(script_text(alloc, script)?)?),
        Err(fault) => Ok(refused_line(alloc, fault)?),
    }
}

// Steps, and the lines that are printed of them.
const RUNS: [(&str, &str); 4] = [
    ("[]", "end commits 0 segments 5\n"),
    (
        r#"[["take",1,1],["take",1,2],["take",1,4],["take",2,1],["append",1,[["d",1,2]]],["back",1,1],["back",1,2],
            ["back",1,4],["take",2,1],["take",2,4],["append",2,[["k",1,2]]]]"#,
        "won\nwon\nwon\nheld 1\ncommit 1\nback\nback\nback\nwon\nwon\nnotowned 2\nend commits 1 segments 4\n",
    ),
    (
        r#"[["back",16,4],["append",1,[["d",2,1]]],["take",1,2],["take",1,1],["append",1,[["d",2,1]]],["take",1,4],
            ["append",1,[["k",1,2]]],["take",1,0],["append",1,[["d",1,2],["d",1,0]]],["append",1,[["d",0,3]]]]"#,
        "notowned 4\nnotowned 1\nwon\nwon\nnotowned 4\nwon\nillegal 0 NotSpare\nwon\nillegal 1 Border\nnotowned 3\n\
         end commits 0 segments 5\n",
    ),
    (
        r#"[["take",3,0],["take",3,1],["take",3,2],["take",3,3],["take",3,4.0],["append",3,[["d",1,2]]],
            ["append",3,[["f",2,1,3,0],["k",0,3]]],["append",3,[["f",0,3,0,1]]],["append",3,[["d",0,3],["d",0,3]]]]"#,
        "won\nwon\nwon\nwon\nwon\ncommit 1\ncommit 2\nillegal 0 NotSpare\nillegal 1 NotKept\n\
         end commits 2 segments 5\n",
    ),
];

#[test]
fn plays_steps_of_a_square(rt: HostRuntime) -> Result<(), Fail> {
    for (steps, lines) in RUNS {
        let text = printed(rt.alloc(), steps)?;
        assert_eq!(rt; text.as_str(), lines);
    }
    Ok(())
}

// Steps of the square that are no steps, and the fault.
const BAD_STEPS: [(&str, &str); 12] = [
    ("{}", "script NoSteps"),
    (r#"[["take",1,4],["take",0,4]]"#, "script BadStep 1"),
    (r#"[["take",17,4]]"#, "script BadStep 0"),
    (r#"[["take",1,5]]"#, "script BadStep 0"),
    (r#"[["back",1,"1"]]"#, "script BadStep 0"),
    (r#"[["take",1,1,1]]"#, "script BadStep 0"),
    (r#"[["look",1,1]]"#, "script BadStep 0"),
    (r#"[["append",1,[]]]"#, "script BadStep 0"),
    (
        r#"[["back",1,1],["back",1,1],["append",1,[["d",1,1]]]]"#,
        "script BadStep 2",
    ),
    (r#"[["append",1,[["d",1,4]]]]"#, "script BadStep 0"),
    (r#"[["append",1,[["f",0,1,2,2]]]]"#, "script BadStep 0"),
    (r#"[["append",1,[["d",0]]],7]"#, "script BadStep 0"),
];

// Texts that are no scripts, and the fault.
const BAD_TEXTS: [(&str, &str); 6] = [
    ("", "script NotJson"),
    ("[]", "script NoInstance"),
    (r#"{"steps":[]}"#, "script NoInstance"),
    (r#"{"instance":{}}"#, "script NoSteps"),
    (r#"{"instance":{},"steps":[7]}"#, "instance NoName"),
    (
        r#"{"instance":{"name":"w","points":[]},"steps":[7]}"#,
        "instance TooFew 0",
    ),
];

#[test]
fn refuses_what_is_no_script(rt: HostRuntime) -> Result<(), Fail> {
    for (steps, fault) in BAD_STEPS {
        let line = format!(in rt.alloc(); "refused {fault}\n")?;
        let text = printed(rt.alloc(), steps)?;
        assert_eq!(rt; text.as_str(), line.as_str());
    }
    for (input, fault) in BAD_TEXTS {
        let line = format!(in rt.alloc(); "refused {fault}\n")?;
        let text = told(rt.alloc(), input)?;
        assert_eq!(rt; text.as_str(), line.as_str());
    }
    Ok(())
}

// So many steps, each the take of a vertex.
fn many(alloc: Global, count: usize) -> Result<String, Fail> {
    let mut steps = String::from_str(alloc, "[")?;
    for place in 0..count {
        if place > 0 {
            steps.push_str(",")?;
        }
        steps.push_str("[\"take\",1,1]")?;
    }
    steps.push_str("]")?;
    Ok(steps)
}

#[test]
fn counts_steps(rt: HostRuntime) -> Result<(), Fail> {
    let text = printed(rt.alloc(), &many(rt.alloc(), 100_001)?)?;
    assert_eq!(rt; text.as_str(), "refused script TooManySteps 100001\n");
    Ok(())
}
