// Sessions on a square, worked out by hand.
use crate::{SessionFault, read_session, refused_line, session_text};
use std::alloc::Global;
use std::test::Fail;

const SQUARE: &str =
    r#""instance":{"name":"sq","points":[{"x":0,"y":0},{"x":0,"y":4},{"x":4,"y":0},{"x":4,"y":4}]}"#;

// What is printed of the square with these commands.
fn printed(alloc: Global, commands: &str) -> Result<String, Fail> {
    let text = format!(in alloc; "{{{SQUARE},\"commands\":{commands}}}")?;
    told(alloc, &text)
}

// What is printed of a text.
fn told(alloc: Global, text: &str) -> Result<String, Fail> {
    match read_session(alloc, text.as_bytes()) {
        Ok(script) => Ok(String::from_utf8(session_text(alloc, script)?)?),
        Err(fault) => Ok(refused_line(alloc, fault)?),
    }
}

// Commands, and the lines that are printed of them.
const RUNS: [(&str, &str); 4] = [
    ("[]", "end commits 0 segments 5\n"),
    (
        r#"[["commit",[["d",1,2]]],["look",1],["undo"],["undo"],["commit",[["d",0,1]]],["bound"]]"#,
        "commit 1\nstar 1 stamp 1 3* 0* 2\ncommit 2\nnothing\nillegal 0 Border\nbound 4 cost 5\n\
         end commits 2 segments 5\n",
    ),
    (
        r#"[["commit",[["d",2,1]]],["commit",[["f",1,2,3,0]]],["commit",[["k",0,3]]],["look",0],["undo"],["undo"],["undo"],
            ["undo"],["look",0.0],["look",2]]"#,
        "commit 1\ncommit 2\ncommit 3\nstar 0 stamp 3 2* 3* 1*\ncommit 4\ncommit 5\ncommit 6\nnothing\n\
         star 0 stamp 5 2* 1*\nstar 2 stamp 6 3* 1* 0*\nend commits 6 segments 5\n",
    ),
    (
        r#"[["commit",[["d",1,2],["d",0,2]]],["commit",[["d",1,2],["k",1,2],["d",1,2],["d",1,2]]],["bound"],["undo"],
            ["commit",[["k",0,3]]]]"#,
        "illegal 1 Border\nillegal 3 NotKept\nbound 4 cost 5\nnothing\nillegal 0 NotThere\nend commits 0 segments 5\n",
    ),
];

#[test]
fn plays_sessions_on_a_square(rt: HostRuntime) -> Result<(), Fail> {
    for (commands, lines) in RUNS {
        let text = printed(rt.alloc(), commands)?;
        assert_eq!(rt; text.as_str(), lines);
    }
    Ok(())
}

// Commands of the square that are no commands, and the fault.
const BAD_COMMANDS: [(&str, &str); 14] = [
    ("{}", "session NoCommands"),
    (r#"[["look",3],["look",4]]"#, "session BadCommand 1"),
    (r#"[["look","1"]]"#, "session BadCommand 0"),
    (r#"[["look"]]"#, "session BadCommand 0"),
    (r#"[["look",1,1]]"#, "session BadCommand 0"),
    (r#"[["undo",1]]"#, "session BadCommand 0"),
    (r#"[["bound"],["undo"],["take"]]"#, "session BadCommand 2"),
    (r#"[["commit"]]"#, "session BadCommand 0"),
    (r#"[["commit",[]]]"#, "session BadCommand 0"),
    (r#"[["commit",[["d",1,1]]]]"#, "session BadCommand 0"),
    (r#"[["commit",[["d",1,4]]]]"#, "session BadCommand 0"),
    (r#"[["commit",[["f",0,1,2,2]]]]"#, "session BadCommand 0"),
    (r#"[["undo"],7]"#, "session BadCommand 1"),
    (r#"[[]]"#, "session BadCommand 0"),
];

// Texts that are no sessions, and the fault.
const BAD_TEXTS: [(&str, &str); 6] = [
    ("", "session NotJson"),
    ("[]", "session NoInstance"),
    (r#"{"commands":[]}"#, "session NoInstance"),
    (r#"{"instance":{}}"#, "session NoCommands"),
    (r#"{"instance":{},"commands":[7]}"#, "instance NoName"),
    (
        r#"{"instance":{"name":"w","points":[]},"commands":[7]}"#,
        "instance TooFew 0",
    ),
];

#[test]
fn refuses_what_is_no_session(rt: HostRuntime) -> Result<(), Fail> {
    for (commands, fault) in BAD_COMMANDS {
        let line = format!(in rt.alloc(); "refused {fault}\n")?;
        let text = printed(rt.alloc(), commands)?;
        assert_eq!(rt; text.as_str(), line.as_str());
    }
    for (input, fault) in BAD_TEXTS {
        let line = format!(in rt.alloc(); "refused {fault}\n")?;
        let text = told(rt.alloc(), input)?;
        assert_eq!(rt; text.as_str(), line.as_str());
    }
    Ok(())
}

// So many commands, each a look at a vertex.
fn many(alloc: Global, count: usize) -> Result<String, Fail> {
    let mut commands = String::from_str(alloc, "[")?;
    for place in 0..count {
        if place > 0 {
            commands.push_str(",")?;
        }
        commands.push_str("[\"look\",1]")?;
    }
    commands.push_str("]")?;
    Ok(commands)
}

#[test]
fn counts_commands(rt: HostRuntime) -> Result<(), Fail> {
    let text = printed(rt.alloc(), &many(rt.alloc(), 100_001)?)?;
    assert_eq!(rt; text.as_str(), "refused session TooManyCommands 100001\n");
    Ok(())
}
