// What `edit` says of sessions. The answers were worked out by hand.
use super::told;
use solver_top::Status;
use std::alloc::Global;
use std::test::Fail;

/// The session of a square with these costs and commands.
pub fn session(alloc: Global, costs: &str, commands: &str) -> Result<String, Fail> {
    Ok(format!(in alloc;
        "{{\"commands\":{commands},\"instance\":{{\"costs\":{costs},\"name\":\"sq\",\"points\":[{{\"x\":0,\"y\":0}},\
          {{\"x\":0,\"y\":4}},{{\"x\":4,\"y\":0}},{{\"x\":4,\"y\":4}}]}}}}"
    )?)
}

const THERE_AND_BACK: &str =
    r#"[["commit",[["d",1,2]]],["look",1],["undo"],["undo"],["commit",[["d",0,1]]],["bound"]]"#;

// Costs, commands, and the lines that are printed of them. The diagonal 1-2 is dear in two of them, and a side costs
// nothing in one.
const RUNS: [(&str, &str, &str); 6] = [
    ("[]", "[]", "end commits 0 segments 5\n"),
    (
        "[]",
        THERE_AND_BACK,
        "commit 1\nstar 1 stamp 1 3* 0* 2\ncommit 2\nnothing\nillegal 0 Border\nbound 4 cost 5\n\
         end commits 2 segments 5\n",
    ),
    (
        "[[2,1,5]]",
        THERE_AND_BACK,
        "commit 1\nstar 1 stamp 1 3* 0* 2\ncommit 2\nnothing\nillegal 0 Border\nbound 4 cost 9\n\
         end commits 2 segments 5\n",
    ),
    (
        "[[2,1,5],[0,1,0]]",
        r#"[["bound"],["commit",[["d",1,2]]],["bound"],["undo"],["bound"]]"#,
        "bound 3 cost 8\ncommit 1\nbound 3 cost 3\ncommit 2\nbound 3 cost 8\nend commits 2 segments 5\n",
    ),
    (
        "[]",
        r#"[["commit",[["d",1,2]]],["bound"],["commit",[["f",1,2,0,3]]],["look",2.0],["undo"],["undo"],["look",2]]"#,
        "commit 1\nbound 4 cost 4\ncommit 2\nstar 2 stamp 2 3* 0*\ncommit 3\ncommit 4\nstar 2 stamp 4 3* 1* 0*\n\
         end commits 4 segments 5\n",
    ),
    (
        "[]",
        r#"[["commit",[["d",1,2],["f",1,2,0,3],["d",0,3]]],["undo"],["commit",[["d",1,2],["f",2,1,3,0],["k",0,3]]],["undo"],
            ["look",3]]"#,
        "illegal 2 NotKept\nnothing\ncommit 1\ncommit 2\nstar 3 stamp 2 1* 2*\nend commits 2 segments 5\n",
    ),
];

#[test]
fn plays_sessions(rt: HostRuntime) -> Result<(), Fail> {
    for (costs, commands, lines) in RUNS {
        let text = session(rt.alloc(), costs, commands)?;
        let (ended, says) = told(&rt, rt.alloc(), "edit", &text)?;
        assert_eq!(rt; says.as_str(), lines, "{commands}");
        assert_eq!(rt; ended, Status::Done, "{commands}");
    }
    Ok(())
}

// Texts that are no session, and the fault: the parts come first, then the instance, then the commands.
const REFUSED: [(&str, &str); 12] = [
    ("", "session NotJson"),
    ("[]", "session NoInstance"),
    (r#"{"commands":7}"#, "session NoInstance"),
    (r#"{"instance":{}}"#, "session NoCommands"),
    (r#"{"instance":{},"commands":{}}"#, "session NoCommands"),
    (r#"{"instance":{},"commands":[7]}"#, "instance NoName"),
    (
        r#"{"instance":{"name":"w","points":[]},"commands":[7]}"#,
        "instance TooFew 0",
    ),
    (
        r#"{"instance":{"name":"w","points":[{"x":0,"y":0},{"x":0,"y":4},{"x":4,"y":0}],"costs":[[0,1,-1]]},"commands":[7]}"#,
        "instance BadCost 0",
    ),
    (
        r#"{"instance":{"name":"w","points":[{"x":0,"y":0},{"x":0,"y":4},{"x":4,"y":0}]},"commands":[["undo"],7]}"#,
        "session BadCommand 1",
    ),
    (
        r#"{"instance":{"name":"w","points":[{"x":0,"y":0},{"x":0,"y":4},{"x":4,"y":0}]},"commands":[["look",3]]}"#,
        "session BadCommand 0",
    ),
    (
        r#"{"instance":{"name":"w","points":[{"x":0,"y":0},{"x":0,"y":4},{"x":4,"y":0}]},"commands":[["commit",[["d",1,3]]]]}"#,
        "session BadCommand 0",
    ),
    (
        r#"{"instance":{"name":"w","points":[{"x":0,"y":0},{"x":0,"y":4},{"x":4,"y":0}]},"commands":[["undo",0]]}"#,
        "session BadCommand 0",
    ),
];

#[test]
fn refuses_what_is_no_session(rt: HostRuntime) -> Result<(), Fail> {
    for (text, fault) in REFUSED {
        let (ended, says) = told(&rt, rt.alloc(), "edit", text)?;
        let line = format!(in rt.alloc(); "refused {fault}\n")?;
        assert_eq!(rt; says.as_str(), line.as_str());
        assert_eq!(rt; ended, Status::Refused, "{fault}");
    }
    Ok(())
}

// As many commands as are taken, and one more.
const COUNTS: [(usize, Status, &str); 2] = [
    (100_000, Status::Refused, "refused session BadCommand 0\n"),
    (
        100_001,
        Status::Refused,
        "refused session TooManyCommands 100001\n",
    ),
];

#[test]
fn counts_commands(rt: HostRuntime) -> Result<(), Fail> {
    for (count, status, line) in COUNTS {
        let mut commands = String::from_str(rt.alloc(), "[7")?;
        for _ in 1..count {
            commands.push_str(",7")?;
        }
        commands.push_str("]")?;
        let text = session(rt.alloc(), "[]", &commands)?;
        let (ended, says) = told(&rt, rt.alloc(), "edit", &text)?;
        assert_eq!(rt; says.as_str(), line);
        assert_eq!(rt; ended, status);
    }
    Ok(())
}
