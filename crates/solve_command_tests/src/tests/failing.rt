// Words of `solve` with edit workers, and ends that fail.
use super::{Ends, SOUND, line_of, ran, reversed, told};
use mcp_outside::OpenGate;
use solver_top::Status;
use std::test::Fail;

// Words, and what is said of them and of no input.
const LINES: [(&str, Status, &str); 15] = [
    (
        "solve 1 0 1 0",
        Status::Refused,
        "refused instance NotJson\n",
    ),
    (
        "solve 16 16 1000 18446744073709551615",
        Status::Refused,
        "refused instance NotJson\n",
    ),
    ("solve 2", Status::Usage, "usage 2\n"),
    ("solve 2 2", Status::Usage, "usage 3\n"),
    ("solve 1 0 1", Status::Usage, "usage 4\n"),
    ("solve 17 0 1 1", Status::Usage, "usage 1\n"),
    ("solve +1 0 1 1", Status::Usage, "usage 1\n"),
    ("solve 1 17 1 1", Status::Usage, "usage 2\n"),
    ("solve 1 -0 1 1", Status::Usage, "usage 2\n"),
    ("solve 1 0 1001 1", Status::Usage, "usage 3\n"),
    ("solve 16 16 01 1", Status::Usage, "usage 3\n"),
    ("solve 1 0 1e3 1", Status::Usage, "usage 3\n"),
    ("solve 1 0 1 01", Status::Usage, "usage 4\n"),
    (
        "solve 16 16 1000 18446744073709551616",
        Status::Usage,
        "usage 4\n",
    ),
    ("solve 1 0 1 1 1", Status::Usage, "usage 5\n"),
];

#[test]
fn reads_its_words(rt: HostRuntime) -> Result<(), Fail> {
    for (line, status, text) in LINES {
        let (ended, says) = told(&rt, rt.alloc(), line, "")?;
        assert_eq!(rt; ended, status, "{line}");
        assert_eq!(rt; says.as_str(), text, "{line}");
    }
    Ok(())
}

// 100 points: the second call of a sink that takes 1,000 bytes fails, and the second call of the source.
#[test]
fn a_run_beside_each_other_fails_at_a_second_call(rt: HostRuntime) -> Result<(), Fail> {
    let input = reversed(&rt, rt.alloc())?;
    let case = ("solve 4 2 50 7", input.as_str());
    let ends = Ends {
        sink_call: 2,
        ..SOUND
    };
    let (status, part) = ran(&rt, rt.alloc(), case, ends, &OpenGate)?;
    assert_eq!(rt; status, Status::WriteFault);
    assert_eq!(rt; part.len(), 1000);
    let (_, whole) = told(&rt, rt.alloc(), "solve 0 0 0 1", &input)?;
    assert!(rt; line_of(&whole, 0).starts_with(part.as_str()));
    let ends = Ends {
        source_call: 2,
        ..SOUND
    };
    let (status, part) = ran(&rt, rt.alloc(), case, ends, &OpenGate)?;
    assert_eq!(rt; status, Status::ReadFault);
    assert!(rt; part.is_empty());
    Ok(())
}

const SQUARE: &str =
    r#"{"name":"sq","points":[{"x":0,"y":0},{"x":0,"y":4},{"x":4,"y":0},{"x":4,"y":4}]}"#;

// A square beside edit workers, with each call of the source failing in turn: 80 bytes, 64 a call, and the end.
#[test]
fn each_call_of_the_source_fails_in_turn(rt: HostRuntime) -> Result<(), Fail> {
    for line in ["solve 1 0 5 7", "solve 3 1 5 7"] {
        for call in 1..4u64 {
            let ends = Ends {
                source_call: call,
                ..SOUND
            };
            let (status, part) = ran(&rt, rt.alloc(), (line, SQUARE), ends, &OpenGate)?;
            assert_eq!(rt; status, Status::ReadFault, "{line}, source call {call}");
            assert!(rt; part.is_empty(), "{line}, source call {call}");
        }
    }
    Ok(())
}

// One edit worker on the square writes one report; a sink that takes 100 bytes a call fails at each call in turn.
#[test]
fn each_call_of_the_sink_fails_in_turn(rt: HostRuntime) -> Result<(), Fail> {
    let case = ("solve 1 1 5 7", SQUARE);
    let (status, whole) = told(&rt, rt.alloc(), case.0, case.1)?;
    assert_eq!(rt; status, Status::Done);
    let calls = whole.len().div_ceil(100) as u64;
    assert!(rt; calls >= 4);
    for call in 1..=calls {
        let ends = Ends {
            step: 100,
            sink_call: call,
            ..SOUND
        };
        let (status, part) = ran(&rt, rt.alloc(), case, ends, &OpenGate)?;
        assert_eq!(rt; status, Status::WriteFault, "sink call {call}");
        assert_eq!(rt; part.len() as u64, 100 * (call - 1), "sink call {call}");
        assert!(rt; whole.starts_with(part.as_str()), "sink call {call}");
    }
    let ends = Ends {
        step: 100,
        sink_call: calls + 1,
        ..SOUND
    };
    let (status, again) = ran(&rt, rt.alloc(), case, ends, &OpenGate)?;
    assert_eq!(rt; status, Status::Done);
    assert_eq!(rt; again.as_str(), whole.as_str());
    Ok(())
}
