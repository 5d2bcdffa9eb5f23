// What `solve` and `gen-solve` write. The answers were worked out by hand.
use super::{failed, instance, ran};
use solver_top::Status;
use std::alloc::Global;
use std::process::Abort;
use std::test::Fail;
use std::thread::Threads;

pub const SQUARE: &str =
    r#"{"name":"sq","points":[{"x":0,"y":0},{"x":0,"y":4},{"x":4,"y":0},{"x":4,"y":4}]}"#;

pub const REPORT_OF_SQUARE: &str =
    r#"{"name":"sq","points":[{"i":0,"x":0,"y":0},{"i":1,"x":0,"y":4},{"i":2,"x":4,"y":0},{"i":3,"x":4,"y":4}]}
{"edges":[{"i":0,"j":1},{"i":0,"j":2},{"i":1,"j":3},{"i":2,"j":3}],"instance_name":"sq","type":"Solution"}
{"q":2,"rows":[],"value":4}
{"commits":[[0,1,[["d",1,2]]]],"start":[[0,1],[0,2],[1,2],[1,3],[2,3]]}
{"bound":4,"commits":[1],"cost":4,"edges":4,"gap":0,"optimal":true,"version":2}
"#;

const CENTRED: &str =
    r#""name":"sqc","points":[{"x":0,"y":0},{"x":0,"y":4},{"x":4,"y":0},{"x":4,"y":4},{"x":2,"y":2}]}"#;

// The line of a text, counted from 0.
fn line_of(text: &str, k: usize) -> &str {
    text.lines().nth(k).unwrap_or("")
}

// What the program writes, as text.
fn solved<R: Threads + Sync + Abort>(
    rt: &R,
    alloc: Global,
    line: &str,
    input: &str,
) -> Result<String, Fail> {
    let input = Vec::from_slice(alloc, input.as_bytes())?;
    let (status, written) = ran(rt, alloc, line, input)?;
    assert_eq!(rt; status, Status::Done, "{line}");
    Ok(String::from_utf8(written)?)
}

// Whole reports of a square, with no workers and with idle ones, and the square with its centre.
#[test]
fn reports_a_square(rt: HostRuntime) -> Result<(), Fail> {
    let report = solved(&rt, rt.alloc(), "solve 0 0 0 1", SQUARE)?;
    assert_eq!(rt; report.as_str(), REPORT_OF_SQUARE);
    let report = solved(&rt, rt.alloc(), "solve 3 2 0 1", SQUARE)?;
    assert_eq!(rt;
        line_of(&report, 4),
        r#"{"bound":4,"commits":[1,0,0,0],"cost":4,"edges":4,"gap":0,"optimal":true,"version":2}"#
    );
    let input = format!(in rt.alloc(); "{{{CENTRED}")?;
    let report = solved(&rt, rt.alloc(), "solve 0 0 0 1", &input)?;
    let lines = [
        r#"{"edges":[{"i":0,"j":1},{"i":0,"j":2},{"i":1,"j":3},{"i":1,"j":4},{"i":2,"j":3},{"i":2,"j":4}],"instance_name":"sqc","type":"Solution"}"#,
        r#"{"q":2,"rows":[["h",4,0,2],["h",4,3,2]],"value":6}"#,
        r#"{"commits":[[0,1,[["d",0,4]]],[0,2,[["d",3,4]]]],"start":[[0,1],[0,2],[0,4],[1,3],[1,4],[2,3],[2,4],[3,4]]}"#,
        r#"{"bound":6,"commits":[2],"cost":6,"edges":6,"gap":0,"optimal":true,"version":2}"#,
    ];
    for (k, line) in lines.into_iter().enumerate() {
        assert_eq!(rt; line_of(&report, 1 + k), line);
    }
    Ok(())
}

const SMALL: [(&str, &str); 3] = [
    (
        "0,0 6,0 0,6 2,1",
        r#"{"edges":[{"i":0,"j":1},{"i":0,"j":2},{"i":0,"j":3},{"i":1,"j":2},{"i":1,"j":3},{"i":2,"j":3}],"instance_name":"w","type":"Solution"}
{"q":2,"rows":[["t",3,2]],"value":6}
{"commits":[],"start":[[0,1],[0,2],[0,3],[1,2],[1,3],[2,3]]}
{"bound":6,"commits":[0],"cost":6,"edges":6,"gap":0,"optimal":true,"version":2}
"#,
    ),
    (
        "0,0 5,0 0,5",
        r#"{"edges":[{"i":0,"j":1},{"i":0,"j":2},{"i":1,"j":2}],"instance_name":"w","type":"Solution"}
{"q":2,"rows":[],"value":3}
{"commits":[],"start":[[0,1],[0,2],[1,2]]}
{"bound":3,"commits":[0],"cost":3,"edges":3,"gap":0,"optimal":true,"version":2}
"#,
    ),
    (
        "0,0 2,0 4,0 0,4",
        r#"{"edges":[{"i":0,"j":1},{"i":0,"j":3},{"i":1,"j":2},{"i":2,"j":3}],"instance_name":"w","type":"Solution"}
{"q":2,"rows":[],"value":4}
{"commits":[[0,1,[["d",1,3]]]],"start":[[0,1],[0,3],[1,2],[1,3],[2,3]]}
{"bound":4,"commits":[1],"cost":4,"edges":4,"gap":0,"optimal":true,"version":2}
"#,
    ),
];

// What follows the first line in reports of small instances, by their points.
#[test]
fn solves_small_instances(rt: HostRuntime) -> Result<(), Fail> {
    for (points, lines) in SMALL {
        let input = instance(rt.alloc(), points)?;
        let (status, written) = ran(&rt, rt.alloc(), "solve 0 0 0 1", input)?;
        assert_eq!(rt; status, Status::Done, "{points}");
        let report = String::from_utf8(written)?;
        let (_, rest) = report.split_once('\n').unwrap_or(("", ""));
        assert_eq!(rt; rest, lines, "{points}");
    }
    Ok(())
}

const COSTED: [(&str, &str, &str); 3] = [
    (
        "[[4,1,3]]",
        r#"{"q":2,"rows":[["h",4,0,2],["h",4,3,2]],"value":6}"#,
        r#"{"bound":6,"commits":[2],"cost":8,"edges":6,"gap":2,"optimal":false,"version":2}"#,
    ),
    (
        "[[4,0,3]]",
        r#"{"q":2,"rows":[["h",4,0,2],["h",4,3,2]],"value":6}"#,
        r#"{"bound":6,"commits":[2],"cost":6,"edges":6,"gap":0,"optimal":true,"version":2}"#,
    ),
    (
        "[[0,4,0],[1,4,0],[2,4,0],[3,4,0]]",
        r#"{"q":2,"rows":[["h",4,0,0],["h",4,3,0]],"value":4}"#,
        r#"{"bound":4,"commits":[2],"cost":4,"edges":6,"gap":0,"optimal":true,"version":2}"#,
    ),
];

// Costs of pairs of a square with its centre: what the certificate and the summary say then.
#[test]
fn counts_costs(rt: HostRuntime) -> Result<(), Fail> {
    for (costs, certificate, summary) in COSTED {
        let input = format!(in rt.alloc(); "{{\"costs\":{costs},{CENTRED}")?;
        let report = solved(&rt, rt.alloc(), "solve 0 0 0 1", &input)?;
        assert_eq!(rt; line_of(&report, 2), certificate, "{costs}");
        assert_eq!(rt; line_of(&report, 4), summary, "{costs}");
    }
    Ok(())
}

const REFUSED: [(&str, Status, &str); 15] = [
    (
        "solve 0 0 0 1",
        Status::Refused,
        "refused instance NotJson\n",
    ),
    (
        "solve 16 16 0 18446744073709551615",
        Status::Refused,
        "refused instance NotJson\n",
    ),
    (
        "solve 0 16 1000 0",
        Status::Refused,
        "refused instance NotJson\n",
    ),
    ("solve", Status::Usage, "usage 1\n"),
    ("solve 17 0 0 1", Status::Usage, "usage 1\n"),
    ("solve 01 0 0 1", Status::Usage, "usage 1\n"),
    ("solve 0 17 0 1", Status::Usage, "usage 2\n"),
    ("solve 0 0 1001 1", Status::Usage, "usage 3\n"),
    ("solve 1 0 1001 1", Status::Usage, "usage 3\n"),
    ("solve 1 0 0", Status::Usage, "usage 4\n"),
    ("solve 0 0 0 -1", Status::Usage, "usage 4\n"),
    ("solve 0 0 0 1 2", Status::Usage, "usage 5\n"),
    ("gen-solve heap 5 1", Status::Usage, "usage 1\n"),
    ("gen-solve ring 5001 1", Status::Usage, "usage 2\n"),
    ("gen-solve ring 5 1 1", Status::Usage, "usage 4\n"),
];

// Refusals of `solve`, and words of both commands.
#[test]
fn refuses_to_solve(rt: HostRuntime) -> Result<(), Fail> {
    for (line, status, text) in REFUSED {
        let (ended, written) = ran(&rt, rt.alloc(), line, Vec::new(rt.alloc()))?;
        assert_eq!(rt; ended, status, "{line}");
        assert_eq!(rt; written.as_slice(), text.as_bytes(), "{line}");
    }
    let input = format!(in rt.alloc(); "{{\"costs\":[[0,4,1],[4,0,2]],{CENTRED}")?;
    let (ended, written) = ran(&rt, rt.alloc(), "solve 0 0 0 1", input.into_bytes())?;
    assert_eq!(rt; ended, Status::Refused);
    assert_eq!(rt;
        written.as_slice(),
        b"refused instance BadCost 1\n".as_slice()
    );
    Ok(())
}

// Points on a parabola: nothing but the border is left. And the same line twice.
#[test]
fn solves_made_instances(rt: HostRuntime) -> Result<(), Fail> {
    let cases = ["gen-solve ring 2000 1", "gen-solve wide 2000 1"];
    for line in cases {
        let (status, written) = ran(&rt, rt.alloc(), line, Vec::new(rt.alloc()))?;
        assert_eq!(rt; status, Status::Done, "{line}");
        assert_eq!(rt;
            written.as_slice(),
            b"{\"bound\":2000,\"commits\":[1997],\"cost\":2000,\"edges\":2000,\"gap\":0,\"optimal\":true,\"version\":2}\n".as_slice(),
            "{line}"
        );
    }
    let (status, written) = ran(
        &rt,
        rt.alloc(),
        "gen-solve scatter 60 5",
        Vec::new(rt.alloc()),
    )?;
    let (again, same) = ran(
        &rt,
        rt.alloc(),
        "gen-solve scatter 60 5",
        Vec::new(rt.alloc()),
    )?;
    assert_eq!(rt; status, Status::Done);
    assert_eq!(rt; again, Status::Done);
    assert_eq!(rt; written.as_slice(), same.as_slice());
    Ok(())
}

// A source of 64 bytes a call and a sink of 100 bytes a call, with each call that is made failing in turn. The instance has
// 80 bytes, so it takes two calls and a third for its end; the report has 392, so it takes four.
#[test]
fn a_report_fails_at_each_call_in_turn(rt: HostRuntime) -> Result<(), Fail> {
    let (status, whole) = failed(&rt, rt.alloc(), ("solve 0 0 0 1", SQUARE), 4, 5)?;
    assert_eq!(rt; status, Status::Done);
    assert_eq!(rt; whole.as_slice(), REPORT_OF_SQUARE.as_bytes());
    for call in 1..4u64 {
        let (status, written) = failed(&rt, rt.alloc(), ("solve 0 0 0 1", SQUARE), call, 0)?;
        assert_eq!(rt; status, Status::ReadFault, "source call {call}");
        assert!(rt; written.is_empty(), "source call {call}");
    }
    for call in 1..5u64 {
        let (status, written) = failed(&rt, rt.alloc(), ("solve 0 0 0 1", SQUARE), 0, call)?;
        assert_eq!(rt; status, Status::WriteFault, "sink call {call}");
        assert_eq!(rt; written.len() as u64, 100 * (call - 1), "sink call {call}");
        assert!(rt; whole.starts_with(&written), "sink call {call}");
    }
    Ok(())
}
