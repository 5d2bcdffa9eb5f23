// What `check` and `part` say of reports. The answers were worked out by hand.
use super::solving::{REPORT_OF_SQUARE, SQUARE};
use super::{ran, told};
use solver_top::Status;
use std::alloc::Global;
use std::test::Fail;

const REPORT_OF_CENTRED: &str =
    r#"{"name":"sqc","points":[{"i":0,"x":0,"y":0},{"i":1,"x":0,"y":4},{"i":2,"x":4,"y":0},{"i":3,"x":4,"y":4},{"i":4,"x":2,"y":2}]}
{"edges":[{"i":0,"j":1},{"i":0,"j":2},{"i":1,"j":3},{"i":1,"j":4},{"i":2,"j":3},{"i":2,"j":4}],"instance_name":"sqc","type":"Solution"}
{"q":2,"rows":[["h",4,0,2],["h",4,3,2]],"value":6}
{"commits":[[0,1,[["d",0,4]]],[0,2,[["d",3,4]]]],"start":[[0,1],[0,2],[0,4],[1,3],[1,4],[2,3],[2,4],[3,4]]}
{"bound":6,"commits":[2],"cost":6,"edges":6,"gap":0,"optimal":true,"version":2}
"#;

const ALL_FIVE: &str =
    r#"{"edges":[{"i":0,"j":1},{"i":0,"j":2},{"i":1,"j":2},{"i":1,"j":3},{"i":2,"j":3}],"instance_name":"sq"}"#;

const NO_COMMITS: &str = r#"{"commits":[],"start":[[0,1],[0,2],[1,2],[1,3],[2,3]]}"#;

const OLD_SUMMARY: &str =
    r#"{"bound":4,"commits":[1],"edges":4,"gap":0,"optimal":true,"version":1}"#;

// A report with this line in the place of line k, counted from 0.
fn with_line(alloc: Global, report: &str, k: usize, line: &str) -> Result<String, Fail> {
    let mut text = String::new(alloc);
    for (place, own) in report.lines().enumerate() {
        text.push_str(if place == k { line } else { own })?;
        text.push_str("\n")?;
    }
    Ok(text)
}

// The square's report with one line changed, and what is said of it.
const CHANGED: [(usize, &str, Status, &str); 20] = [
    (
        5,
        "",
        Status::Done,
        "valid cost 4 edges 4 bound 4 gap 0 optimal yes\n",
    ),
    (
        4,
        OLD_SUMMARY,
        Status::Done,
        "valid edges 4 bound 4 gap 0 optimal yes\n",
    ),
    (
        1,
        r#"{"edges":[{"i":0,"j":1},{"i":0,"j":2},{"i":1,"j":3},{"i":2,"j":3}],"instance_name":"s"}"#,
        Status::No,
        "no name\n",
    ),
    (
        1,
        r#"{"edges":[{"i":0,"j":1},{"i":0,"j":2},{"i":1,"j":3}],"instance_name":"sq"}"#,
        Status::No,
        "no solution\n",
    ),
    (
        3,
        r#"{"commits":[],"start":[[0,1],[0,2],[1,3],[2,3]]}"#,
        Status::No,
        "no start\n",
    ),
    (
        3,
        r#"{"commits":[[0,1,[["d",1,2]]]],"start":[[0,1],[0,2],[0,3],[1,3],[2,3]]}"#,
        Status::No,
        "no journal 1\n",
    ),
    (
        3,
        r#"{"commits":[[0,1,[["d",1,2]]],[0,1,[["d",1,2]]]],"start":[[0,1],[0,2],[1,2],[1,3],[2,3]]}"#,
        Status::No,
        "no journal 2\n",
    ),
    (3, NO_COMMITS, Status::No, "no result\n"),
    (
        2,
        r#"{"q":0,"rows":[],"value":4}"#,
        Status::No,
        "no certificate ZeroQ\n",
    ),
    (
        2,
        r#"{"q":2,"rows":[],"value":5}"#,
        Status::No,
        "no certificate value\n",
    ),
    (
        4,
        r#"{"bound":3,"commits":[1],"cost":4,"edges":4,"gap":1,"optimal":false,"version":2}"#,
        Status::No,
        "no summary bound\n",
    ),
    (
        4,
        r#"{"bound":4,"commits":[2],"cost":4,"edges":4,"gap":0,"optimal":true,"version":2}"#,
        Status::No,
        "no summary commits\n",
    ),
    (
        4,
        r#"{"bound":4,"commits":[1],"cost":5,"edges":4,"gap":1,"optimal":false,"version":2}"#,
        Status::No,
        "no summary cost\n",
    ),
    (
        4,
        r#"{"bound":4,"commits":[1],"cost":4,"edges":5,"gap":0,"optimal":true,"version":2}"#,
        Status::No,
        "no summary edges\n",
    ),
    (
        4,
        r#"{"bound":4,"commits":[1],"cost":4,"edges":4,"gap":1,"optimal":true,"version":2}"#,
        Status::No,
        "no summary gap\n",
    ),
    (
        4,
        r#"{"bound":4,"commits":[1],"cost":4,"edges":4,"gap":0,"optimal":false,"version":2}"#,
        Status::No,
        "no summary optimal\n",
    ),
    (
        4,
        r#"{"bound":4,"commits":[1],"cost":4,"edges":4,"gap":0,"optimal":true,"version":3}"#,
        Status::Refused,
        "refused report 5 BadField version\n",
    ),
    (
        2,
        r#"{"q":2,"rows":[["h",0,4,1]],"value":4}"#,
        Status::Refused,
        "refused report 3 BadRow 0\n",
    ),
    (4, "{}\n{}", Status::Refused, "refused report Lines 6\n"),
    (0, "[", Status::Refused, "refused report 1 NotJson\n"),
];

#[test]
fn checks_changed_reports(rt: HostRuntime) -> Result<(), Fail> {
    for (k, line, status, text) in CHANGED {
        let report = with_line(rt.alloc(), REPORT_OF_SQUARE, k, line)?;
        let (ended, says) = told(&rt, rt.alloc(), "check", &report)?;
        assert_eq!(rt; says.as_str(), text, "{k} {line}");
        assert_eq!(rt; ended, status, "{k} {line}");
    }
    let two = with_line(rt.alloc(), REPORT_OF_SQUARE, 3, NO_COMMITS)?;
    let (ended, says) = told(
        &rt,
        rt.alloc(),
        "check",
        &with_line(rt.alloc(), &two, 1, ALL_FIVE)?,
    )?;
    assert_eq!(rt; says.as_str(), "no least 1-2\n");
    assert_eq!(rt; ended, Status::No);
    let (front, _) = REPORT_OF_SQUARE.split_once("\"rows\"").unwrap_or(("", ""));
    let (ended, says) = told(&rt, rt.alloc(), "check", front)?;
    assert_eq!(rt; says.as_str(), "refused report Lines 3\n");
    assert_eq!(rt; ended, Status::Refused);
    Ok(())
}

// Certificates of a square with its centre, and what is said of its report with them.
const CERTIFICATES: [(&str, Status, &str); 3] = [
    (
        r#"{"q":2,"rows":[["h",4,0,2],["h",4,3,2]],"value":6}"#,
        Status::Done,
        "valid cost 6 edges 6 bound 6 gap 0 optimal yes\n",
    ),
    (
        r#"{"q":2,"rows":[["h",4,0,2],["h",4,3,2],["t",4,1]],"value":6}"#,
        Status::No,
        "no certificate BadRow 2\n",
    ),
    (
        r#"{"q":2,"rows":[["h",4,0,3],["h",4,3,2]],"value":6}"#,
        Status::No,
        "no certificate Overload 2-4 3\n",
    ),
];

#[test]
fn checks_certificates(rt: HostRuntime) -> Result<(), Fail> {
    for (line, status, text) in CERTIFICATES {
        let report = with_line(rt.alloc(), REPORT_OF_CENTRED, 2, line)?;
        let (ended, says) = told(&rt, rt.alloc(), "check", &report)?;
        assert_eq!(rt; says.as_str(), text, "{line}");
        assert_eq!(rt; ended, status, "{line}");
    }
    Ok(())
}

const PARTS: [&str; 5] = [
    "part instance",
    "part solution",
    "part certificate",
    "part journal",
    "part summary",
];

// Each part is its line, in both versions, and a text that is no report is refused.
#[test]
fn shows_each_part(rt: HostRuntime) -> Result<(), Fail> {
    let old = with_line(rt.alloc(), REPORT_OF_SQUARE, 4, OLD_SUMMARY)?;
    for report in [REPORT_OF_SQUARE, REPORT_OF_CENTRED, old.as_str()] {
        for (k, part) in PARTS.into_iter().enumerate() {
            let (ended, says) = told(&rt, rt.alloc(), part, report)?;
            let line = format!(in rt.alloc(); "{}\n", report.lines().nth(k).unwrap_or(""))?;
            assert_eq!(rt; says.as_str(), line.as_str(), "{part}");
            assert_eq!(rt; ended, Status::Done, "{part}");
        }
    }
    let (ended, says) = told(&rt, rt.alloc(), "part journal", "{}")?;
    assert_eq!(rt; says.as_str(), "refused report Lines 1\n");
    assert_eq!(rt; ended, Status::Refused);
    Ok(())
}

// What is solved is valid.
#[test]
fn what_is_solved_is_valid(rt: HostRuntime) -> Result<(), Fail> {
    let (_, made) = ran(&rt, rt.alloc(), "gen scatter 60 5", Vec::new(rt.alloc()))?;
    let made = String::from_utf8(made)?;
    for (line, input) in [
        ("solve 0 0 0 1", SQUARE),
        ("solve 3 2 0 1", made.as_str()),
        ("solve 0 1 20 7", made.as_str()),
    ] {
        let (_, report) = told(&rt, rt.alloc(), line, input)?;
        let (ended, says) = told(&rt, rt.alloc(), "check", &report)?;
        assert!(rt; says.starts_with("valid cost "), "{line}");
        assert_eq!(rt; ended, Status::Done, "{line}");
    }
    Ok(())
}
