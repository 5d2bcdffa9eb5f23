// What `rewind` says of reports. The answers were worked out by hand.
use super::told;
use solver_top::Status;
use std::alloc::Global;
use std::process::Abort;
use std::test::Fail;
use std::thread::Threads;

const INSTANCE: &str =
    r#"{"name":"sq","points":[{"i":0,"x":0,"y":0},{"i":1,"x":0,"y":4},{"i":2,"x":4,"y":0},{"i":3,"x":4,"y":4}]}"#;

const SOLUTION: &str =
    r#"{"edges":[{"i":0,"j":1},{"i":0,"j":2},{"i":1,"j":3},{"i":2,"j":3}],"instance_name":"sq","type":"Solution"}"#;

const CERTIFICATE: &str = r#"{"q":2,"rows":[],"value":4}"#;

// The report of a square that was solved by dropping its diagonal, with two commits before that keep the state, line by
// line.
const SQUARE: [&str; 5] = [
    INSTANCE,
    SOLUTION,
    CERTIFICATE,
    r#"{"commits":[[1,1,[["d",2,1]]],[1,2,[["f",1,2,0,3],["k",0,3]]],[0,1,[["d",0,3]]]],"start":[[2,3],[1,3],[0,2],[1,2],[0,1]]}"#,
    r#"{"bound":4,"commits":[1,2],"cost":4,"edges":4,"gap":0,"optimal":true,"version":2}"#,
];

// A report of version 1, whose one commit drops the diagonal.
const SHORT: [&str; 5] = [
    INSTANCE,
    SOLUTION,
    CERTIFICATE,
    r#"{"commits":[[0,1,[["d",1,2]]]],"start":[[0,1],[0,2],[1,2],[1,3],[2,3]]}"#,
    r#"{"bound":4,"commits":[1],"edges":4,"gap":0,"optimal":true,"version":1}"#,
];

fn report_of(alloc: Global, lines: &[&str]) -> Result<String, Fail> {
    let mut text = String::new(alloc);
    for line in lines {
        text.push_str(line)?;
        text.push_str("\n")?;
    }
    Ok(text)
}

/// The square's report, with another line at an index that it has.
pub fn changed(alloc: Global, k: usize, line: &str) -> Result<String, Fail> {
    let mut lines = SQUARE;
    if k < 5 {
        lines[k] = line;
    }
    report_of(alloc, &lines)
}

// The line of a solution of the square with these edges, each as two digits.
fn solution(alloc: Global, edges: &str) -> Result<String, Fail> {
    let mut text = String::from_str(alloc, "{\"edges\":[")?;
    let mut later = false;
    for edge in edges.split_whitespace() {
        if later {
            text.push_str(",")?;
        }
        later = true;
        let (i, j) = (
            edge.chars().next().unwrap_or('0'),
            edge.chars().last().unwrap_or('0'),
        );
        text.push_str("{\"i\":")?;
        text.push(i)?;
        text.push_str(",\"j\":")?;
        text.push(j)?;
        text.push_str("}")?;
    }
    text.push_str("],\"instance_name\":\"sq\",\"type\":\"Solution\"}\n")?;
    Ok(text)
}

const MOMENTS: [(&str, &str); 4] = [
    ("rewind 0", "01 02 12 13 23"),
    ("rewind 1", "01 02 13 23"),
    ("rewind 2", "01 02 03 13 23"),
    ("rewind 3", "01 02 13 23"),
];

fn expect_moment<R: Threads + Sync + Abort>(
    rt: &R,
    alloc: Global,
    report: &str,
    line: &str,
    edges: &str,
) -> Result<(), Fail> {
    let (ended, says) = told(rt, alloc, line, report)?;
    let wanted = solution(alloc, edges)?;
    assert!(rt; says.as_str() == wanted.as_str(), "{line}");
    assert!(rt; ended == Status::Done, "{line}");
    Ok(())
}

#[test]
fn shows_each_moment(rt: HostRuntime) -> Result<(), Fail> {
    let report = changed(rt.alloc(), 5, "")?;
    for (line, edges) in MOMENTS {
        expect_moment(&rt, rt.alloc(), &report, line, edges)?;
    }
    Ok(())
}

#[test]
fn shows_moments_of_version_1(rt: HostRuntime) -> Result<(), Fail> {
    let report = report_of(rt.alloc(), &SHORT)?;
    expect_moment(&rt, rt.alloc(), &report, "rewind 0", "01 02 12 13 23")?;
    expect_moment(&rt, rt.alloc(), &report, "rewind 1", "01 02 13 23")?;
    let (ended, says) = told(&rt, rt.alloc(), "rewind 2", &report)?;
    assert_eq!(rt; says.as_str(), "refused rewind TooLate 1\n");
    assert_eq!(rt; ended, Status::Refused);
    Ok(())
}

// Words, the index of a line of the report and another line there, the status and what is said. A report that is too short
// is refused before it is checked.
const CHANGED: [(&str, usize, &str, Status, &str); 11] = [
    (
        "rewind 4",
        5,
        "",
        Status::Refused,
        "refused rewind TooLate 3\n",
    ),
    (
        "rewind 200000",
        2,
        r#"{"q":0,"rows":[],"value":4}"#,
        Status::Refused,
        "refused rewind TooLate 3\n",
    ),
    (
        "rewind 0",
        2,
        r#"{"q":0,"rows":[],"value":4}"#,
        Status::No,
        "no certificate ZeroQ\n",
    ),
    (
        "rewind 0",
        3,
        r#"{"commits":[[1,1,[["d",0,1]]]],"start":[[2,3],[1,3],[0,2],[1,2],[0,1]]}"#,
        Status::No,
        "no journal 1\n",
    ),
    (
        "rewind 1",
        3,
        r#"{"commits":[],"start":[[0,1]]}"#,
        Status::Refused,
        "refused rewind TooLate 0\n",
    ),
    (
        "rewind 3",
        1,
        r#"{"edges":[{"i":0,"j":1},{"i":0,"j":2},{"i":1,"j":3},{"i":2,"j":3}],"instance_name":"s","type":"Solution"}"#,
        Status::No,
        "no name\n",
    ),
    (
        "rewind 3",
        1,
        r#"{"edges":[{"i":0,"j":1},{"i":0,"j":2},{"i":1,"j":3}],"instance_name":"sq","type":"Solution"}"#,
        Status::No,
        "no solution\n",
    ),
    (
        "rewind 3",
        4,
        r#"{"bound":4,"commits":[1,2],"cost":4,"edges":4,"gap":0,"optimal":false,"version":2}"#,
        Status::No,
        "no summary optimal\n",
    ),
    (
        "rewind 3",
        4,
        r#"{"bound":4,"commits":[1,2],"edges":4,"gap":0,"optimal":true,"version":3}"#,
        Status::Refused,
        "refused report 5 BadField version\n",
    ),
    (
        "rewind 9",
        0,
        "[",
        Status::Refused,
        "refused report 1 NotJson\n",
    ),
    (
        "rewind 9",
        3,
        r#"{"commits":[[1,1,[]]],"start":[[0,1]]}"#,
        Status::Refused,
        "refused report 4 BadCommit 0\n",
    ),
];

#[test]
fn refuses_in_its_order(rt: HostRuntime) -> Result<(), Fail> {
    for (words, k, line, status, wanted) in CHANGED {
        let report = changed(rt.alloc(), k, line)?;
        let (ended, says) = told(&rt, rt.alloc(), words, &report)?;
        assert_eq!(rt; says.as_str(), wanted, "{words} {k}");
        assert_eq!(rt; ended, status, "{words} {k}");
    }
    Ok(())
}
