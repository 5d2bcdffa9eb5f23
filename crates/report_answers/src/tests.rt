use crate::{Part, Told, check_text, part_of_text};
use std::alloc::Global;
use std::test::Fail;

// The report of a square without its diagonal, line by line.
const SQUARE: [&str; 5] = [
    r#"{"name":"sq","points":[{"i":0,"x":0,"y":0},{"i":1,"x":0,"y":4},{"i":2,"x":4,"y":0},{"i":3,"x":4,"y":4}]}"#,
    r#"{"edges":[{"i":0,"j":1},{"i":0,"j":2},{"i":1,"j":3},{"i":2,"j":3}],"instance_name":"sq","type":"Solution"}"#,
    r#"{"q":2,"rows":[],"value":4}"#,
    r#"{"commits":[[0,1,[["d",1,2]]]],"start":[[0,1],[0,2],[1,2],[1,3],[2,3]]}"#,
    r#"{"bound":4,"commits":[1],"cost":4,"edges":4,"gap":0,"optimal":true,"version":2}"#,
];

const VALID: &str = "valid cost 4 edges 4 bound 4 gap 0 optimal yes\n";

const NO_DROP: &str = r#"{"commits":[],"start":[[0,1],[0,2],[1,2],[1,3],[2,3]]}"#;

const ALL_FIVE: &str =
    r#"{"edges":[{"i":0,"j":1},{"i":0,"j":2},{"i":1,"j":2},{"i":1,"j":3},{"i":2,"j":3}],
"instance_name":"sq"}"#;

const COSTED: &str =
    r#"{"costs":[[1,2,7]],"name":"sq","points":[{"x":0,"y":0},{"x":0,"y":4},{"x":4,"y":0},{"x":4,"y":4}]}"#;

// The square's report with line k in the place of its own; LFs in a line are left out.
fn changed(alloc: Global, k: usize, line: &str, l: usize, other: &str) -> Result<String, Fail> {
    let mut text = String::new(alloc);
    for place in 0..5 {
        let mut this = SQUARE[place];
        if place == k {
            this = line;
        }
        if place == l {
            this = other;
        }
        for part in this.lines() {
            text.push_str(part)?;
        }
        text.push_str("\n")?;
    }
    Ok(text)
}

fn checked(alloc: Global, text: &str) -> Result<(Told, String), Fail> {
    let answer = check_text(alloc, text.as_bytes())?;
    Ok((answer.told, String::from_utf8(answer.text)?))
}

// The square's report with one line changed, and what the check says: worked out by hand.
#[test]
fn checks_changed_reports(rt: HostRuntime) -> Result<(), Fail> {
    let cases = [
        (4, SQUARE[4], Told::Yes, VALID),
        (
            3,
            r#"{"commits":[[0,1,[["d",1,2]]]],"start":[[2,3],[1,3],[0,2],[1,2],[0,1]]}"#,
            Told::Yes,
            VALID,
        ),
        (
            4,
            r#"{"bound":4,"commits":[1,0,0],"cost":4,"edges":4,"gap":0,"optimal":true,"version":2}"#,
            Told::Yes,
            VALID,
        ),
        (
            4,
            r#"{"bound":4,"commits":[1],"edges":4,"gap":0,"optimal":true,"version":1}"#,
            Told::Yes,
            "valid edges 4 bound 4 gap 0 optimal yes\n",
        ),
        (
            1,
            r#"{"edges":[{"i":0,"j":1},{"i":0,"j":2},{"i":1,"j":3},{"i":2,"j":3}],"instance_name":"sr"}"#,
            Told::No,
            "no name\n",
        ),
        (
            1,
            r#"{"edges":[{"i":0,"j":1},{"i":0,"j":2},{"i":1,"j":3}],"instance_name":"sq"}"#,
            Told::No,
            "no solution\n",
        ),
        (
            3,
            r#"{"commits":[],"start":[[0,1],[0,2],[1,3],[2,3]]}"#,
            Told::No,
            "no start\n",
        ),
        (
            3,
            r#"{"commits":[],"start":[[0,1],[0,2],[1,2],[1,3],[2,3],[0,1]]}"#,
            Told::No,
            "no start\n",
        ),
        (
            3,
            r#"{"commits":[[0,1,[["d",0,1]]]],"start":[[0,1],[0,2],[1,2],[1,3],[2,3]]}"#,
            Told::No,
            "no journal 1\n",
        ),
        (
            3,
            r#"{"commits":[[0,1,[["d",1,2]]],[0,1,[["k",1,2]]]],"start":[[0,1],[0,2],[1,2],[1,3],[2,3]]}"#,
            Told::No,
            "no journal 2\n",
        ),
        (3, NO_DROP, Told::No, "no result\n"),
        (
            2,
            r#"{"q":0,"rows":[],"value":4}"#,
            Told::No,
            "no certificate ZeroQ\n",
        ),
        (
            2,
            r#"{"q":2,"rows":[["t",0,1]],"value":4}"#,
            Told::No,
            "no certificate BadRow 0\n",
        ),
        (
            2,
            r#"{"q":2,"rows":[],"value":5}"#,
            Told::No,
            "no certificate value\n",
        ),
    ];
    for (k, line, told, answer) in cases {
        let text = changed(rt.alloc(), k, line, 5, "")?;
        let (says, line) = checked(rt.alloc(), &text)?;
        assert_eq!(rt; line.as_str(), answer, "{k} {text}");
        assert_eq!(rt; says, told, "{k} {text}");
    }
    Ok(())
}

// Two lines changed: the pair that can go, and a report of version 1 of an instance with costs.
#[test]
fn checks_reports_changed_twice(rt: HostRuntime) -> Result<(), Fail> {
    let text = changed(rt.alloc(), 1, ALL_FIVE, 3, NO_DROP)?;
    let (says, line) = checked(rt.alloc(), &text)?;
    assert_eq!(rt; line.as_str(), "no least 1-2\n");
    assert_eq!(rt; says, Told::No);
    let summary = r#"{"bound":4,"commits":[1],"edges":4,"gap":0,"optimal":true,"version":1}"#;
    let text = changed(rt.alloc(), 0, COSTED, 4, summary)?;
    let (says, line) = checked(rt.alloc(), &text)?;
    assert_eq!(rt; line.as_str(), "no summary version\n");
    assert_eq!(rt; says, Told::No);
    Ok(())
}

// A field of the summary changed: the first that is wrong is told, in the order of the keys.
#[test]
fn tells_the_first_wrong_field(rt: HostRuntime) -> Result<(), Fail> {
    let cases = [
        (3, 1, 4, 4, 0, "true", "bound"),
        (4, 2, 5, 5, 0, "true", "commits"),
        (4, 1, 5, 5, 0, "true", "cost"),
        (4, 1, 4, 5, 1, "true", "edges"),
        (4, 1, 4, 4, 1, "false", "gap"),
        (4, 1, 4, 4, 0, "false", "optimal"),
    ];
    for (bound, commits, cost, edges, gap, optimal, field) in cases {
        let front = format!(in rt.alloc();
            "{{\"bound\":{bound},\"commits\":[{commits}],\"cost\":{cost},"
        )?;
        let back = format!(in rt.alloc();
            "\"edges\":{edges},\"gap\":{gap},\"optimal\":{optimal},\"version\":2}}"
        )?;
        let line = format!(in rt.alloc(); "{front}{back}")?;
        let text = changed(rt.alloc(), 4, &line, 5, "")?;
        let (says, line) = checked(rt.alloc(), &text)?;
        let answer = format!(in rt.alloc(); "no summary {field}\n")?;
        assert_eq!(rt; line.as_str(), answer.as_str());
        assert_eq!(rt; says, Told::No, "{field}");
    }
    Ok(())
}

// Texts that are no report, by their first fault, for both calls.
#[test]
fn refuses_what_is_no_report(rt: HostRuntime) -> Result<(), Fail> {
    let cases = [
        (0, "[", "1 NotJson"),
        (0, r#"{"name":"sq","points":[]}"#, "1 TooFew 0"),
        (1, r#"{"edges":[]}"#, "2 NoName"),
        (
            1,
            r#"{"edges":[{"i":0,"j":4}],"instance_name":"sq"}"#,
            "2 BadEdge 0",
        ),
        (2, r#"{"q":-1,"rows":[],"value":4}"#, "3 NoQ"),
        (2, r#"{"q":2,"rows":[["h",0,4,1]],"value":4}"#, "3 BadRow 0"),
        (3, r#"{"commits":[],"start":[[0,0]]}"#, "4 BadStart 0"),
        (
            3,
            r#"{"commits":[[0,1,[]]],"start":[[0,1]]}"#,
            "4 BadCommit 0",
        ),
        (4, r#"{"bound":4}"#, "5 BadField commits"),
    ];
    for (k, line, fault) in cases {
        let text = changed(rt.alloc(), k, line, 5, "")?;
        let answer = format!(in rt.alloc(); "refused report {fault}\n")?;
        let (says, line) = checked(rt.alloc(), &text)?;
        assert_eq!(rt; line.as_str(), answer.as_str());
        assert_eq!(rt; says, Told::Refused, "{fault}");
        let parted = part_of_text(rt.alloc(), text.as_bytes(), Part::Journal)?;
        assert_eq!(rt; parted.text.as_slice(), answer.as_bytes());
    }
    let (says, line) = checked(rt.alloc(), "")?;
    assert_eq!(rt; line.as_str(), "refused report Lines 0\n");
    assert_eq!(rt; says, Told::Refused);
    Ok(())
}

// Each part is its line.
#[test]
fn shows_each_part(rt: HostRuntime) -> Result<(), Fail> {
    let parts = [
        Part::Instance,
        Part::Solution,
        Part::Certificate,
        Part::Journal,
        Part::Summary,
    ];
    let text = changed(rt.alloc(), 5, "", 5, "")?;
    for (k, part) in parts.into_iter().enumerate() {
        let answer = part_of_text(rt.alloc(), text.as_bytes(), part)?;
        let line = format!(in rt.alloc(); "{}\n", SQUARE[k])?;
        assert_eq!(rt; answer.text.as_slice(), line.as_bytes());
        assert_eq!(rt; answer.told, Told::Yes);
    }
    Ok(())
}
