use super::*;

#[test]
fn a_report_is_written_again(rt: HostRuntime) -> Result<(), AllocError> {
    let plain = whole(&rt)?;
    assert!(rt; is_kept(&rt, &plain), "the square's report changed");
    let full: [(usize, &[u8]); 5] = [
        (
            0,
            b"{\"costs\":[[0,3,2],[1,2,0]],\"name\":\"a \\\"b\\\"\",\"points\":[{\"i\":0,\"x\":0,\"y\":0},{\"i\":1,\"x\":-7,\"y\":4},{\"i\":2,\"x\":4,\"y\":0},{\"i\":3,\"x\":4,\"y\":4}]}",
        ),
        (
            1,
            b"{\"edges\":[{\"i\":2,\"j\":3},{\"i\":0,\"j\":1}],\"instance_name\":\"\\n\\\\\",\"type\":\"Solution\"}",
        ),
        (
            2,
            b"{\"q\":1000000,\"rows\":[[\"h\",3,3,0],[\"t\",3,1000000000000],[\"x\",0,3,1,2,7],[\"c\",1,2,5]],\"value\":9223372036854775807}",
        ),
        (
            3,
            b"{\"commits\":[[16,4294967295,[[\"d\",1,2],[\"k\",0,3],[\"f\",1,2,0,3]]],[0,1,[[\"d\",0,1]]]],\"start\":[[2,3],[0,1],[2,3]]}",
        ),
        (
            4,
            b"{\"bound\":9223372036854775807,\"commits\":[4294967295,0,7],\"cost\":9223372036854775807,\"edges\":4294967295,\"gap\":9223372036854775807,\"optimal\":false,\"version\":2}",
        ),
    ];
    for (place, line) in full {
        let text = with_line(&rt, place, line)?;
        assert!(rt; is_kept(&rt, &text), "line {place} changed");
    }
    Ok(())
}

// Whether the text with this line is read, and its line is written as wanted.
fn is_mended(rt: &HostRuntime, place: usize, line: &[u8], part: Part, want: &[u8]) -> bool {
    let Ok(text) = with_line(rt, place, line) else {
        return false;
    };
    match read_report(rt.alloc(), &text) {
        Ok(report) => is_part(rt, &report, part, want),
        Err(_) => false,
    }
}

fn is_part(rt: &HostRuntime, report: &Report, part: Part, want: &[u8]) -> bool {
    if report.summary.version != 2 {
        return false;
    }
    match write_part(rt.alloc(), report, part) {
        Ok(written) => written.as_slice() == want,
        Err(_) => false,
    }
}

#[test]
fn other_spellings_are_read(rt: HostRuntime) {
    let table: [(usize, &[u8], Part, &[u8]); 7] = [
        (
            1,
            b" {\"instance_name\":\"\\u0041\",\"meta\":[],\"edges\":[{\"j\":\"0\",\"i\":1.0}]}\r",
            Part::Solution,
            b"{\"edges\":[{\"i\":0,\"j\":1}],\"instance_name\":\"A\",\"type\":\"Solution\"}",
        ),
        (
            2,
            b"{\"value\":9223372036854775808,\"rows\":[[\"x\",3,1.0,2,-0,1]],\"q\":2.00}",
            Part::Certificate,
            b"{\"q\":2,\"rows\":[[\"x\",1,3,0,2,1]],\"value\":9223372036854775807}",
        ),
        (
            2,
            b"{\"value\":-0,\"rows\":[[\"h\",1,0,0],[\"c\",3,0,0]],\"q\":-0.0}",
            Part::Certificate,
            b"{\"q\":0,\"rows\":[[\"h\",1,0,0],[\"c\",0,3,0]],\"value\":0}",
        ),
        (
            3,
            b"{\"start\":[[3,-0]],\"commits\":[[2.0,1.0,[[\"f\",3,1,2,0]]]],\"end\":1}",
            Part::Journal,
            b"{\"commits\":[[2,1,[[\"f\",1,3,0,2]]]],\"start\":[[0,3]]}",
        ),
        (
            3,
            b"{\"start\":[],\"commits\":[[0,1,[[\"d\",1,0],[\"d\",1,0],[\"d\",1,0],[\"d\",1,0],[\"d\",1,0],[\"d\",1,0],[\"d\",1,0],[\"k\",2,0]]]]}",
            Part::Journal,
            b"{\"commits\":[[0,1,[[\"d\",0,1],[\"d\",0,1],[\"d\",0,1],[\"d\",0,1],[\"d\",0,1],[\"d\",0,1],[\"d\",0,1],[\"k\",0,2]]]],\"start\":[]}",
        ),
        (
            4,
            b"{\"version\":2.0,\"optimal\":true,\"gap\":9223372036854775808,\"edges\":1,\"cost\":1,\"commits\":[1,2,3,4,5,6,7,8,9,10,11,12,13,14,15,16,17],\"bound\":99999999999999999999}",
            Part::Summary,
            b"{\"bound\":9223372036854775807,\"commits\":[1,2,3,4,5,6,7,8,9,10,11,12,13,14,15,16,17],\"cost\":1,\"edges\":1,\"gap\":9223372036854775807,\"optimal\":true,\"version\":2}",
        ),
        (
            4,
            b"{\"bound\":1,\"commits\":[0],\"cost\":2,\"edges\":3,\"gap\":4,\"optimal\":false,\"version\":2}",
            Part::Instance,
            LINES[0],
        ),
    ];
    for (k, (place, line, part, want)) in table.iter().enumerate() {
        assert!(rt;
            is_mended(&rt, *place, line, *part, want),
            "spelling {k} was read otherwise"
        );
    }
}

#[test]
fn version_1_looks_at_no_cost(rt: HostRuntime) -> Result<(), AllocError> {
    let own: &[u8] =
        b"{\"bound\":4,\"commits\":[1],\"edges\":4,\"gap\":0,\"optimal\":true,\"version\":1}";
    let other: &[u8] =
        b"{\"bound\":4,\"commits\":[1],\"cost\":[],\"edges\":4,\"gap\":0,\"optimal\":true,\"version\":1}";
    for line in [own, other] {
        let text = with_line(&rt, 4, line)?;
        let same = match read_report(rt.alloc(), &text) {
            Ok(report) => is_first_version(&rt, &report, own),
            Err(_) => false,
        };
        assert!(rt; same, "a report of version 1 was read or written otherwise");
    }
    Ok(())
}

fn is_first_version(rt: &HostRuntime, report: &Report, want: &[u8]) -> bool {
    if report.summary.version != 1 || report.summary.cost != u64::from(report.summary.edges) {
        return false;
    }
    match write_part(rt.alloc(), report, Part::Summary) {
        Ok(written) => written.as_slice() == want && report.summary.cost == 4,
        Err(_) => false,
    }
}

#[test]
fn lines_end_as_they_may(rt: HostRuntime) -> Result<(), AllocError> {
    let mut text = whole(&rt)?;
    let last = text.pop();
    assert!(rt; last == Some(b'\n'));
    let same = match read_report(rt.alloc(), &text) {
        Ok(report) => report.summary.cost == 4,
        Err(_) => false,
    };
    assert!(rt; same, "a report without its last LF was read otherwise");
    let mut ended = Vec::new(rt.alloc());
    for line in LINES {
        ended.extend_from_slice(line)?;
        ended.extend_from_slice(b"\r\n")?;
    }
    let plain = whole(&rt)?;
    let same = match read_report(rt.alloc(), &ended) {
        Ok(report) => is_written(&rt, &report, &plain),
        Err(_) => false,
    };
    assert!(rt; same, "a report with CR LF was read otherwise");
    Ok(())
}

// Whether the text of an edit is read as this one, over four points.
fn reads_row(rt: &HostRuntime, text: &[u8]) -> bool {
    let Ok(value) = read_value(rt.alloc(), text) else {
        return false;
    };
    let Some(row) = row_of(&value, 4) else {
        return false;
    };
    let Ok(again) = row_value(rt.alloc(), &row) else {
        return false;
    };
    match again.to_vec(rt.alloc()) {
        Ok(written) => written.as_slice() == text,
        Err(_) => false,
    }
}

#[test]
fn rows_have_values(rt: HostRuntime) {
    let table: [&[u8]; 4] = [
        b"[\"h\",0,3,1]",
        b"[\"t\",3,1000000000000]",
        b"[\"x\",0,3,1,2,0]",
        b"[\"c\",2,3,9]",
    ];
    for text in table {
        assert!(rt; reads_row(&rt, text), "a row changed");
    }
}

#[test]
fn edits_are_read(rt: HostRuntime) {
    let table: [(&[u8], bool); 4] = [
        (b"[\"d\",1,0]", true),
        (b"[\"f\",1,0,2,3]", true),
        (b"[\"d\",4,0]", false),
        (b"[\"f\",1,0,2]", false),
    ];
    for (text, good) in table {
        let same = match read_value(rt.alloc(), text) {
            Ok(value) => edit_of(&value, 4).is_some() == good,
            Err(_) => false,
        };
        assert!(rt; same, "an edit was read otherwise");
    }
}
