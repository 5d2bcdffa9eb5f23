use super::*;

#[test]
fn a_report_has_five_lines(rt: HostRuntime) -> Result<(), AllocError> {
    let mut text = whole(&rt)?;
    text.push(b'\n')?;
    assert!(rt; is_refused(&rt, &text, ReportFault::Lines(6)));
    text.extend_from_slice(b"{}")?;
    assert!(rt; is_refused(&rt, &text, ReportFault::Lines(7)));
    assert!(rt; is_refused(&rt, b"", ReportFault::Lines(0)));
    assert!(rt; is_refused(&rt, b"\n", ReportFault::Lines(1)));
    assert!(rt; is_refused(&rt, b"\n\n\n{}", ReportFault::Lines(4)));
    Ok(())
}

#[test]
fn first_and_second_lines_have_faults(rt: HostRuntime) -> Result<(), AllocError> {
    let table: [(usize, &[u8], ReportFault); 12] = [
        (0, b"", ReportFault::Instance(InstanceFault::NotJson)),
        (0, b"{}", ReportFault::Instance(InstanceFault::NoName)),
        (
            0,
            b"{\"name\":\"\",\"points\":[{\"x\":0,\"y\":0},{\"x\":1,\"y\":0},{\"x\":0,\"y\":0}]}",
            ReportFault::Instance(InstanceFault::Bad(BadPoints::SamePlace(0, 2))),
        ),
        (
            0,
            b"{\"costs\":1,\"name\":\"\",\"points\":[{\"x\":0,\"y\":0},{\"x\":1,\"y\":0},{\"x\":0,\"y\":1}]}",
            ReportFault::Instance(InstanceFault::BadCosts),
        ),
        (1, b"", ReportFault::Solution(SolutionFault::NotJson)),
        (1, b"[]", ReportFault::NoSolutionName),
        (1, b"{\"edges\":[{}]}", ReportFault::NoSolutionName),
        (1, b"{\"instance_name\":7}", ReportFault::NoSolutionName),
        (
            1,
            b"{\"instance_name\":\"\"}",
            ReportFault::Solution(SolutionFault::NoEdges),
        ),
        (
            1,
            b"{\"instance_name\":\"\",\"edges\":[{}]}",
            ReportFault::Solution(SolutionFault::BadEdge(0)),
        ),
        (
            1,
            b"{\"instance_name\":\"\",\"edges\":[{\"i\":0,\"j\":3},{\"i\":0,\"j\":4}]}",
            ReportFault::Solution(SolutionFault::BadEdge(1)),
        ),
        (
            1,
            b"{\"instance_name\":\"\",\"edges\":[{\"i\":0,\"j\":3},{\"i\":1,\"j\":1}]}",
            ReportFault::Solution(SolutionFault::BadEdge(1)),
        ),
    ];
    for (place, line, want) in table {
        let text = with_line(&rt, place, line)?;
        assert!(rt;
            is_refused(&rt, &text, want),
            "another fault was found in line {place}"
        );
    }
    Ok(())
}

fn cert_fault(rt: &HostRuntime, line: &[u8], want: CertLine) -> bool {
    match with_line(rt, 2, line) {
        Ok(text) => is_refused(rt, &text, ReportFault::Certificate(want)),
        Err(_) => false,
    }
}

#[test]
fn certificates_have_faults(rt: HostRuntime) {
    let table: [(&[u8], CertLine); 20] = [
        (b"", CertLine::NotJson),
        (b"{\"q\":2,\"rows\":[],\"value\":4}}", CertLine::NotJson),
        (b"[]", CertLine::NoQ),
        (b"{\"rows\":[],\"value\":4}", CertLine::NoQ),
        (b"{\"q\":\"2\",\"rows\":[],\"value\":4}", CertLine::NoQ),
        (b"{\"q\":-1,\"rows\":[],\"value\":4}", CertLine::NoQ),
        (b"{\"q\":1000001,\"rows\":[],\"value\":4}", CertLine::NoQ),
        (b"{\"q\":1.5,\"rows\":1}", CertLine::NoQ),
        (b"{\"q\":2}", CertLine::NoRows),
        (b"{\"q\":2,\"rows\":{}}", CertLine::NoRows),
        (b"{\"q\":2,\"rows\":[1]}", CertLine::BadRow(0)),
        (b"{\"q\":2,\"rows\":[[],[]]}", CertLine::BadRow(0)),
        (
            b"{\"q\":2,\"rows\":[[\"t\",0,1],[\"t\",0,1],[\"u\",0,1],[\"t\",4,1]]}",
            CertLine::BadRow(2),
        ),
        (b"{\"q\":2,\"rows\":[],\"valu\":4}", CertLine::NoValue),
        (b"{\"q\":2,\"rows\":[],\"value\":-1}", CertLine::NoValue),
        (b"{\"q\":2,\"rows\":[],\"value\":\"4\"}", CertLine::NoValue),
        (b"{\"q\":2,\"rows\":[],\"value\":1e1}", CertLine::NoValue),
        (b"{\"q\":2,\"rows\":[],\"value\":0.5}", CertLine::NoValue),
        (b"{\"q\":2,\"rows\":[],\"value\":[4]}", CertLine::NoValue),
        (
            b"{\"q\":2,\"rows\":[],\"value\":-9223372036854775809}",
            CertLine::NoValue,
        ),
    ];
    for (line, want) in table {
        assert!(rt; cert_fault(&rt, line, want), "another fault was found");
    }
}

// Whether the item is no row, as the first and as the second of a certificate's.
fn is_no_row(rt: &HostRuntime, item: &[u8]) -> bool {
    match (
        rows_line(rt, b"", item),
        rows_line(rt, b"[\"h\",0,0,0],", item),
    ) {
        (Ok(one), Ok(two)) => {
            cert_fault(rt, &one, CertLine::BadRow(0)) && cert_fault(rt, &two, CertLine::BadRow(1))
        }
        _ => false,
    }
}

fn rows_line(rt: &HostRuntime, first: &[u8], item: &[u8]) -> Result<Vec<u8>, AllocError> {
    let mut line = Vec::from_slice(rt.alloc(), b"{\"q\":2,\"rows\":[")?;
    line.extend_from_slice(first)?;
    line.extend_from_slice(item)?;
    line.extend_from_slice(b"],\"value\":0}")?;
    Ok(line)
}

#[test]
fn what_is_no_row(rt: HostRuntime) {
    let table: [&[u8]; 24] = [
        b"null",
        b"{}",
        b"[\"t\",0]",
        b"[\"t\",0,1,1]",
        b"[\"t\",4,1]",
        b"[\"t\",\"0\",1]",
        b"[\"t\",0,\"1\"]",
        b"[\"t\",0,-1]",
        b"[\"t\",0,1000000000001]",
        b"[\"T\",0,1]",
        b"[0,0,1]",
        b"[\"h\",0,1]",
        b"[\"h\",4,0,1]",
        b"[\"h\",0,4,1]",
        b"[\"h\",0,1,1000000000001]",
        b"[\"h\",0,1,1,1]",
        b"[\"c\",0,0,1]",
        b"[\"c\",0,4,1]",
        b"[\"c\",0,1,1.5]",
        b"[\"x\",0,1,2,3]",
        b"[\"x\",0,0,2,3,1]",
        b"[\"x\",0,1,3,3,1]",
        b"[\"x\",0,1,2,4,1]",
        b"[\"x\",0,1,2,3,1000000000001]",
    ];
    for (k, item) in table.iter().enumerate() {
        assert!(rt; is_no_row(&rt, item), "item {k} was read as a row");
    }
}

fn journal_fault(rt: &HostRuntime, line: &[u8], want: JournalLine) -> bool {
    match with_line(rt, 3, line) {
        Ok(text) => is_refused(rt, &text, ReportFault::Journal(want)),
        Err(_) => false,
    }
}

#[test]
fn journals_have_faults(rt: HostRuntime) {
    let table: [(&[u8], JournalLine); 14] = [
        (b"{\"start\":[],\"commits\":[]", JournalLine::NotJson),
        (b"7", JournalLine::NoStart),
        (b"{\"commits\":1}", JournalLine::NoStart),
        (b"{\"start\":\"\",\"commits\":1}", JournalLine::NoStart),
        (b"{\"start\":[{}],\"commits\":1}", JournalLine::BadStart(0)),
        (
            b"{\"start\":[[0,1],[0]],\"commits\":1}",
            JournalLine::BadStart(1),
        ),
        (b"{\"start\":[[0,1],[0,1,2]]}", JournalLine::BadStart(1)),
        (b"{\"start\":[[2,2],[0]]}", JournalLine::BadStart(0)),
        (b"{\"start\":[[0,4]]}", JournalLine::BadStart(0)),
        (b"{\"start\":[[0,1],[1,\"2\"]]}", JournalLine::BadStart(1)),
        (b"{\"start\":[[0,1]]}", JournalLine::NoCommits),
        (b"{\"start\":[],\"commits\":{}}", JournalLine::NoCommits),
        (b"{\"start\":[],\"commits\":[0]}", JournalLine::BadCommit(0)),
        (
            b"{\"start\":[],\"commits\":[[0,1,[[\"d\",0,1]]],[0,1,[]],[]]}",
            JournalLine::BadCommit(1),
        ),
    ];
    for (line, want) in table {
        assert!(rt; journal_fault(&rt, line, want), "another fault was found");
    }
}

// Whether the item is no commit, as the first and as the second of a journal's.
fn is_no_commit(rt: &HostRuntime, item: &[u8]) -> bool {
    match (
        commits_line(rt, b"", item),
        commits_line(rt, b"[16,4294967295,[[\"k\",0,1]]],", item),
    ) {
        (Ok(one), Ok(two)) => {
            journal_fault(rt, &one, JournalLine::BadCommit(0))
                && journal_fault(rt, &two, JournalLine::BadCommit(1))
        }
        _ => false,
    }
}

fn commits_line(rt: &HostRuntime, first: &[u8], item: &[u8]) -> Result<Vec<u8>, AllocError> {
    let mut line = Vec::from_slice(rt.alloc(), b"{\"start\":[],\"commits\":[")?;
    line.extend_from_slice(first)?;
    line.extend_from_slice(item)?;
    line.extend_from_slice(b"]}")?;
    Ok(line)
}

#[test]
fn what_is_no_commit(rt: HostRuntime) {
    let table: [&[u8]; 20] = [
        b"{}",
        b"[0,1]",
        b"[0,1,[[\"d\",0,1]],0]",
        b"[17,1,[[\"d\",0,1]]]",
        b"[\"0\",1,[[\"d\",0,1]]]",
        b"[0,0,[[\"d\",0,1]]]",
        b"[0,4294967296,[[\"d\",0,1]]]",
        b"[0,-1,[[\"d\",0,1]]]",
        b"[0,1,[]]",
        b"[0,1,{}]",
        b"[0,1,[1]]",
        b"[0,1,[[\"d\",0]]]",
        b"[0,1,[[\"d\",0,0]]]",
        b"[0,1,[[\"d\",0,4]]]",
        b"[0,1,[[\"d\",0,1],[\"e\",0,1]]]",
        b"[0,1,[[\"f\",0,1]]]",
        b"[0,1,[[\"d\",0,1,2,3]]]",
        b"[0,1,[[\"f\",0,1,2,2]]]",
        b"[0,1,[[\"f\",0,1,2,3,1]]]",
        b"[0,1,[[\"d\",0,1],[\"d\",0,1],[\"d\",0,1],[\"d\",0,1],[\"d\",0,1],[\"d\",0,1],[\"d\",0,1],[\"d\",0,1],[\"d\",0,1]]]",
    ];
    for (k, item) in table.iter().enumerate() {
        assert!(rt; is_no_commit(&rt, item), "item {k} was read as a commit");
    }
}

// A text with an item so many times.
fn repeated(
    rt: &HostRuntime,
    head: &[u8],
    item: &[u8],
    count: usize,
    end: &[u8],
) -> Result<Vec<u8>, AllocError> {
    let mut text = Vec::from_slice(rt.alloc(), head)?;
    for k in 0..count {
        if k > 0 {
            text.push(b',')?;
        }
        text.extend_from_slice(item)?;
    }
    text.extend_from_slice(end)?;
    Ok(text)
}

#[test]
fn lists_end_at_their_limits(rt: HostRuntime) -> Result<(), AllocError> {
    let start = repeated(&rt, b"{\"start\":[", b"[0,1]", 20_000, b"],\"commits\":[]}")?;
    let text = with_line(&rt, 3, &start)?;
    let same = match read_report(rt.alloc(), &text) {
        Ok(report) => report.start.as_slice().len() == 20_000,
        Err(_) => false,
    };
    assert!(rt; same, "the longest start was refused");
    let start = repeated(&rt, b"{\"start\":[", b"0", 20_001, b"],\"commits\":1}")?;
    assert!(rt; journal_fault(&rt, &start, JournalLine::TooManyStart(20_001)));
    let most = repeated(
        &rt,
        b"{\"start\":[],\"commits\":[",
        b"[0,1,[[\"d\",0,1]]]",
        200_000,
        b"]}",
    )?;
    let text = with_line(&rt, 3, &most)?;
    let same = match read_report(rt.alloc(), &text) {
        Ok(report) => report.commits.as_slice().len() == 200_000,
        Err(_) => false,
    };
    assert!(rt; same, "the longest journal was refused");
    let more = repeated(&rt, b"{\"start\":[],\"commits\":[", b"0", 200_001, b"]}")?;
    assert!(rt; journal_fault(&rt, &more, JournalLine::TooManyCommits(200_001)));
    let edges = repeated(
        &rt,
        b"{\"instance_name\":\"\",\"edges\":[",
        b"0",
        20_001,
        b"]}",
    )?;
    let text = with_line(&rt, 1, &edges)?;
    let want = ReportFault::Solution(SolutionFault::TooManyEdges(20_001));
    assert!(rt; is_refused(&rt, &text, want));
    Ok(())
}

fn field_fault(rt: &HostRuntime, line: &[u8], want: Field) -> bool {
    match with_line(rt, 4, line) {
        Ok(text) => is_refused(rt, &text, ReportFault::Summary(SummaryLine::BadField(want))),
        Err(_) => false,
    }
}

#[test]
fn summaries_have_faults(rt: HostRuntime) -> Result<(), AllocError> {
    let text = with_line(&rt, 4, b"{")?;
    assert!(rt; is_refused(&rt, &text, ReportFault::Summary(SummaryLine::NotJson)));
    let table: [(&[u8], Field); 27] = [
        (b"[]", Field::Bound),
        (b"{\"version\":3}", Field::Bound),
        (b"{\"bound\":\"4\"}", Field::Bound),
        (b"{\"bound\":-1}", Field::Bound),
        (b"{\"bound\":4}", Field::Commits),
        (b"{\"bound\":4,\"commits\":[]}", Field::Commits),
        (b"{\"bound\":4,\"commits\":1}", Field::Commits),
        (b"{\"bound\":4,\"commits\":[1,4294967296]}", Field::Commits),
        (b"{\"bound\":4,\"commits\":[\"1\"]}", Field::Commits),
        (
            b"{\"bound\":4,\"commits\":[1,2,3,4,5,6,7,8,9,10,11,12,13,14,15,16,17,18]}",
            Field::Commits,
        ),
        (b"{\"bound\":4,\"commits\":[1],\"version\":2}", Field::Cost),
        (
            b"{\"bound\":4,\"commits\":[1],\"cost\":-1,\"version\":2.0}",
            Field::Cost,
        ),
        (
            b"{\"bound\":4,\"commits\":[1],\"cost\":\"1\",\"version\":2}",
            Field::Cost,
        ),
        (b"{\"bound\":4,\"commits\":[1],\"version\":1}", Field::Edges),
        (b"{\"bound\":4,\"commits\":[1],\"version\":3}", Field::Edges),
        (
            b"{\"bound\":4,\"commits\":[1],\"cost\":1,\"version\":2}",
            Field::Edges,
        ),
        (
            b"{\"bound\":4,\"commits\":[1],\"edges\":4294967296}",
            Field::Edges,
        ),
        (
            b"{\"bound\":4,\"commits\":[1],\"edges\":\"1\"}",
            Field::Edges,
        ),
        (b"{\"bound\":4,\"commits\":[1],\"edges\":1}", Field::Gap),
        (
            b"{\"bound\":4,\"commits\":[1],\"edges\":1,\"gap\":-1}",
            Field::Gap,
        ),
        (
            b"{\"bound\":4,\"commits\":[1],\"edges\":1,\"gap\":1}",
            Field::Optimal,
        ),
        (
            b"{\"bound\":4,\"commits\":[1],\"edges\":1,\"gap\":1,\"optimal\":1}",
            Field::Optimal,
        ),
        (
            b"{\"bound\":4,\"commits\":[1],\"edges\":1,\"gap\":1,\"optimal\":true}",
            Field::Version,
        ),
        (
            b"{\"bound\":4,\"commits\":[1],\"edges\":1,\"gap\":1,\"optimal\":true,\"version\":0}",
            Field::Version,
        ),
        (
            b"{\"bound\":4,\"commits\":[1],\"edges\":1,\"gap\":1,\"optimal\":true,\"version\":3}",
            Field::Version,
        ),
        (
            b"{\"bound\":4,\"commits\":[1],\"edges\":1,\"gap\":1,\"optimal\":true,\"version\":\"2\"}",
            Field::Version,
        ),
        (
            b"{\"bound\":4,\"commits\":[1],\"edges\":1,\"gap\":1,\"optimal\":true,\"version\":1.5}",
            Field::Version,
        ),
    ];
    for (k, (line, want)) in table.iter().enumerate() {
        assert!(rt;
            field_fault(&rt, line, *want),
            "another fault was found in line {k}"
        );
    }
    Ok(())
}

#[test]
fn the_first_faulty_line_is_told(rt: HostRuntime) -> Result<(), AllocError> {
    let mut text = Vec::new(rt.alloc());
    for line in &LINES[..3] {
        text.extend_from_slice(line)?;
        text.push(b'\n')?;
    }
    text.extend_from_slice(b"{\"start\":[]}\n{}\n")?;
    assert!(rt; is_refused(&rt, &text, ReportFault::Journal(JournalLine::NoCommits)));
    assert!(rt;
        is_refused(
            &rt,
            b"{}\n\n\n\n\n",
            ReportFault::Instance(InstanceFault::NoName)
        )
    );
    Ok(())
}
