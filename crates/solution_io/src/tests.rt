use crate::{SolutionFault, read_solution, write_solution};
use instance_io::Name;
use plane::Pair;
use std::alloc::AllocError;

#[test]
fn faults_have_their_places(rt: HostRuntime) {
    let table: [(&[u8], SolutionFault); 15] = [
        (b"", SolutionFault::NotJson),
        (b"{\"edges\":[]} 1", SolutionFault::NotJson),
        (b"[]", SolutionFault::NoEdges),
        (b"{\"type\":\"Solution\"}", SolutionFault::NoEdges),
        (b"{\"edges\":{}}", SolutionFault::NoEdges),
        (b"{\"edges\":[1]}", SolutionFault::BadEdge(0)),
        (
            b"{\"edges\":[{\"i\":0,\"j\":1},{\"i\":0}]}",
            SolutionFault::BadEdge(1),
        ),
        (
            b"{\"edges\":[{\"i\":0,\"j\":1},{\"i\":2,\"j\":2},{\"i\":3,\"j\":3}]}",
            SolutionFault::BadEdge(1),
        ),
        (
            b"{\"edges\":[{\"i\":0,\"j\":4}]}",
            SolutionFault::BadEdge(0),
        ),
        (
            b"{\"edges\":[{\"i\":4,\"j\":0}]}",
            SolutionFault::BadEdge(0),
        ),
        (
            b"{\"edges\":[{\"i\":-1,\"j\":0}]}",
            SolutionFault::BadEdge(0),
        ),
        (
            b"{\"edges\":[{\"i\":0,\"j\":1.5}]}",
            SolutionFault::BadEdge(0),
        ),
        (
            b"{\"edges\":[{\"i\":0,\"j\":1e0}]}",
            SolutionFault::BadEdge(0),
        ),
        (
            b"{\"edges\":[{\"i\":0,\"j\":\"+1\"}]}",
            SolutionFault::BadEdge(0),
        ),
        (
            b"{\"edges\":[{\"i\":0,\"j\":99999999999999999999}]}",
            SolutionFault::BadEdge(0),
        ),
    ];
    for (text, want) in table {
        let same = match read_solution(rt.alloc(), text, 4) {
            Ok(_) => false,
            Err(fault) => fault == want,
        };
        assert!(rt; same, "another fault was found");
    }
}

#[test]
fn pairs_keep_their_order(rt: HostRuntime) -> Result<(), AllocError> {
    let text: &[u8] =
        b"{\"edges\":[{\"i\":\"2\",\"j\":\"0\"},{\"j\":1.0,\"i\":0},{\"i\":3,\"j\":2,\"k\":7},{\"i\":0,\"j\":2}]}";
    let want: [(u32, u32); 4] = [(0, 2), (0, 1), (2, 3), (0, 2)];
    let mut same = false;
    if let Ok(pairs) = read_solution(rt.alloc(), text, 4) {
        same = pairs.len() == want.len();
        for (pair, ends) in pairs.iter().zip(&want) {
            same = same && (pair.lo(), pair.hi()) == *ends;
        }
    }
    assert!(rt; same, "the pairs were read otherwise");
    let name = Name::make(String::from_str(rt.alloc(), "a\"b")?);
    let pairs = [Pair::of(3, 1), Pair::of(0, 2)];
    let written: &[u8] =
        b"{\"edges\":[{\"i\":1,\"j\":3},{\"i\":0,\"j\":2}],\"instance_name\":\"a\\\"b\",\"type\":\"Solution\"}";
    let same = match write_solution(rt.alloc(), &name, &pairs) {
        Ok(bytes) => bytes.as_slice() == written,
        Err(_) => false,
    };
    assert!(rt; same, "the pairs were written otherwise");
    Ok(())
}

// A solution of `count` equal edges.
fn repeated(rt: &HostRuntime, count: usize) -> Result<Vec<u8>, AllocError> {
    let mut text = Vec::from_slice(rt.alloc(), b"{\"edges\":[{\"i\":0,\"j\":1}")?;
    for _ in 1..count {
        text.extend_from_slice(b",{\"i\":0,\"j\":1}")?;
    }
    text.extend_from_slice(b"]}")?;
    Ok(text)
}

#[test]
fn edges_end_at_20000(rt: HostRuntime) -> Result<(), AllocError> {
    let most = repeated(&rt, 20_000)?;
    let same = match read_solution(rt.alloc(), &most, 2) {
        Ok(pairs) => pairs.len() == 20_000,
        Err(_) => false,
    };
    assert!(rt; same, "the most edges were refused");
    let more = repeated(&rt, 20_001)?;
    let same = match read_solution(rt.alloc(), &more, 1) {
        Ok(_) => false,
        Err(fault) => fault == SolutionFault::TooManyEdges(20_001),
    };
    assert!(rt; same, "too many edges were read");
    Ok(())
}
