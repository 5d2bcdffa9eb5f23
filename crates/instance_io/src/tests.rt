use crate::{InstanceFault, read_instance, write_instance};
use plane::BadPoints;
use std::alloc::AllocError;

// What is written for the instance that a text is, or its fault.
fn written(rt: &HostRuntime, text: &[u8]) -> Result<Vec<u8>, InstanceFault> {
    match read_instance(rt.alloc(), text) {
        Ok(instance) => match write_instance(rt.alloc(), &instance) {
            Ok(bytes) => Ok(bytes),
            Err(_) => Err(InstanceFault::NoMemory),
        },
        Err(fault) => Err(fault),
    }
}

#[test]
fn instances_are_read_and_written(rt: HostRuntime) {
    let table: [(&[u8], &[u8]); 5] = [
        (
            b"{\"name\":\"w\",\"points\":[{\"x\":0,\"y\":0},{\"x\":12,\"y\":12.0},{\"x\":0,\"y\":5}]}",
            b"{\"name\":\"w\",\"points\":[{\"i\":0,\"x\":0,\"y\":0},{\"i\":1,\"x\":12,\"y\":12},{\"i\":2,\"x\":0,\"y\":5}]}",
        ),
        (
            b"{\"name\":\"w\",\"points\":[{\"x\":0,\"y\":0},{\"x\":12,\"y\":-0},{\"x\":0,\"y\":\"5\"}]}",
            b"{\"name\":\"w\",\"points\":[{\"i\":0,\"x\":0,\"y\":0},{\"i\":1,\"x\":12,\"y\":0},{\"i\":2,\"x\":0,\"y\":5}]}",
        ),
        (
            b"{\"type\":\"Instance\",\"points\":[{\"i\":2,\"x\":0,\"y\":5},{\"i\":\"0\",\"x\":0,\"y\":0},\
              {\"i\":1.0,\"x\":12,\"y\":0}],\"name\":\"a\\\"b\"}",
            b"{\"name\":\"a\\\"b\",\"points\":[{\"i\":0,\"x\":0,\"y\":0},{\"i\":1,\"x\":12,\"y\":0},{\"i\":2,\"x\":0,\"y\":5}]}",
        ),
        (
            b"{\"name\":\"\",\"points\":[{\"x\":-2305843009213693951,\"y\":-2305843009213693951},\
              {\"x\":2305843009213693951,\"y\":-2305843009213693951},\
              {\"x\":-2305843009213693951,\"y\":2305843009213693951}]}",
            b"{\"name\":\"\",\"points\":[{\"i\":0,\"x\":-2305843009213693951,\"y\":-2305843009213693951},\
              {\"i\":1,\"x\":2305843009213693951,\"y\":-2305843009213693951},\
              {\"i\":2,\"x\":-2305843009213693951,\"y\":2305843009213693951}]}",
        ),
        (
            b" {\"name\":\"1.0\",\"points\":[{\"x\":0,\"y\":0,\"z\":[1e3]},{\"x\":1,\"y\":0},{\"x\":0,\"y\":1}]} ",
            b"{\"name\":\"1.0\",\"points\":[{\"i\":0,\"x\":0,\"y\":0},{\"i\":1,\"x\":1,\"y\":0},{\"i\":2,\"x\":0,\"y\":1}]}",
        ),
    ];
    for (text, want) in table {
        let same = match written(&rt, text) {
            Ok(bytes) => bytes.as_slice() == want,
            Err(_) => false,
        };
        assert!(rt; same, "an instance was read or written otherwise");
    }
}

#[test]
fn faults_have_their_places(rt: HostRuntime) {
    let table: [(&[u8], InstanceFault); 23] = [
        (b"", InstanceFault::NotJson),
        (b"[]", InstanceFault::NoName),
        (b"{\"name\":1,\"points\":[]}", InstanceFault::NoName),
        (b"{\"name\":\"\"}", InstanceFault::NoPoints),
        (b"{\"name\":\"\",\"points\":{}}", InstanceFault::NoPoints),
        (
            b"{\"name\":\"\",\"points\":[{\"x\":1,\"y\":2},{\"x\":1}]}",
            InstanceFault::BadPoint(1),
        ),
        (
            b"{\"name\":\"\",\"points\":[{\"x\":1,\"y\":2},7,{\"x\":1,\"y\":null}]}",
            InstanceFault::BadPoint(1),
        ),
        (
            b"{\"name\":\"\",\"points\":[{\"x\":1,\"y\":null},7]}",
            InstanceFault::NotWhole(0),
        ),
        (
            b"{\"name\":\"w\",\"points\":[{\"x\":0,\"y\":0},{\"x\":12,\"y\":12.5},{\"x\":0,\"y\":5}]}",
            InstanceFault::NotWhole(1),
        ),
        (
            b"{\"name\":\"w\",\"points\":[{\"x\":0,\"y\":0},{\"x\":12,\"y\":1e3},{\"x\":0,\"y\":5}]}",
            InstanceFault::NotWhole(1),
        ),
        (
            b"{\"name\":\"w\",\"points\":[{\"x\":0,\"y\":0},{\"x\":12,\"y\":99999999999999999999},{\"x\":0,\"y\":5}]}",
            InstanceFault::Bad(BadPoints::TooFar(1)),
        ),
        (
            b"{\"name\":\"w\",\"points\":[{\"x\":0,\"y\":0},{\"x\":12,\"y\":-99999999999999999999},{\"x\":0,\"y\":5}]}",
            InstanceFault::Bad(BadPoints::TooFar(1)),
        ),
        (
            b"{\"name\":\"\",\"points\":[{\"x\":-2305843009213693951,\"y\":-2305843009213693951},\
              {\"x\":2305843009213693951,\"y\":-2305843009213693951},\
              {\"x\":-2305843009213693951,\"y\":2305843009213693952}]}",
            InstanceFault::Bad(BadPoints::TooFar(2)),
        ),
        (
            b"{\"name\":\"\",\"points\":[{\"x\":1,\"y\":1},{\"i\":1,\"x\":2,\"y\":1}]}",
            InstanceFault::MixedIndex(1),
        ),
        (
            b"{\"name\":\"\",\"points\":[{\"i\":5,\"x\":1,\"y\":1},{\"x\":2,\"y\":1}]}",
            InstanceFault::MixedIndex(1),
        ),
        (
            b"{\"name\":\"\",\"points\":[{\"i\":1,\"x\":1,\"y\":1},{\"i\":2,\"x\":2,\"y\":1}]}",
            InstanceFault::BadIndex(1),
        ),
        (
            b"{\"name\":\"\",\"points\":[{\"i\":1,\"x\":1,\"y\":1},{\"i\":1,\"x\":2,\"y\":1}]}",
            InstanceFault::BadIndex(1),
        ),
        (
            b"{\"name\":\"\",\"points\":[{\"i\":-1,\"x\":1,\"y\":1}]}",
            InstanceFault::BadIndex(0),
        ),
        (
            b"{\"name\":\"\",\"points\":[{\"i\":0.5,\"x\":1,\"y\":1}]}",
            InstanceFault::BadIndex(0),
        ),
        (
            b"{\"name\":\"\",\"points\":[]}",
            InstanceFault::Bad(BadPoints::TooFew(0)),
        ),
        (
            b"{\"name\":\"\",\"points\":[{\"x\":0,\"y\":0},{\"x\":1,\"y\":1}]}",
            InstanceFault::Bad(BadPoints::TooFew(2)),
        ),
        (
            b"{\"name\":\"\",\"points\":[{\"x\":0,\"y\":0},{\"x\":1,\"y\":1},{\"x\":0,\"y\":0}]}",
            InstanceFault::Bad(BadPoints::SamePlace(0, 2)),
        ),
        (
            b"{\"name\":\"\",\"points\":[{\"x\":0,\"y\":0},{\"x\":1,\"y\":1},{\"x\":2,\"y\":2},{\"x\":3,\"y\":3},{\"x\":4,\"y\":4}]}",
            InstanceFault::Bad(BadPoints::OneLine),
        ),
    ];
    for (text, want) in table {
        let same = match written(&rt, text) {
            Ok(_) => false,
            Err(fault) => fault == want,
        };
        assert!(rt; same, "another fault was found");
    }
}

// An instance of one item whose name has so many bytes.
fn named(rt: &HostRuntime, count: usize) -> Result<Vec<u8>, AllocError> {
    let mut text = Vec::from_slice(rt.alloc(), b"{\"name\":\"")?;
    for _ in 0..count {
        text.push(b'n')?;
    }
    text.extend_from_slice(b"\",\"points\":[]}")?;
    Ok(text)
}

#[test]
fn names_end_at_1000_bytes(rt: HostRuntime) -> Result<(), AllocError> {
    let table = [
        (1_000, InstanceFault::Bad(BadPoints::TooFew(0))),
        (1_001, InstanceFault::LongName(1_001)),
    ];
    for (count, want) in table {
        let text = named(&rt, count)?;
        let same = match read_instance(rt.alloc(), &text) {
            Ok(_) => false,
            Err(fault) => fault == want,
        };
        assert!(rt; same, "a name was measured otherwise");
    }
    Ok(())
}

#[test]
fn costs_are_read_and_written(rt: HostRuntime) {
    let table: [(&[u8], &[u8]); 3] = [
        (
            b"{\"name\":\"\",\"points\":[{\"x\":0,\"y\":0},{\"x\":9,\"y\":0},{\"x\":0,\"y\":9},{\"x\":1,\"y\":1}],\"costs\":[]}",
            b"{\"name\":\"\",\"points\":[{\"i\":0,\"x\":0,\"y\":0},{\"i\":1,\"x\":9,\"y\":0},\
              {\"i\":2,\"x\":0,\"y\":9},{\"i\":3,\"x\":1,\"y\":1}]}",
        ),
        (
            b"{\"name\":\"\",\"points\":[{\"x\":0,\"y\":0},{\"x\":9,\"y\":0},{\"x\":0,\"y\":9},{\"x\":1,\"y\":1}],\"costs\":[[0,1,1]]}",
            b"{\"name\":\"\",\"points\":[{\"i\":0,\"x\":0,\"y\":0},{\"i\":1,\"x\":9,\"y\":0},\
              {\"i\":2,\"x\":0,\"y\":9},{\"i\":3,\"x\":1,\"y\":1}]}",
        ),
        (
            b"{\"name\":\"\",\"points\":[{\"x\":0,\"y\":0},{\"x\":9,\"y\":0},{\"x\":0,\"y\":9},\
              {\"x\":1,\"y\":1}],\"costs\":[[3,1,0],[0,2,1],[\"1\",\"0\",\"1000\"],[0,3,7.0]]}",
            b"{\"costs\":[[0,1,1000],[0,3,7],[1,3,0]],\"name\":\"\",\"points\":[{\"i\":0,\"x\":0,\"y\":0},\
              {\"i\":1,\"x\":9,\"y\":0},{\"i\":2,\"x\":0,\"y\":9},{\"i\":3,\"x\":1,\"y\":1}]}",
        ),
    ];
    for (text, want) in table {
        let same = match written(&rt, text) {
            Ok(bytes) => bytes.as_slice() == want,
            Err(_) => false,
        };
        assert!(rt; same, "costs were read or written otherwise");
    }
}

#[test]
fn faults_of_costs_have_their_places(rt: HostRuntime) {
    let table: [(&[u8], InstanceFault); 15] = [
        (
            b"{\"name\":\"\",\"points\":[{\"x\":0,\"y\":0},{\"x\":9,\"y\":0},{\"x\":0,\"y\":9},{\"x\":1,\"y\":1}],\"costs\":7}",
            InstanceFault::BadCosts,
        ),
        (
            b"{\"name\":\"\",\"points\":[{\"x\":0,\"y\":0},{\"x\":9,\"y\":0},{\"x\":0,\"y\":9},{\"x\":1,\"y\":1}],\"costs\":null}",
            InstanceFault::BadCosts,
        ),
        (
            b"{\"name\":\"\",\"points\":[{\"x\":0,\"y\":0},{\"x\":9,\"y\":0},{\"x\":0,\"y\":9},{\"x\":1,\"y\":1}],\"costs\":[7]}",
            InstanceFault::BadCost(0),
        ),
        (
            b"{\"name\":\"\",\"points\":[{\"x\":0,\"y\":0},{\"x\":9,\"y\":0},{\"x\":0,\"y\":9},\
              {\"x\":1,\"y\":1}],\"costs\":[[0,1,2],[0,1]]}",
            InstanceFault::BadCost(1),
        ),
        (
            b"{\"name\":\"\",\"points\":[{\"x\":0,\"y\":0},{\"x\":9,\"y\":0},{\"x\":0,\"y\":9},{\"x\":1,\"y\":1}],\"costs\":[[0,1,2,3]]}",
            InstanceFault::BadCost(0),
        ),
        (
            b"{\"name\":\"\",\"points\":[{\"x\":0,\"y\":0},{\"x\":9,\"y\":0},{\"x\":0,\"y\":9},\
              {\"x\":1,\"y\":1}],\"costs\":[[0,1,2],[2,2,5]]}",
            InstanceFault::BadCost(1),
        ),
        (
            b"{\"name\":\"\",\"points\":[{\"x\":0,\"y\":0},{\"x\":9,\"y\":0},{\"x\":0,\"y\":9},{\"x\":1,\"y\":1}],\"costs\":[[0,4,2]]}",
            InstanceFault::BadCost(0),
        ),
        (
            b"{\"name\":\"\",\"points\":[{\"x\":0,\"y\":0},{\"x\":9,\"y\":0},{\"x\":0,\"y\":9},{\"x\":1,\"y\":1}],\"costs\":[[-1,0,2]]}",
            InstanceFault::BadCost(0),
        ),
        (
            b"{\"name\":\"\",\"points\":[{\"x\":0,\"y\":0},{\"x\":9,\"y\":0},{\"x\":0,\"y\":9},\
              {\"x\":1,\"y\":1}],\"costs\":[[0,1,1000],[0,2,1001]]}",
            InstanceFault::BadCost(1),
        ),
        (
            b"{\"name\":\"\",\"points\":[{\"x\":0,\"y\":0},{\"x\":9,\"y\":0},{\"x\":0,\"y\":9},{\"x\":1,\"y\":1}],\"costs\":[[0,1,-1]]}",
            InstanceFault::BadCost(0),
        ),
        (
            b"{\"name\":\"\",\"points\":[{\"x\":0,\"y\":0},{\"x\":9,\"y\":0},{\"x\":0,\"y\":9},{\"x\":1,\"y\":1}],\"costs\":[[0,1,1.5]]}",
            InstanceFault::BadCost(0),
        ),
        (
            b"{\"name\":\"\",\"points\":[{\"x\":0,\"y\":0},{\"x\":9,\"y\":0},{\"x\":0,\"y\":9},\
              {\"x\":1,\"y\":1}],\"costs\":[[0,1,2],[2,3,4],[1,0,2]]}",
            InstanceFault::BadCost(2),
        ),
        (
            b"{\"name\":\"\",\"points\":[{\"x\":0,\"y\":0},{\"x\":9,\"y\":0},{\"x\":0,\"y\":9},\
              {\"x\":1,\"y\":1}],\"costs\":[[0,1,1],[0,1,1]]}",
            InstanceFault::BadCost(1),
        ),
        (
            b"{\"name\":\"\",\"points\":[{\"x\":0,\"y\":0},{\"x\":9,\"y\":0},{\"x\":0,\"y\":9},\
              {\"x\":1,\"y\":1}],\"costs\":[[0,1,2],[1,0,5],[9,9,9]]}",
            InstanceFault::BadCost(1),
        ),
        (
            b"{\"costs\":[7],\"name\":\"\",\"points\":[{\"x\":0,\"y\":0},{\"x\":1,\"y\":0},{\"x\":2,\"y\":0}]}",
            InstanceFault::Bad(BadPoints::OneLine),
        ),
    ];
    for (text, want) in table {
        let same = match written(&rt, text) {
            Ok(_) => false,
            Err(fault) => fault == want,
        };
        assert!(rt; same, "another fault of costs was found");
    }
}

// An instance of three points with so many equal items of costs.
fn costed(rt: &HostRuntime, count: usize) -> Result<Vec<u8>, AllocError> {
    let mut text = Vec::from_slice(
        rt.alloc(),
        b"{\"name\":\"\",\"points\":[{\"x\":0,\"y\":0},{\"x\":9,\"y\":0},{\"x\":0,\"y\":9}],\"costs\":[[0,1,5]",
    )?;
    for _ in 1..count {
        text.extend_from_slice(b",[0,1,5]")?;
    }
    text.extend_from_slice(b"]}")?;
    Ok(text)
}

#[test]
fn costs_end_at_300000(rt: HostRuntime) -> Result<(), AllocError> {
    let table = [
        (300_000, InstanceFault::BadCost(1)),
        (300_001, InstanceFault::TooManyCosts(300_001)),
    ];
    for (count, want) in table {
        let text = costed(&rt, count)?;
        let same = match read_instance(rt.alloc(), &text) {
            Ok(_) => false,
            Err(fault) => fault == want,
        };
        assert!(rt; same, "costs were counted otherwise");
    }
    Ok(())
}
