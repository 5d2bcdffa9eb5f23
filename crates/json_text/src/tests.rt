use crate::{TextFault, plain_numbers, value_of, whole};
use mcp_outside::NoMemory;
use serde_json::Value;
use std::alloc::AllocError;

#[test]
fn numbers_become_whole(rt: HostRuntime) -> Result<(), NoMemory> {
    let table: [(&[u8], &[u8]); 14] = [
        (b"12.0", b"12"),
        (b"-0", b"0"),
        (b"\"12\"", b"\"12\""),
        (b"1e3", b"null"),
        (b"12.5", b"null"),
        (b"12.50", b"null"),
        (b"-0.0", b"0"),
        (b"+1", b"+1"),
        (b"01", b"01"),
        (b"[1.00,-7.,true,-]", b"[1,-7.,true,-]"),
        (b"{\"1.0\\\"-0\":-3.0}", b"{\"1.0\\\"-0\":-3}"),
        (
            b"9223372036854775807 9223372036854775808",
            b"9223372036854775807 9223372036854775807",
        ),
        (
            b"-9223372036854775808,-99999999999999999999.0",
            b"-9223372036854775808,-9223372036854775808",
        ),
        (b"", b""),
    ];
    for (text, want) in table {
        let plain = plain_numbers(rt.alloc(), text)?;
        assert!(rt;
            plain.as_slice() == want,
            "a number was rewritten otherwise"
        );
    }
    Ok(())
}

fn is_refused(rt: &HostRuntime, text: &[u8]) -> bool {
    match value_of(rt.alloc(), text) {
        Ok(_) => false,
        Err(fault) => fault == TextFault::NotJson,
    }
}

#[test]
fn other_texts_are_refused(rt: HostRuntime) {
    let table: [&[u8]; 14] = [
        b"",
        b" ",
        b"+1",
        b"01",
        b"1.",
        b"[1,]",
        b"{} 1",
        b"{\"a\":1}x",
        b"\xEF\xBB\xBF{}",
        b"\"\xFF\"",
        b"\"\x01\"",
        b"\"\n\"",
        b"\"\\uD800\"",
        b"\x1F\x8B\x08",
    ];
    for text in table {
        assert!(rt; is_refused(&rt, text), "a text was read");
    }
}

// `count` levels round a string of brackets.
fn nested(rt: &HostRuntime, count: usize) -> Result<Vec<u8>, AllocError> {
    let mut text = Vec::new(rt.alloc());
    for _ in 0..count {
        text.push(b'[')?;
    }
    text.extend_from_slice(b"\"[[[[\\\"[[\"")?;
    for _ in 0..count {
        text.push(b']')?;
    }
    Ok(text)
}

#[test]
fn levels_end_at_64(rt: HostRuntime) -> Result<(), AllocError> {
    let most = nested(&rt, 64)?;
    assert!(rt; value_of(rt.alloc(), &most).is_ok());
    let more = nested(&rt, 65)?;
    assert!(rt; is_refused(&rt, &more));
    Ok(())
}

#[test]
fn values_give_whole_numbers(rt: HostRuntime) {
    let table: [(&[u8], Option<i64>); 16] = [
        (b"12.0", Some(12)),
        (b"-0", Some(0)),
        (b"\"12\"", Some(12)),
        (b"\"-0012\"", Some(-12)),
        (b"\"-\"", None),
        (b"\"\"", None),
        (b"\"+1\"", None),
        (b"\"1.0\"", None),
        (b"1e3", None),
        (b"12.5", None),
        (b"99999999999999999999", Some(i64::MAX)),
        (b"-9223372036854775809", Some(i64::MIN)),
        (b"\"9223372036854775808\"", Some(i64::MAX)),
        (b"\"-9223372036854775807\"", Some(-9223372036854775807)),
        (b"\"-99999999999999999999\"", Some(i64::MIN)),
        (b"[1]", None),
    ];
    for (text, want) in table {
        let found = match value_of(rt.alloc(), text) {
            Ok(value) => whole(&value),
            Err(_) => Some(1),
        };
        assert_eq!(rt; found, want);
    }
    assert!(rt; whole(&Value::Null).is_none());
}
