// Tables over memory, and real pipes through the adapters.
ghost use Rattle.std.specs.Prelude.{◌≡◌, ◌≤◌, ◌<◌};

use super::*;
use std::alloc::Global;
use std::io;
use std::io::{Cursor, ErrorKind, Read};
use std::marker::Brand;
use std::sync::ledger::{Blank, Ledger};
use std::test::Fail;

const TEXT: &[u8] = b"0123456789";

// A reading over memory, with the faults that the source has then.
fn read(alloc: Global, step: usize, failing: &[u64], limit: usize) -> Result<Vec<u8>, ReadEnd>
    requires step { 1 ≤ step }
    requires limit { limit < usize.MAX }
{
    let (Ok(bytes), Ok(failing)) = (TEXT.to_vec(alloc), failing.to_vec(alloc)) else {
        return Err(ReadEnd::NoMemory);
    };
    let mut source = MemorySource::make(bytes, step, failing);
    read_uncounted(alloc, &mut source, limit)
}

#[test]
fn a_source_in_memory_gives_its_bytes_in_steps(rt: HostRuntime) {
    let alloc = rt.alloc();
    let table: [(usize, &[u64], usize, Option<ReadEnd>); 9] = [
        (1, &[], 10, None),
        (3, &[], 10, None),
        (64, &[], 11, None),
        (1, &[], 9, Some(ReadEnd::TooLong)),
        (64, &[], 9, Some(ReadEnd::TooLong)),
        (64, &[], 0, Some(ReadEnd::TooLong)),
        (3, &[1], 10, Some(ReadEnd::Failed)),
        (3, &[7, 5], 10, Some(ReadEnd::Failed)),
        (3, &[6, 7], 10, None),
    ];
    for (step, failing, limit, end) in &table {
        assert!(rt; *step >= 1 && *limit < 100);
        match (read(alloc, *step, failing, *limit), end) {
            (Ok(bytes), None) => assert_eq!(rt; bytes.as_slice(), TEXT, "step {step}"),
            (Err(got), Some(want)) => assert_eq!(rt; got, *want, "step {step}"),
            _ => assert!(rt; false, "step {step} and limit {limit}"),
        }
    }
}

#[test]
fn a_sink_in_memory_holds_a_prefix_after_a_fault(rt: HostRuntime) -> Result<(), Fail> {
    let alloc = rt.alloc();
    let table: [(usize, usize, &[u64], bool, &[u8]); 7] = [
        (10, 1, &[], true, TEXT),
        (10, 4, &[4], true, TEXT),
        (64, 64, &[], true, TEXT),
        (9, 4, &[], false, b"012345678"),
        (0, 4, &[], false, b""),
        (10, 4, &[1], false, b""),
        (10, 4, &[9, 3], false, b"01234567"),
    ];
    for (room, step, failing, whole, held) in &table {
        assert!(rt; *step >= 1);
        let sink = MemorySink::make(alloc, *room, *step, failing.to_vec(alloc)?);
        let Ok(mut sink) = sink else {
            return Err(Fail::from("no memory"));
        };
        let answer = write_all(&mut sink, TEXT);
        assert_eq!(rt; answer.is_ok(), *whole, "room {room} and step {step}");
        assert_eq!(rt; sink.written(), *held, "room {room} and step {step}");
    }
    Ok(())
}

// A reading whose calls are counted.
fn counted<L: Ledger, S: Source>(
    alloc: Global,
    source: &mut S,
    limit: usize,
    blank: Blank,
) -> Result<Vec<u8>, ReadEnd>
    requires limit { limit < usize.MAX }
    requires name { blank.name ≡ L.name }
    requires parts { blank.parts ≡ L.parts }
    requires some { 0 < blank.parts }
{
    let mut steps = Steps::<L>::make(blank);
    read_all(alloc, source, limit, &mut steps)
}

#[test]
fn bytes_go_through_a_real_pipe(rt: HostRuntime) -> Result<(), Fail> {
    let alloc = rt.alloc();
    let (reader, writer) = io::pipe(&rt)?;
    {
        let mut sink = StdSink::make(writer);
        assert!(rt; write_all(&mut sink, TEXT).is_ok());
    }
    let mut source = StdSource::make(reader);
    let bytes = counted::<Brand, StdSource<io::PipeReader>>(
        alloc,
        &mut source,
        100,
        Blank::new(1),
    )?;
    assert_eq!(rt; bytes.as_slice(), TEXT);
    Ok(())
}

// A reader that gives up at once.
#[derive(Drop)]
struct Broken;

impl Read for Broken {
    fn read(&mut self, _buf: &mut [u8]) -> io::Result<usize> {
        Err(io::Error::from(ErrorKind::Interrupted))
    }
}

#[test]
fn a_fault_of_a_reader_or_writer_is_failed(rt: HostRuntime) -> Result<(), Fail> {
    let alloc = rt.alloc();
    let mut broken = StdSource::make(Broken);
    assert!(rt; matches!(read_uncounted(alloc, &mut broken, 9), Err(ReadEnd::Failed)));
    let mut cursor = StdSource::make(Cursor::new(TEXT));
    assert_eq!(rt; read_uncounted(alloc, &mut cursor, 10)?.as_slice(), TEXT);
    let mut room = [0u8; 4];
    {
        let mut sink = StdSink::make(&mut room[..]);
        assert!(rt; write_all(&mut sink, TEXT).is_err());
    }
    assert_eq!(rt; room.as_slice(), b"0123".as_slice());
    Ok(())
}

// A step between two others.
fn passes<G: Gate + Sync>(gate: &G) {
    gate.between(1);
}

#[test]
fn an_open_gate_lets_pass() {
    passes(&OpenGate);
}
