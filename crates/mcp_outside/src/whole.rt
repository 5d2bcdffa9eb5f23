// Reading and writing of whole inputs and texts.
ghost use Rattle.std.specs.Prelude.{◌≡◌, ◌↔◌, ◌≤◌, ◌<◌, ◌+◌, ◌-◌, ◌++◌, ◌^◌, [], ℕ, List, length, take, Some, IfSome};
ghost use Rattle.std.specs.Prelude.{IfOk, IfErr, OnOk, OnErr, IsErrOf, vec_len};
ghost use Rattle.std.specs.Io.KnownBytes.{Appends, Consumes, IsAtEnd};
ghost use Rattle.mcp_outside.specs.Causes.{HasCause, Rose};
ghost use Rattle.mcp_outside.specs.Bytes.{AppendsPrefix, Took};
ghost use Rattle.mcp_outside.specs.Readings.{EndsAfter};

use crate::counting::Counted;
use crate::{Failed, NoMemory, ReadEnd, Sink, Source, Steps};
use std::alloc::Global;
use std::marker::Brand;
use std::sync::ledger::{Blank, Ledger};

// How many bytes are asked for at once.
const CHUNK: usize = 65536;

/// Reads all bytes up to the end of input, at most `limit` of them. Each call of `take` counts in `steps`, and
/// each but the last took a byte.
///
/// `Failed` comes only where the source's count of faults rose in this call, and nothing is said then of what
/// it has left. `TooLong` comes exactly where one byte more than the limit was taken. After it and `NoMemory`
/// the bytes that were taken are gone from the source. At every end but `Failed` no fault came.
pub fn read_all<S: Source, L: Ledger>(
    alloc: Global,
    source: &mut S,
    limit: usize,
    steps: &mut Steps<L>,
) -> Result<Vec<u8>, ReadEnd>
    requires { limit < usize.MAX }
    ensures later { S.faults source.old ≤ S.faults source.new }
    ensures failed { IsErrOf result ReadEnd.Failed → Rose (S.faults source.old) (S.faults source.new) }
    ensures kept { ¬ IsErrOf result ReadEnd.Failed → S.faults source.new ≡ S.faults source.old }
    ensures all { IfSome (S.left source.old) (λ xs. IfOk result (λ bytes. bytes.items ≡ xs)) }
    ensures end { IfSome (S.left source.old) (λ _. OnOk result (S.left source.new ≡ Some [])) }
    ensures within { IfOk result (λ bytes. length bytes.items ≤ limit) }
    ensures too_long { IfSome (S.left source.old) (λ xs. ¬ IsErrOf result ReadEnd.Failed →
        (IsErrOf result ReadEnd.TooLong ↔ Took (limit + 1) xs (S.left source.new))) }
    ensures gone { IfSome (S.left source.old) (λ xs. IsErrOf result ReadEnd.NoMemory →
        ((n : ℕ) × (n ≤ limit) × Took n xs (S.left source.new) × (steps.new ≤ steps.old + n + 1))) }
    ensures calls { steps.new ≤ steps.old + limit + 1 }
    ensures each_took { IfOk result (λ bytes. steps.new ≤ steps.old + length bytes.items + 1) }
{
    match chunk_of(alloc, CHUNK) {
        Ok(mut chunk) => {
            let mut source = Counted::make(source, steps);
            read_on(alloc, &mut source, &mut chunk, limit)
        }
        Err(_) => Err(ReadEnd::NoMemory),
    }
}

// Room for some bytes.
fn chunk_of(alloc: Global, size: usize) -> Result<Vec<u8>, NoMemory>
    requires { 0 < size }
    ensures { IfOk result (λ chunk. 0 < vec_len chunk) }
{
    Ok(vec![in alloc; 0u8; size]?)
}

// Reads to the end, a chunk at a time.
fn read_on<S: Source, L: Ledger>(
    alloc: Global,
    source: &mut Counted<S, L>,
    chunk: &mut [u8],
    limit: usize,
) -> Result<Vec<u8>, ReadEnd>
    requires limit { limit < usize.MAX }
    requires room { 0 < length chunk.old }
    ensures same_source { source.new.source.ghost_name ≡ source.old.source.ghost_name }
    ensures same_steps { source.new.steps.ghost_name ≡ source.old.steps.ghost_name }
    ensures later { S.faults source.old.source.now ≤ S.faults source.new.source.now }
    ensures failed { IsErrOf result ReadEnd.Failed → Rose (S.faults source.old.source.now) (S.faults source.new.source.now) }
    ensures kept { ¬ IsErrOf result ReadEnd.Failed → S.faults source.new.source.now ≡ S.faults source.old.source.now }
    ensures all { IfOk result (λ bytes. Consumes (S.left source.old.source.now) (S.left source.new.source.now) bytes.items) }
    ensures end { OnOk result (IsAtEnd (S.left source.new.source.now)) }
    ensures within { IfOk result (λ bytes. vec_len bytes ≤ limit) }
    ensures ends { IfErr result (EndsAfter limit (source.old.steps.now, source.new.steps.now)
        (S.left source.old.source.now) (S.left source.new.source.now)) }
    ensures gone { IfSome (S.left source.old.source.now) (λ xs. IsErrOf result ReadEnd.NoMemory → ((n : ℕ) × (n ≤ limit)
        × Took n xs (S.left source.new.source.now) × (source.new.steps.now ≤ source.old.steps.now + n + 1))) }
    ensures calls { source.new.steps.now ≤ source.old.steps.now + limit + 1 }
    ensures each_took { IfOk result (λ bytes. source.new.steps.now ≤ source.old.steps.now + vec_len bytes + 1) }
{
    let mut bytes = Vec::new(alloc);
    loop {
        match read_piece(source, chunk, &mut bytes, limit) {
            Ok(0) => return Ok(bytes),
            Ok(_) => {}
            Err(end) => return Err(end),
        }
    }
}

/// `read_all` for a caller that counts no calls.
pub fn read_uncounted<S: Source>(
    alloc: Global,
    source: &mut S,
    limit: usize,
) -> Result<Vec<u8>, ReadEnd>
    requires { limit < usize.MAX }
    ensures later { S.faults source.old ≤ S.faults source.new }
    ensures failed { IsErrOf result ReadEnd.Failed → Rose (S.faults source.old) (S.faults source.new) }
    ensures kept { ¬ IsErrOf result ReadEnd.Failed → S.faults source.new ≡ S.faults source.old }
    ensures all { IfSome (S.left source.old) (λ xs. IfOk result (λ bytes. bytes.items ≡ xs)) }
    ensures end { IfSome (S.left source.old) (λ _. OnOk result (S.left source.new ≡ Some [])) }
    ensures within { IfOk result (λ bytes. length bytes.items ≤ limit) }
    ensures too_long { IfSome (S.left source.old) (λ xs. ¬ IsErrOf result ReadEnd.Failed →
        (IsErrOf result ReadEnd.TooLong ↔ Took (limit + 1) xs (S.left source.new))) }
    ensures gone { IfSome (S.left source.old) (λ xs. IsErrOf result ReadEnd.NoMemory →
        ((n : ℕ) × (n ≤ limit) × Took n xs (S.left source.new))) }
{
    read_from::<S, Brand>(alloc, source, limit, Blank::new(1))
}

// Reads all under a ledger of its own.
fn read_from<S: Source, L: Ledger>(
    alloc: Global,
    source: &mut S,
    limit: usize,
    blank: Blank,
) -> Result<Vec<u8>, ReadEnd>
    requires limit { limit < usize.MAX }
    requires name { blank.name ≡ L.name }
    requires parts { blank.parts ≡ L.parts }
    requires some { 0 < blank.parts }
    ensures later { S.faults source.old ≤ S.faults source.new }
    ensures failed { IsErrOf result ReadEnd.Failed → Rose (S.faults source.old) (S.faults source.new) }
    ensures kept { ¬ IsErrOf result ReadEnd.Failed → S.faults source.new ≡ S.faults source.old }
    ensures all { IfSome (S.left source.old) (λ xs. IfOk result (λ bytes. bytes.items ≡ xs)) }
    ensures end { IfSome (S.left source.old) (λ _. OnOk result (S.left source.new ≡ Some [])) }
    ensures within { IfOk result (λ bytes. length bytes.items ≤ limit) }
    ensures too_long { IfSome (S.left source.old) (λ xs. ¬ IsErrOf result ReadEnd.Failed →
        (IsErrOf result ReadEnd.TooLong ↔ Took (limit + 1) xs (S.left source.new))) }
    ensures gone { IfSome (S.left source.old) (λ xs. IsErrOf result ReadEnd.NoMemory →
        ((n : ℕ) × (n ≤ limit) × Took n xs (S.left source.new))) }
{
    let mut steps = Steps::<L>::make(blank);
    read_all(alloc, source, limit, &mut steps)
}

// One call of `take`. What it gave is added to the bytes, unless they would be more than the limit.
fn read_piece<S: Source, L: Ledger>(
    source: &mut Counted<S, L>,
    chunk: &mut [u8],
    bytes: &mut Vec<u8>,
    limit: usize,
) -> Result<usize, ReadEnd>
    requires limit { limit < usize.MAX }
    requires room { 0 < length chunk.old }
    requires within { vec_len bytes.old ≤ limit }
    ensures same_source { source.new.source.ghost_name ≡ source.old.source.ghost_name }
    ensures same_steps { source.new.steps.ghost_name ≡ source.old.steps.ghost_name }
    ensures later { S.faults source.old.source.now ≤ S.faults source.new.source.now }
    ensures failed { IsErrOf result ReadEnd.Failed → Rose (S.faults source.old.source.now) (S.faults source.new.source.now) }
    ensures kept { ¬ IsErrOf result ReadEnd.Failed → S.faults source.new.source.now ≡ S.faults source.old.source.now }
    ensures call { source.new.steps.now ≡ source.old.steps.now + 1 }
    ensures taken { IfOk result (λ n. Consumes (S.left source.old.source.now) (S.left source.new.source.now) (take n chunk.new)) }
    ensures bytes { IfOk result (λ n. bytes.new.items ≡ bytes.old.items ++ take n chunk.new) }
    ensures len { IfOk result (λ n. vec_len bytes.new ≡ vec_len bytes.old + n) }
    ensures within { OnOk result (vec_len bytes.new ≤ limit) }
    ensures end { IfOk result (λ n. n ≡ 0 → IsAtEnd (S.left source.new.source.now)) }
    ensures ends { IfErr result (EndsAfter (limit - vec_len bytes.old) (source.old.steps.now, source.new.steps.now)
        (S.left source.old.source.now) (S.left source.new.source.now)) }
{
    let spare = limit - bytes.len();
    let want = chunk.len().min(spare + 1);
    let Ok(count) = source.take(&mut chunk[..want]) else {
        return Err(ReadEnd::Failed);
    };
    if count > spare {
        return Err(ReadEnd::TooLong);
    }
    if bytes.extend_from_slice(&chunk[..count]).is_err() {
        return Err(ReadEnd::NoMemory);
    }
    Ok(count)
}

/// Writes all the bytes in order, and nothing else. `Failed` comes only where the sink's count of faults rose
/// in this call, and what was written is then a prefix of the bytes. Ok means that no fault came. It takes no
/// memory.
pub fn write_all<K: Sink>(sink: &mut K, bytes: &[u8]) -> Result<(), Failed>
    ensures cause { HasCause (K.faults sink.old) (K.faults sink.new) result }
    ensures kept { OnOk result (K.faults sink.new ≡ K.faults sink.old) }
    ensures all { OnOk result (Appends (K.contents sink.old) (K.contents sink.new) bytes.now) }
    ensures prefix { OnErr result (AppendsPrefix (K.contents sink.old) (K.contents sink.new) bytes.now) }
{
    let mut written = 0;
    while written < bytes.len() {
        written += sink.give(&bytes[written..])?;
    }
    Ok(())
}
