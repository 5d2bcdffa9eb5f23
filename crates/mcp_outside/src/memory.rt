// A source and a sink in memory, which give and take in steps and fail at the calls that are listed.
ghost use Rattle.std.specs.Prelude.{◌≡◌, ◌↔◌, ◌≤◌, ◌<◌, ◌++◌, ◌-◌, [], List, ℕ, min, length, take, drop, Some};
ghost use Rattle.std.specs.Prelude.{Contains, IsErr, IfOk, OnOk, OnErr};
ghost use Rattle.std.specs.Io.{ReadsAtMost, WritesAtMost};
ghost use Rattle.std.specs.Io.KnownBytes.{WriteAppends};
ghost use Rattle.mcp_outside.specs.Causes.{HasCause, next_count};
ghost use Rattle.mcp_outside.specs.Bytes.{Takes};
ghost use Rattle.mcp_outside.specs.Memory.{MustFail};

use crate::{Failed, NoMemory, Sink, Source};
use std::alloc::Global;
use std::marker::Model;

/// A source over bytes in memory. Contracts see the bytes left, the step, the numbers of the calls that fail,
/// the number of the last call and the count of faults.
#[derive(Drop)]
pub struct MemorySource {
    bytes: Vec<u8>,
    at: usize,
    step: usize,
    failing: Vec<u64>,
    calls: u64,
    faults: u64,
}

impl Model for MemorySource {
    ghost use Rattle.std.specs.Prelude.{◌≤◌, ◌<◌, drop, vec_len};
    ghost use Rattle.mcp_outside.specs.Memory.{SourceState};

    ghost Value = { SourceState };

    ghost view = { λ s. record {
      left = drop s.at s.bytes.items;
      step = s.step;
      failing = s.failing.items;
      calls = s.calls;
      faults = s.faults;
    } };

    ghost invariant = { λ s. (s.at ≤ vec_len s.bytes) × (0 < s.step) };
}

impl MemorySource {
    /// A source of these bytes. A call gives at most `step` of them, at least 1, and fails where its number,
    /// counted from 1, stands in `failing`.
    pub fn make(bytes: Vec<u8>, step: usize, failing: Vec<u64>) -> MemorySource
        requires { 1 ≤ step }
        ensures { result ≡ record { left = bytes.items; step = step; failing = failing.items; calls = 0; faults = 0 } }
    {
        MemorySource {
            bytes,
            at: 0,
            step,
            failing,
            calls: 0,
            faults: 0,
        }
    }
}

// Copies the first bytes to the front of the room.
fn copy_front(from: &[u8], room: &mut [u8], count: usize)
    requires from_in { count ≤ length from.now }
    requires room_in { count ≤ length room.old }
    ensures { take count room.new ≡ take count from.now }
{
    room[..count].copy_from_slice(&from[..count]);
}

impl Source for MemorySource {
    ghost left = { λ s. Some s.left };

    ghost faults = { λ s. s.faults };

    /// Gives as many bytes as the step, the room and what is left allow. Exactly the calls whose number is listed
    /// answer `Failed`; they raise the count and move nothing. The number of a call stays at the last u64.
    fn take(&mut self, room: &mut [u8]) -> Result<usize, Failed>
        ensures bound { ReadsAtMost result room.new }
        ensures bytes { Takes (Some self.old.left) (Some self.new.left) result room.new }
        ensures cause { HasCause self.old.faults self.new.faults result }
        ensures kept { OnOk result (self.new.faults ≡ self.old.faults) }
        ensures failed { IsErr result ↔ Contains self.old.failing (next_count self.old.calls) }
        ensures count { IfOk result (λ k. k ≡ min self.old.step (min (length room.new) (length self.old.left))) }
        ensures moved { IfOk result (λ k. self.new ≡ record self.old { left = drop k self.old.left; calls = next_count self.old.calls }) }
        ensures nothing { OnErr result (self.new
            ≡ record self.old { calls = next_count self.old.calls; faults = next_count self.old.faults }) }
        ensures untouched { OnErr result (room.new ≡ room.old) }
    {
        self.calls = self.calls.saturating_add(1);
        if self.failing.contains(&self.calls) {
            self.faults = self.faults.saturating_add(1);
            return Err(Failed);
        }
        let rest = &self.bytes[self.at..];
        let count = self.step.min(room.len()).min(rest.len());
        copy_front(rest, room, count);
        self.at += count;
        Ok(count)
    }
}

/// A sink in memory. Contracts see the bytes written, the room left, the step, the numbers of the calls that
/// fail, the number of the last call and the count of faults.
#[derive(Drop)]
pub struct MemorySink {
    bytes: Vec<u8>,
    room: usize,
    step: usize,
    failing: Vec<u64>,
    calls: u64,
    faults: u64,
}

impl Model for MemorySink {
    ghost use Rattle.std.specs.Prelude.{◌≤◌, ◌<◌, ◌+◌, vec_len, vec_capacity};
    ghost use Rattle.mcp_outside.specs.Memory.{SinkState};

    ghost Value = { SinkState };

    ghost view = { λ s. record {
      written = s.bytes.items;
      room = s.room;
      step = s.step;
      failing = s.failing.items;
      calls = s.calls;
      faults = s.faults;
    } };

    ghost invariant = { λ s. (vec_len s.bytes + s.room ≤ vec_capacity s.bytes) × (0 < s.step) };
}

impl MemorySink {
    /// An empty sink with room for `room` bytes. A call takes at most `step` of them, at least 1, and fails
    /// where its number, counted from 1, stands in `failing`.
    pub fn make(
        alloc: Global,
        room: usize,
        step: usize,
        failing: Vec<u64>,
    ) -> Result<MemorySink, NoMemory>
        requires { 1 ≤ step }
        ensures { IfOk result (λ sink. sink
            ≡ record { written = []; room = room; step = step; failing = failing.items; calls = 0; faults = 0 }) }
    {
        Ok(MemorySink {
            bytes: Vec::with_capacity(alloc, room)?,
            room,
            step,
            failing,
            calls: 0,
            faults: 0,
        })
    }

    /// The bytes written so far.
    pub fn written(&self) -> &[u8]
        ensures { result.now ≡ self.now.written }
    {
        &self.bytes
    }
}

impl Sink for MemorySink {
    ghost contents = { λ s. Some s.written };

    ghost faults = { λ s. s.faults };

    /// Takes as many bytes as the step, the piece and the room left allow. Exactly a call whose number is listed,
    /// or that finds no room for one byte of a piece that isn't empty, answers `Failed`; it raises the count and
    /// writes nothing. The number of a call stays at the last u64.
    fn give(&mut self, piece: &[u8]) -> Result<usize, Failed>
        ensures bound { WritesAtMost result piece.now }
        ensures some { IfOk result (λ k. 0 < length piece.now → 0 < k) }
        ensures bytes { WriteAppends (Some self.old.written) (Some self.new.written) result piece.now }
        ensures cause { HasCause self.old.faults self.new.faults result }
        ensures kept { OnOk result (self.new.faults ≡ self.old.faults) }
        ensures failed { IsErr result ↔ MustFail self.old piece.now }
        ensures count { IfOk result (λ k. k ≡ min self.old.step (min (length piece.now) self.old.room)) }
        ensures appended { IfOk result
            (λ k. self.new ≡ record self.old {
              written = self.old.written ++ take k piece.now;
              room = self.old.room - k;
              calls = next_count self.old.calls;
            }) }
        ensures nothing { OnErr result (self.new
            ≡ record self.old { calls = next_count self.old.calls; faults = next_count self.old.faults }) }
    {
        self.calls = self.calls.saturating_add(1);
        let no_room = self.room == 0 && !piece.is_empty();
        if no_room || self.failing.contains(&self.calls) {
            self.faults = self.faults.saturating_add(1);
            return Err(Failed);
        }
        let count = self.step.min(piece.len()).min(self.room);
        self.bytes.extend_from_slice(&piece[..count]).unwrap();
        self.room -= count;
        Ok(count)
    }
}
