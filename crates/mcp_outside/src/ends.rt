// Where bytes come from and go to.
ghost use Rattle.std.specs.Prelude.{◌≡◌, ℕ, ◌<◌, List, length, IfOk, OnOk};
ghost use Rattle.std.specs.declared.option.Option.{Option};
ghost use Rattle.std.specs.Io.{ReadsAtMost, WritesAtMost};
ghost use Rattle.std.specs.Io.KnownBytes.{WriteAppends};
ghost use Rattle.mcp_outside.specs.Causes.{HasCause};
ghost use Rattle.mcp_outside.specs.Bytes.{Takes};

use std::alloc::{AllocError, AllocFailed};
use thiserror::Error;

/// A source or a sink has failed. Its count of faults tells so too.
#[derive(Clone, Copy, Debug, PartialEq, Eq)]
pub struct Failed;

/// No memory was found.
#[derive(Clone, Copy, Debug, PartialEq, Eq)]
pub struct NoMemory;

impl From<AllocError> for NoMemory {
    fn from(_: AllocError) -> NoMemory {
        NoMemory
    }
}

impl<T: Drop> From<AllocFailed<T>> for NoMemory {
    fn from(_: AllocFailed<T>) -> NoMemory {
        NoMemory
    }
}

/// Why the reading of a whole input ended without its bytes.
#[derive(Debug, Drop, PartialEq, Eq, Error)]
pub enum ReadEnd {
    /// The source has failed.
    #[error("the input can't be read")]
    Failed,
    /// There is one byte more than the limit.
    #[error("the input is too long")]
    TooLong,
    /// No memory was found for the bytes.
    #[error("out of memory")]
    NoMemory,
}

/// Where bytes come from. It may tell the bytes that it has left, and it counts its faults.
pub trait Source {
    /// The bytes left, where they are told.
    ghost left: { Self → Option (List ℕ) };

    /// How often it has failed, a count that never falls.
    ghost faults: { Self → ℕ };

    /// Moves the first bytes left into the front of the room, and answers how many. 0 into a room that isn't
    /// empty is the end of input. `Failed` comes only where the count of faults rose; nothing is said then of
    /// the bytes left and of the room. Where the call answers Ok, no fault came: the count is as it was.
    fn take(&mut self, room: &mut [u8]) -> Result<usize, Failed>
        ensures bound { ReadsAtMost result room.new }
        ensures bytes { Takes (left self.old) (left self.new) result room.new }
        ensures cause { HasCause (faults self.old) (faults self.new) result }
        ensures kept { OnOk result (faults self.new ≡ faults self.old) };
}

/// Where bytes go to. It may tell the bytes that it holds, and it counts its faults.
pub trait Sink {
    /// The bytes written, where they are told.
    ghost contents: { Self → Option (List ℕ) };

    /// How often it has failed, a count that never falls.
    ghost faults: { Self → ℕ };

    /// Writes the first bytes of the piece, and answers how many: at least one, where the piece isn't empty.
    /// `Failed` comes only where the count of faults rose, and nothing of the piece was written then. Where the
    /// call answers Ok, no fault came: the count is as it was.
    fn give(&mut self, piece: &[u8]) -> Result<usize, Failed>
        ensures bound { WritesAtMost result piece.now }
        ensures some { IfOk result (λ count. 0 < length piece.now → 0 < count) }
        ensures bytes { WriteAppends (contents self.old) (contents self.new) result piece.now }
        ensures cause { HasCause (faults self.old) (faults self.new) result }
        ensures kept { OnOk result (faults self.new ≡ faults self.old) };
}
