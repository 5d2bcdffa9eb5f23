use journal_defs::Why;

/// Why a core doesn't take a commit.
#[derive(Clone, Copy, Debug, PartialEq, Eq)]
pub enum ApplyFault {
    /// The commit's number isn't the next one of its caller, which is shown.
    WrongSeq { wanted: u32 },
    /// The edit at this position is the first that isn't legal in its turn, and why.
    Illegal { at: u32, why: Why },
    /// No memory was found.
    NoMemory,
}
