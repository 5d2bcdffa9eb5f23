use journal_defs::Why;

/// Why a plan was refused.
#[derive(Clone, Copy, Debug, PartialEq, Eq)]
pub enum Refusal {
    /// The place is another caller's, who is shown.
    Busy { place: u32, holder: u32 },
    /// A commit after the claim's stamp touches the vertex; the last such commit is shown.
    Stale { vertex: u32, commit: u64 },
    /// The claim's stamp is past the last commit that touches the vertex, which is shown.
    Ahead { vertex: u32, last: u64 },
    /// No memory was found.
    NoMemory,
    /// The edit at this position is the first that isn't legal in its turn, and why.
    Illegal { at: u32, why: Why },
    /// The journal has no room for a further commit.
    Full,
}
