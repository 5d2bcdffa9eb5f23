use journal_defs::{EditList, Why};

/// One atomic step of a caller. Places 0, 1 and so on are the vertices; the next one after them is the journal's. (This
/// project's own.)
#[derive(Drop)]
pub enum Step {
    /// The caller tries once to take a place.
    Take { caller: u32, place: u32 },
    /// The caller appends its next commit, of these edits.
    Append { caller: u32, edits: EditList },
    /// The caller gives a place back.
    Back { caller: u32, place: u32 },
}

/// What a step is answered.
#[derive(Clone, Copy, Debug, PartialEq, Eq)]
pub enum StepAnswer {
    /// The place was free and is the caller's now.
    Won,
    /// The place has this owner, who may be the caller.
    Held(u32),
    /// The commit stands in the journal at this position, counted from 1.
    Commit(u64),
    /// This place isn't the caller's: of an append the least touched vertex, or else the journal's place.
    NotOwned(u32),
    /// The edit at this position is the first that isn't legal in its turn, and why.
    Illegal { at: u32, why: Why },
    /// The place is free again.
    Returned,
}
