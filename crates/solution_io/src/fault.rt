// Why a text is no solution.
use thiserror::Error;

/// Why a text isn't read as a solution, in the order in which the faults are looked for (this project's own).
#[derive(Debug, Drop, PartialEq, Eq, Error)]
pub enum SolutionFault {
    /// The text has more than 64 levels, or no reading as JSON.
    #[error("NotJson")]
    NotJson,
    /// The reading isn't an object, or its `edges` are missing or no array.
    #[error("NoEdges")]
    NoEdges,
    /// There are more than 20,000 edges; it shows how many.
    #[error("TooManyEdges {0}")]
    TooManyEdges(u32),
    /// The least place of an item that isn't an object with two different indices `i` and `j`.
    #[error("BadEdge {0}")]
    BadEdge(u32),
    /// Memory was not found.
    #[error("NoMemory")]
    NoMemory,
}
