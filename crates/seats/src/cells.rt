use chronicle::{Chronicle, Share};
use edit::Look;
use journal_defs::Commit;
use plane::{Pair, Points};
use vertex_claims::Held;

/// What the facts of all places speak of: the points, the segments at the start, for how many commits the journal has
/// room, and the history.
#[derive(Drop)]
pub struct Root {
    pub points: Points,
    pub start: Vec<Pair>,
    pub room: u64,
    pub chronicle: Chronicle<Commit>,
}

/// What lies at a place. Each has a share of the history that owns the part of this place.
#[derive(Drop)]
pub enum Cell {
    /// A point's star, with the number of the last commit that touched it.
    Vertex {
        look: Look,
        share: Share<Commit>,
    },
    /// The commits so far, with room for more.
    Journal {
        commits: Vec<Commit>,
        share: Share<Commit>,
    },
}

impl Held for Cell {
    type Root = Root;

    ghost use Rattle.seats.specs.Cells.{CellFits};

    ghost fits = { CellFits };
}
