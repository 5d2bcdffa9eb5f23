use edit::Look;
use plane::Points;
use seats::{Seat, Shelf};
use std::marker::Model;

/// What callers share. Contracts see it as the shelf that it is: its points, its start, its room, its history and its
/// number of passes.
#[derive(Drop)]
pub struct Board {
    pub(crate) shelf: Shelf,
}

impl Model for Board {
    ghost use Rattle.vertex_claims.specs.Holding.{ClaimsSeen};
    ghost use Rattle.seats.specs.declared.cells.Root.{Root as RootSeen};
    ghost use Rattle.seats.specs.Seats.{IsShelf};

    ghost Value = { ClaimsSeen RootSeen };

    ghost view = { λ b. b.shelf };

    ghost invariant = { λ b. IsShelf b.shelf };
}

/// The right of one caller to a board. Between two calls it holds no place. Contracts see of which board it is, its
/// caller, which commits it has seen and which of them are its own, and the tries that it won and lost.
#[derive(Drop)]
pub struct Pass {
    pub(crate) seat: Seat,
    pub(crate) hands: Vec<Look>,
}

impl Model for Pass {
    ghost use Rattle.std.specs.Prelude.{◌≡◌, ◌≤◌, [], vec_capacity};
    ghost use Rattle.seats.specs.Seats.{SeatSeen};
    ghost use Rattle.board.specs.Passes.{IsPass};

    ghost Value = { SeatSeen };

    ghost view = { λ p. p.seat };

    ghost invariant = { λ p. IsPass p.seat × (p.hands.items ≡ []) × (16 ≤ vec_capacity p.hands) };
}

/// Why a star isn't shown.
#[derive(Clone, Copy, Debug, PartialEq, Eq)]
pub enum LookFault {
    /// Another caller holds the place.
    Busy { place: u32, holder: u32 },
    /// No memory was found for a copy.
    NoMemory,
}

impl Board {
    ghost use Rattle.std.specs.Prelude.{◌≡◌};
    ghost use Rattle.seats.specs.Seats.{IsShelf};

    /// The points.
    pub fn points(&self) -> &Points
        ensures points { result.now ≡ self.now.root.points }
        ensures valid { IsShelf self.now }
    {
        self.shelf.points()
    }
}

impl Pass {
    ghost use Rattle.std.specs.Prelude.{◌≡◌};
    ghost use Rattle.board.specs.Passes.{IsPass};

    /// Whose pass it is.
    pub fn caller(&self) -> u32
        ensures caller { result ≡ self.now.caller }
        ensures valid { IsPass self.now }
    {
        self.seat.caller()
    }
}
