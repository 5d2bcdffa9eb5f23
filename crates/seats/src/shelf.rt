// What callers share, and what each of them has of it.
use crate::cells::{Cell, Root};
use chronicle::Share;
use journal_defs::Commit;
use std::marker::Model;
use vertex_claims::{Claims, Holder};

/// A place for each point, where its star lies with its stamp, and one behind them, where the journal lies. Threads
/// share it by reference. Contracts see the name of its claims, with its root.
#[derive(Drop)]
pub struct Shelf {
    pub(crate) root: Root,
    pub(crate) claims: Claims<Cell>,
    pub(crate) callers: u32,
}

impl Model for Shelf {
    ghost use Rattle.vertex_claims.specs.Holding.{ClaimsSeen};
    ghost use Rattle.seats.specs.declared.cells.Root.{Root as RootSeen};
    ghost use Rattle.seats.specs.Resting.{IsShelfOf};

    ghost Value = { ClaimsSeen RootSeen };

    ghost view = { λ s. s.claims };

    ghost invariant = { λ s. IsShelfOf s.root s.claims s.callers };
}

/// What one caller has of a shelf: the places that it holds, and the parts of the history that belong to them.
/// Contracts see of which shelf it is, its caller, which commits it has seen and which of them are its own, the
/// places that it holds, in the order in which it won them, and the tries that it won and lost.
#[derive(Drop)]
pub struct Seat {
    pub(crate) holder: Holder<Cell>,
    pub(crate) share: Share<Commit>,
    pub(crate) caller: u32,
    pub(crate) made: u32,
}

impl Model for Seat {
    ghost use Rattle.seats.specs.Seats.{SeatSeen};
    ghost use Rattle.seats.specs.Resting.{IsSeatOf, seat_of};

    ghost Value = { SeatSeen };

    ghost view = { λ s. seat_of s.holder s.share };

    ghost invariant = { λ s. IsSeatOf s.holder s.share s.caller s.made };
}

impl Shelf {
    ghost use Rattle.std.specs.Prelude.{◌≡◌};
    ghost use Rattle.seats.specs.Seats.{IsShelf};

    /// The shelf with these claims.
    pub fn new(root: Root, claims: Claims<Cell>, callers: u32) -> Shelf
        requires root { claims.root ≡ root }
        requires callers { callers ≡ claims.callers }
        requires shelf { IsShelf claims }
        ensures { result ≡ claims }
    {
        Shelf {
            root,
            claims,
            callers,
        }
    }

    /// The root, the claims, and how many callers there are.
    pub fn into_parts(self) -> (Root, Claims<Cell>, u32)
        ensures root { result.0 ≡ self.root }
        ensures claims { result.1 ≡ self }
        ensures callers { result.2 ≡ self.callers }
        ensures valid { IsShelf self }
    {
        (self.root, self.claims, self.callers)
    }
}

impl Seat {
    ghost use Rattle.std.specs.Prelude.{◌≡◌};
    ghost use Rattle.seats.specs.Resting.{IsSeatOf, seat_of};

    /// The seat of a holder and a share.
    pub fn new(holder: Holder<Cell>, share: Share<Commit>, caller: u32, made: u32) -> Seat
        requires { IsSeatOf holder share caller made }
        ensures { result ≡ seat_of holder share }
    {
        Seat {
            holder,
            share,
            caller,
            made,
        }
    }

    /// The holder, the share, the caller, and how many commits are the caller's.
    pub fn into_parts(self) -> (Holder<Cell>, Share<Commit>, u32, u32)
        ensures seat { self ≡ seat_of result.0 result.1 }
        ensures parts { IsSeatOf result.0 result.1 result.2 result.3 }
    {
        (self.holder, self.share, self.caller, self.made)
    }
}
