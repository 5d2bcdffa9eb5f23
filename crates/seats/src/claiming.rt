// Claiming the place of a point, and giving it back.
ghost use Rattle.std.specs.Prelude.{◌≡◌, ℕ, ◌<◌, ◌++◌, List, [], ◌∷◌, length, IfOk, IfErr, IsOk, IsTrue, IsFalse};
ghost use Rattle.index_sets.specs.Indices.{contains, all_but};
ghost use Rattle.journal_defs.specs.Journal.{replay};
ghost use Rattle.hands.specs.Hands.{hand_of, IsRight, IsStamped};
ghost use Rattle.seats.specs.Seats.{IsSeat, IsShelf};
ghost use Rattle.seats.specs.Claimed.{IsWon, IsMissed};

use crate::cells::Cell;
use crate::shelf::{Seat, Shelf};
use edit::Look;
use plane::Points;

impl Shelf {
    /// The points.
    pub fn points(&self) -> &Points
        ensures points { result.now ≡ self.now.root.points }
        ensures valid { IsShelf self.now }
    {
        &self.root.points
    }

    /// For how many commits the journal has room.
    pub fn room(&self) -> u64
        ensures { result ≡ self.now.root.room }
    {
        self.root.room
    }

    /// How many callers there are.
    pub fn callers(&self) -> u32
        ensures { result ≡ self.now.callers }
    {
        self.callers
    }

    /// One try to claim the place of a point; it takes no memory. Where it is won, the star is in hand with its
    /// stamp, both right after all that is seen then. Where it is lost, the caller that holds the place is answered.
    pub fn claim(&self, seat: &mut Seat, vertex: u32) -> Result<Look, u32>
        requires of { seat.old.of ≡ self.now }
        requires vertex { vertex < length self.now.root.points }
        requires free { IsFalse (contains seat.old.held vertex) }
        ensures same { (seat.new.of ≡ seat.old.of) × (seat.new.caller ≡ seat.old.caller) }
        ensures won { IfOk result (λ look. IsWon seat.old seat.new vertex (hand_of look)) }
        ensures missed { IfErr result (λ holder. IsMissed seat.old seat.new vertex holder) }
        ensures alone { self.now.callers ≡ 1 → IsOk result }
        ensures valid { IsSeat seat.new }
    {
        match self.claims.take(&mut seat.holder, vertex) {
            Err(taken) => Err(taken.holder),
            Ok(cell) => {
                let Cell::Vertex { look, share } = cell else {
                    unreachable!()
                };
                self.root.chronicle.join_parts(&mut seat.share, share);
                Ok(look)
            }
        }
    }

    /// Gives the place of a point back, with its star and its stamp, which are right after all that is seen.
    pub fn give(&self, seat: &mut Seat, look: Look)
        requires of { seat.old.of ≡ self.now }
        requires held { IsTrue (contains seat.old.held look.star.centre) }
        requires right { IsRight self.now.root.points (replay self.now.root.start.items seat.old.seen) (hand_of look) }
        requires stamped { IsStamped seat.old.seen (hand_of look) }
        ensures given { seat.new ≡ record seat.old { held = all_but seat.old.held look.star.centre } }
        ensures latest { (others : List ℕ) → seat.old.held ≡ others ++ look.star.centre ∷ []
            → seat.new ≡ record seat.old { held = others } }
        ensures valid { IsSeat seat.new }
    {
        let vertex = look.star.centre();
        let share = self.root.chronicle.split_parts(&mut seat.share, vertex);
        self.claims
            .give_back(&mut seat.holder, vertex, Cell::Vertex { look, share });
    }
}

impl Seat {
    /// Whose seat it is.
    pub fn caller(&self) -> u32
        ensures caller { result ≡ self.now.caller }
        ensures valid { IsSeat self.now }
    {
        self.caller
    }
}
