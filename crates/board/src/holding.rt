// Claims of a plan's vertices, and what is given back.
ghost use Rattle.std.specs.Prelude.{◌≡◌, ◌<◌, ◌≤◌, [], length, vec_len, vec_capacity};
ghost use Rattle.std.specs.Prelude.{OnOk, IfErr, IsOk, IsFalse};
ghost use Rattle.index_sets.specs.Indices.{contains};
ghost use Rattle.journal_defs.specs.Journal.{replay};
ghost use Rattle.hands.specs.Hands.{hands_of, vertices, AreRight, AreStamped};
ghost use Rattle.hands.specs.Answers.{claimed, AreRising};
ghost use Rattle.board.specs.Answers.{AreWithin};
ghost use Rattle.seats.specs.Seats.{IsSeat, ground_of};
ghost use Rattle.seats.specs.Claimed.{IsMissed};
ghost use Rattle.board.specs.Phases.{IsTaken, IsHolding, IsBusyAt};

use edit::Look;
use journal_defs::Claim;
use seats::{Seat, Shelf};

// Claims one place more: its star is in hand last.
fn claim_one(shelf: &Shelf, seat: &mut Seat, hands: &mut Vec<Look>, vertex: u32) -> Result<(), u32>
    requires of { seat.old.of ≡ shelf.now }
    requires vertex { vertex < length shelf.now.root.points }
    requires free { IsFalse (contains seat.old.held vertex) }
    requires room { vec_len hands.old < vec_capacity hands.old }
    ensures same { (seat.new.of ≡ seat.old.of) × (seat.new.caller ≡ seat.old.caller) }
    ensures taken { OnOk result
        (IsTaken seat.old seat.new vertex (hands_of hands.old.items) (hands_of hands.new.items)) }
    ensures missed { IfErr result (λ holder. IsMissed seat.old seat.new vertex holder) }
    ensures kept { IfErr result (λ _. hands.new.items ≡ hands.old.items) }
    ensures capacity { vec_capacity hands.old ≤ vec_capacity hands.new }
    ensures alone { shelf.now.callers ≡ 1 → IsOk result }
    ensures valid { IsSeat seat.new }
{
    let look = shelf.claim(seat, vertex)?;
    let pushed = hands.push(look);
    let Ok(()) = pushed else { unreachable!() };
    Ok(())
}

/// Claims the vertices in turn, one try each. At an error those before it are held, and the place and its holder are
/// shown.
pub fn claim_all(
    shelf: &Shelf,
    seat: &mut Seat,
    claims: &[Claim],
    hands: &mut Vec<Look>,
) -> Result<(), (u32, u32)>
    requires of { seat.old.of ≡ shelf.now }
    requires seat { IsSeat seat.old }
    requires held { seat.old.held ≡ [] }
    requires hands { hands.old.items ≡ [] }
    requires room { length claims.now ≤ vec_capacity hands.old }
    requires within { AreWithin (ground_of shelf.now) claims.now }
    requires rising { AreRising (claimed claims.now) }
    ensures same { (seat.new.of ≡ seat.old.of) × (seat.new.caller ≡ seat.old.caller) }
    ensures holding { OnOk result
        (IsHolding (ground_of shelf.now) claims.now (length claims.now) seat.old seat.new (hands_of hands.new.items)) }
    ensures misses { OnOk result (seat.new.misses ≡ seat.old.misses) }
    ensures busy { IfErr result
        (λ m. IsBusyAt (ground_of shelf.now) claims.now seat.old seat.new m.0 m.1 (hands_of hands.new.items)) }
    ensures capacity { vec_capacity hands.old ≤ vec_capacity hands.new }
    ensures alone { shelf.now.callers ≡ 1 → IsOk result }
    ensures valid { IsSeat seat.new }
{
    for k in 0..claims.len() {
        let vertex = claims[k].vertex;
        match claim_one(shelf, seat, hands, vertex) {
            Ok(()) => (),
            Err(holder) => return Err((vertex, holder)),
        }
    }
    Ok(())
}

/// Gives everything in hand back, the last first.
pub fn give_all(shelf: &Shelf, seat: &mut Seat, hands: &mut Vec<Look>)
    requires of { seat.old.of ≡ shelf.now }
    requires seat { IsSeat seat.old }
    requires held { seat.old.held ≡ vertices (hands_of hands.old.items) }
    requires right { AreRight shelf.now.root.points (replay shelf.now.root.start.items seat.old.seen)
        (hands_of hands.old.items) }
    requires stamped { AreStamped seat.old.seen (hands_of hands.old.items) }
    ensures seat { seat.new ≡ record seat.old { held = [] } }
    ensures hands { hands.new.items ≡ [] }
    ensures capacity { vec_capacity hands.new ≡ vec_capacity hands.old }
    ensures valid { IsSeat seat.new }
{
    while let Some(look) = hands.pop() {
        shelf.give(seat, look);
    }
}
