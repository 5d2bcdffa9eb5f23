// The first half of a commit, before the gate.
ghost use Rattle.std.specs.Prelude.{◌≡◌, ℕ, ◌≤◌, [], length, true, vec_capacity, OnOk, IfErr};
ghost use Rattle.std.specs.List.{list_any};
ghost use Rattle.edit.specs.Plans.{IsPlan};
ghost use Rattle.hands.specs.Hands.{hands_of, is_flip as flips, HaveRoom};
ghost use Rattle.seats.specs.Seats.{IsSeat, ground_of};
ghost use Rattle.board.specs.Answers.{AreWithin, IsEarly, IsNotBusy};
ghost use Rattle.board.specs.Phases.{IsOpen};

use crate::holding::{claim_all, give_all};
use crate::slices::{make_all, make_room, undo_all};
use edit::Look;
use hands::{Refusal, first_stale};
use journal_defs::{Claim, Edit};
use mcp_outside::NoMemory;
use seats::{Seat, Shelf};

/// Claims the vertices, compares the stamps, makes room for a flip, and makes the edits. At an error all is given
/// back.
pub fn open(
    shelf: &Shelf,
    seat: &mut Seat,
    edits: &[Edit],
    claims: &[Claim],
    hands: &mut Vec<Look>,
) -> Result<(), Refusal>
    requires of { seat.old.of ≡ shelf.now }
    requires seat { IsSeat seat.old }
    requires held { seat.old.held ≡ [] }
    requires hands { hands.old.items ≡ [] }
    requires capacity { 16 ≤ vec_capacity hands.old }
    requires plan { IsPlan edits.now claims.now }
    requires within { AreWithin (ground_of shelf.now) claims.now }
    ensures same { (seat.new.of ≡ seat.old.of) × (seat.new.caller ≡ seat.old.caller) }
    ensures open { OnOk result
        (IsOpen (ground_of shelf.now) edits.now claims.now seat.old seat.new (hands_of hands.new.items)) }
    ensures room { OnOk result (list_any flips edits.now ≡ true → HaveRoom 8 hands.new.items) }
    ensures early { IfErr result (λ r. IsEarly (ground_of shelf.now) edits.now claims.now seat.old seat.new r) }
    ensures alone { IfErr result (λ r. shelf.now.callers ≡ 1 → IsNotBusy r) }
    ensures empty { IfErr result (λ r. hands.new.items ≡ []) }
    ensures capacity { 16 ≤ vec_capacity hands.new }
    ensures valid { IsSeat seat.new }
{
    if let Err((place, holder)) = claim_all(shelf, seat, claims, hands) {
        give_all(shelf, seat, hands);
        return Err(Refusal::Busy { place, holder });
    }
    if let Some(refusal) = first_stale(claims, hands.as_slice()) {
        give_all(shelf, seat, hands);
        return Err(refusal);
    }
    if let Err(NoMemory) = make_room(edits, hands) {
        give_all(shelf, seat, hands);
        return Err(Refusal::NoMemory);
    }
    if let Err((at, why)) = make_all(shelf, edits, hands) {
        undo_all(shelf, edits, hands, at as usize);
        give_all(shelf, seat, hands);
        return Err(Refusal::Illegal { at, why });
    }
    Ok(())
}
