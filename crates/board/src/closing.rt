// The second half of a commit, behind the gate.
ghost use Rattle.std.specs.Prelude.{◌≡◌, ◌≤◌, ◌++◌, List, [], ◌∷◌, length, true, vec_capacity, IfOk, IfErr};
ghost use Rattle.journal_defs.specs.declared.edit.Claim.{Claim};
ghost use Rattle.std.specs.List.{list_any};
ghost use Rattle.journal_defs.specs.Journal.{replay};
ghost use Rattle.edit.specs.Plans.{IsPlan};
ghost use Rattle.hands.specs.Hands.{hands_of, is_flip as flips, vertices, AreRight, AreStamped, HaveRoom};
ghost use Rattle.seats.specs.Seats.{SeatSeen, IsSeat, ground_of};
ghost use Rattle.board.specs.Answers.{IsEntered, IsLate, IsNotBusy, next_of};
ghost use Rattle.board.specs.Phases.{IsOpen, IsReady, MayLeave};

use crate::holding::give_all;
use crate::slices::{stamp_all, undo_all};
use edit::Look;
use hands::Refusal;
use journal_defs::{Commit, Edit, EditList};
use seats::{Seat, Shelf};

// Makes the commit the last of the history and of the journal, and gives the journal back.
fn enter(
    shelf: &Shelf,
    seat: &mut Seat,
    edits: &[Edit],
    hands: &mut Vec<Look>,
    journal: Vec<Commit>,
) -> u64
    requires of { seat.old.of ≡ shelf.now }
    requires seat { IsSeat seat.old }
    requires some { 1 ≤ length edits.now }
    requires few { length edits.now ≤ 8 }
    requires ready { IsReady (ground_of shelf.now) edits.now seat.old (hands_of hands.old.items) journal.items }
    requires room { shelf.now.root.room ≤ vec_capacity journal }
    ensures seat { seat.new ≡ record seat.old {
      seen = seat.old.seen ++ next_of seat.old edits.now seat.old.seen ∷ [];
      mine = seat.old.mine ++ next_of seat.old edits.now seat.old.seen ∷ [];
      held = vertices (hands_of hands.new.items);
    } }
    ensures leave { MayLeave (ground_of shelf.now) seat.new (hands_of hands.new.items) }
    ensures number { result ≡ length seat.new.seen }
    ensures capacity { vec_capacity hands.old ≤ vec_capacity hands.new }
    ensures valid { IsSeat seat.new }
{
    let (commit, number) = shelf.enter(seat, EditList::make(edits));
    stamp_all(hands, &commit, number);
    let mut journal = journal;
    let pushed = journal.push(commit);
    let Ok(()) = pushed else { unreachable!() };
    shelf.give_journal(seat, journal);
    number
}

/// Claims the journal and enters the commit. Every answer gives all back; at an error the edits are undone first.
pub fn close(
    shelf: &Shelf,
    seat: &mut Seat,
    edits: &[Edit],
    hands: &mut Vec<Look>,
) -> Result<u64, Refusal>
    requires of { seat.old.of ≡ shelf.now }
    requires seat { IsSeat seat.old }
    requires open { (before : SeatSeen) × (claims : List Claim) × IsPlan edits.now claims
        × IsOpen (ground_of shelf.now) edits.now claims before seat.old (hands_of hands.old.items) }
    requires room { list_any flips edits.now ≡ true → HaveRoom 8 hands.old.items }
    requires capacity { 16 ≤ vec_capacity hands.old }
    ensures same { (seat.new.of ≡ seat.old.of) × (seat.new.caller ≡ seat.old.caller) }
    ensures entered { IfOk result (λ n. (before : SeatSeen) (claims : List Claim) → IsPlan edits.now claims
        → IsOpen (ground_of shelf.now) edits.now claims before seat.old (hands_of hands.old.items)
        → IsEntered (ground_of shelf.now) edits.now claims before seat.new n) }
    ensures late { IfErr result (λ r. (before : SeatSeen) (claims : List Claim) → IsPlan edits.now claims
        → IsOpen (ground_of shelf.now) edits.now claims before seat.old (hands_of hands.old.items)
        → IsLate (ground_of shelf.now) edits.now claims before seat.new r) }
    ensures alone { IfErr result (λ r. shelf.now.callers ≡ 1 → IsNotBusy r) }
    ensures idle { seat.new.held ≡ [] }
    ensures empty { hands.new.items ≡ [] }
    ensures capacity { 16 ≤ vec_capacity hands.new }
    ensures valid { IsSeat seat.new }
{
    match shelf.claim_journal(seat) {
        Err(holder) => {
            undo_all(shelf, edits, hands, edits.len());
            give_all(shelf, seat, hands);
            let place = shelf.points().len();
            Err(Refusal::Busy { place, holder })
        }
        Ok(journal) => {
            if journal.len() as u64 >= shelf.room() {
                undo_all(shelf, edits, hands, edits.len());
                shelf.give_journal(seat, journal);
                give_all(shelf, seat, hands);
                return Err(Refusal::Full);
            }
            let number = enter(shelf, seat, edits, hands, journal);
            give_all(shelf, seat, hands);
            Ok(number)
        }
    }
}
