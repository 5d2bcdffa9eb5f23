// Claiming the place of the journal, and giving it back.
ghost use Rattle.std.specs.Prelude.{◌≡◌, ℕ, ◌≤◌, ◌++◌, List, [], ◌∷◌, length, vec_capacity};
ghost use Rattle.std.specs.Prelude.{IfOk, IfErr, IsOk, IsTrue, IsFalse};
ghost use Rattle.index_sets.specs.Indices.{contains, all_but};
ghost use Rattle.seats.specs.Seats.{IsSeat};
ghost use Rattle.seats.specs.Claimed.{journal_place, IsMissed, IsJournalTaken, IsJournalWon, IsJournalMissed};

use crate::cells::Cell;
use crate::shelf::{Seat, Shelf};
use journal_defs::Commit;

impl Shelf {
    // One try to claim the journal.
    fn try_journal(&self, seat: &mut Seat) -> Result<Vec<Commit>, u32>
        requires of { seat.old.of ≡ self.now }
        requires free { IsFalse (contains seat.old.held (journal_place seat.old)) }
        ensures same { (seat.new.of ≡ seat.old.of) × (seat.new.caller ≡ seat.old.caller) }
        ensures won { IfOk result (λ journal. IsJournalTaken seat.old seat.new journal.items) }
        ensures room { IfOk result (λ journal. self.now.root.room ≤ vec_capacity journal) }
        ensures missed { IfErr result (λ holder. IsMissed seat.old seat.new (journal_place seat.old) holder) }
        ensures alone { self.now.callers ≡ 1 → IsOk result }
        ensures valid { IsSeat seat.new }
    {
        let place = self.root.points.len();
        match self.claims.take(&mut seat.holder, place) {
            Err(taken) => Err(taken.holder),
            Ok(cell) => {
                let Cell::Journal { commits, share } = cell else {
                    unreachable!()
                };
                self.root.chronicle.join_parts(&mut seat.share, share);
                Ok(commits)
            }
        }
    }

    /// Claims the journal, in up to 64 tries; it takes no memory. Where one is won, the journal is all that is seen
    /// then. Where all are lost, the caller that held the place at the last is answered.
    pub fn claim_journal(&self, seat: &mut Seat) -> Result<Vec<Commit>, u32>
        requires of { seat.old.of ≡ self.now }
        requires free { IsFalse (contains seat.old.held (journal_place seat.old)) }
        ensures same { (seat.new.of ≡ seat.old.of) × (seat.new.caller ≡ seat.old.caller) }
        ensures won { IfOk result (λ journal. IsJournalWon seat.old seat.new journal.items) }
        ensures room { IfOk result (λ journal. self.now.root.room ≤ vec_capacity journal) }
        ensures missed { IfErr result (λ holder. IsJournalMissed seat.old seat.new holder) }
        ensures alone { self.now.callers ≡ 1 → IsOk result }
        ensures valid { IsSeat seat.new }
    {
        for tries in 0..63u32 {
            let _ = tries;
            if let Ok(journal) = self.try_journal(seat) {
                return Ok(journal);
            }
        }
        self.try_journal(seat)
    }

    /// Gives the journal back, which is all that is seen.
    pub fn give_journal(&self, seat: &mut Seat, journal: Vec<Commit>)
        requires of { seat.old.of ≡ self.now }
        requires held { IsTrue (contains seat.old.held (journal_place seat.old)) }
        requires same { journal.items ≡ seat.old.seen }
        requires few { length journal.items ≤ self.now.root.room }
        requires room { self.now.root.room ≤ vec_capacity journal }
        ensures given { seat.new ≡ record seat.old { held = all_but seat.old.held (journal_place seat.old) } }
        ensures latest { (others : List ℕ) → seat.old.held ≡ others ++ journal_place seat.old ∷ []
            → seat.new ≡ record seat.old { held = others } }
        ensures valid { IsSeat seat.new }
    {
        let place = self.root.points.len();
        let share = self.root.chronicle.split_parts(&mut seat.share, place);
        let commits = journal;
        self.claims
            .give_back(&mut seat.holder, place, Cell::Journal { commits, share });
    }
}
