// A commit becomes the last of the history.
ghost use Rattle.std.specs.Prelude.{◌≡◌, ℕ, ◌+◌, ◌<◌, ◌++◌, [], ◌∷◌, length, true, IsTrue};
ghost use Rattle.std.specs.List.{list_any};
ghost use Rattle.index_sets.specs.Indices.{contains};
ghost use Rattle.journal_defs.specs.Edits.{touches};
ghost use Rattle.journal_defs.specs.Journal.{AreLegal, replay, made as made_by};
ghost use Rattle.seats.specs.Seats.{IsSeat};
ghost use Rattle.seats.specs.Claimed.{journal_place};

use crate::shelf::{Seat, Shelf};
use journal_defs::{Commit, EditList};

impl Shelf {
    /// Makes these edits the caller's next commit and the last of the history, and answers its number in the journal.
    /// What they touch is held, and the journal; they are legal after all that is seen.
    pub fn enter(&self, seat: &mut Seat, edits: EditList) -> (Commit, u64)
        requires of { seat.old.of ≡ self.now }
        requires journal { IsTrue (contains seat.old.held (journal_place seat.old)) }
        requires vertices { (v : ℕ) → list_any (λ e. touches e v) edits ≡ true → IsTrue (contains seat.old.held v) }
        requires legal { AreLegal self.now.root.points (replay self.now.root.start.items seat.old.seen) edits }
        requires room { length seat.old.seen < self.now.root.room }
        ensures commit { result.0 ≡ record
            { caller = seat.old.caller; seq = made_by seat.old.caller seat.old.seen + 1; edits = edits } }
        ensures entered { seat.new ≡ record seat.old
            { seen = seat.old.seen ++ result.0 ∷ []; mine = seat.old.mine ++ result.0 ∷ [] } }
        ensures number { result.1 ≡ length seat.new.seen }
        ensures valid { IsSeat seat.new }
    {
        let _some = edits.as_slice();
        let commit = Commit {
            caller: seat.caller,
            seq: seat.made + 1,
            edits,
        };
        let number = self.root.chronicle.append(&mut seat.share, &commit);
        seat.made += 1;
        (commit, number)
    }
}
