// The end of a board: a core again.
ghost use Rattle.std.specs.Prelude.{◌≡◌, ◌-◌, ◌≤◌, length, IsTrue, vec_len, vec_capacity};
ghost use Rattle.std.specs.List.{AllByRecursion};
ghost use Rattle.subdivision.specs.Layout.{AreStarsOf};
ghost use Rattle.index_sets.specs.Indices.{contains};
ghost use Rattle.chronicle.specs.History.{IsShare};
ghost use Rattle.journal_defs.specs.Journal.{replay, IsLegalJournal};
ghost use Rattle.replay.specs.Replayed.{IsCore};
ghost use Rattle.seats.specs.Ground.{caller_of};
ghost use Rattle.board.specs.Laying.{IsBase};
ghost use Rattle.board.specs.declared.own.Own.{Own as OwnSeen};
ghost use Rattle.board.specs.Ended.{IsToldOwn};

use crate::own::Own;
use chronicle::{Chronicle, Share};
use journal_defs::Commit;
use replay::Core;
use seats::Root;
use star::Star;
use subdivision::Subdivision;

/// The core of a root, its stars and its journal.
pub fn core_of(root: Root, stars: Vec<Star>, journal: Vec<Commit>) -> Core
    requires base { IsBase root }
    requires legal { IsLegalJournal root.points root.start.items journal.items }
    requires few { length journal.items ≤ 4294967295 }
    requires stars { AreStarsOf root.points (replay root.start.items journal.items).all
        (replay root.start.items journal.items).kept stars.items }
    ensures points { result.points ≡ root.points }
    ensures start { result.start ≡ root.start.items }
    ensures journal { result.journal ≡ journal.items }
    ensures room { result.spare ≡ vec_capacity journal - vec_len journal }
    ensures core { IsCore result }
{
    let all = Subdivision::from_stars(&root.points, stars);
    Core::from_parts(root.points, root.start, journal, all)
}

/// Each share is told the whole history: what came after what it had seen isn't its caller's. (This learns, and does
/// nothing else.)
pub fn tell_all(chronicle: &Chronicle<Commit>, place: u32, whole: Share<Commit>, owns: Vec<Own>)
    requires place { place ≡ chronicle.now.last }
    requires of { (whole.of ≡ chronicle.now)
        × AllByRecursion (λ (o : OwnSeen). o.share.of ≡ chronicle.now) owns.items }
    requires nobody { whole.caller ≡ 0 }
    requires owns { IsTrue (contains whole.parts chronicle.now.last) }
    ensures told { AllByRecursion (IsToldOwn whole.seen) owns.items }
{
    let mut owns = owns;
    let mut whole = whole;
    while let Some(own) = owns.pop() {
        let mut share = own.share;
        chronicle.join_parts(&mut share, whole);
        whole = chronicle.split_parts(&mut share, place);
    }
    owns.destroy_empty();
}
