// What is made, undone and stamped in the stars in hand, which stand in a vector.
ghost use Rattle.std.specs.Prelude.{◌≡◌, ℕ, ◌≤◌, List, length, map, take, true, vec_capacity, OnOk, OnErr, IfErr};
ghost use Rattle.std.specs.List.{list_any};
ghost use Rattle.journal_defs.specs.Edits.{State, IsSound};
ghost use Rattle.journal_defs.specs.Journal.{AreLegal};
ghost use Rattle.hands.specs.Hands.{Hand, hands_of, hands_after_all, is_flip as flips};
ghost use Rattle.hands.specs.Hands.{restamped as restamped_spec, AreRight, AreCovered, HaveRoom};
ghost use Rattle.hands.specs.Answers.{IsIllegalAt, IsMade};

use edit::Look;
use hands::{has_flip, make_edits, reserve_all, restamp, undo};
use journal_defs::{Commit, Edit, Why};
use mcp_outside::NoMemory;
use seats::Shelf;

/// Makes room in the stars in hand for a plan with a flip.
pub fn make_room(edits: &[Edit], hands: &mut Vec<Look>) -> Result<(), NoMemory>
    ensures same { hands_of hands.new.items ≡ hands_of hands.old.items }
    ensures capacity { vec_capacity hands.old ≤ vec_capacity hands.new }
    ensures room { OnOk result (list_any flips edits.now ≡ true → HaveRoom 16 hands.new.items) }
    ensures cause { OnErr result (list_any flips edits.now ≡ true) }
{
    if has_flip(edits) {
        return reserve_all(hands.as_mut_slice());
    }
    Ok(())
}

/// Tests and makes the edits in turn. At an error those before the first that isn't legal are made; its position and
/// why are shown.
pub fn make_all(shelf: &Shelf, edits: &[Edit], hands: &mut Vec<Look>) -> Result<(), (u32, Why)>
    requires right { (s : State) × IsSound shelf.now.root.points s
        × AreRight shelf.now.root.points s (hands_of hands.old.items) }
    requires covered { AreCovered (hands_of hands.old.items) edits.now }
    requires few { length edits.now ≤ 8 }
    requires room { list_any flips edits.now ≡ true → HaveRoom 16 hands.old.items }
    ensures legal { OnOk result ((s : State) → IsSound shelf.now.root.points s
        → AreRight shelf.now.root.points s (hands_of hands.old.items) → AreLegal shelf.now.root.points s edits.now) }
    ensures made { OnOk result (hands_of hands.new.items
        ≡ hands_after_all shelf.now.root.points edits.now (hands_of hands.old.items)) }
    ensures illegal { IfErr result (λ e. (s : State) → IsSound shelf.now.root.points s
        → AreRight shelf.now.root.points s (hands_of hands.old.items)
        → IsIllegalAt shelf.now.root.points s edits.now e.0 e.1) }
    ensures before { IfErr result (λ e. hands_of hands.new.items
        ≡ hands_after_all shelf.now.root.points (take e.0 edits.now) (hands_of hands.old.items)) }
    ensures room { list_any flips edits.now ≡ true → HaveRoom 8 hands.new.items }
    ensures capacity { vec_capacity hands.old ≤ vec_capacity hands.new }
{
    make_edits(shelf.points(), edits, hands.as_mut_slice())
}

/// Undoes the first edits, so many. The stars in hand are then those that they were made in.
pub fn undo_all(shelf: &Shelf, edits: &[Edit], hands: &mut Vec<Look>, count: usize)
    requires count { count ≤ length edits.now }
    requires few { length edits.now ≤ 8 }
    requires made { (s : State) × IsSound shelf.now.root.points s
        × AreLegal shelf.now.root.points s (take count edits.now)
        × IsMade shelf.now.root.points s (take count edits.now) (hands_of hands.old.items) }
    requires room { list_any flips edits.now ≡ true → HaveRoom 8 hands.old.items }
    ensures back { (s : State) (hs : List Hand) → IsSound shelf.now.root.points s
        → AreLegal shelf.now.root.points s (take count edits.now) → AreRight shelf.now.root.points s hs
        → hands_of hands.old.items ≡ hands_after_all shelf.now.root.points (take count edits.now) hs
        → hands_of hands.new.items ≡ hs }
    ensures capacity { vec_capacity hands.old ≤ vec_capacity hands.new }
{
    undo(shelf.points(), edits, hands.as_mut_slice(), count);
}

/// Stamps what the commit touches with its number.
pub fn stamp_all(hands: &mut Vec<Look>, commit: &Commit, number: u64)
    ensures hands { hands_of hands.new.items
        ≡ map (restamped_spec commit.now number) (hands_of hands.old.items) }
    ensures capacity { vec_capacity hands.old ≤ vec_capacity hands.new }
{
    restamp(hands.as_mut_slice(), commit, number);
}
