// Stars in hand through one edit, and room in them.
ghost use Rattle.std.specs.Prelude.{◌≡◌, ◌+◌, ◌<◌, ◌≤◌, ℕ, length, true, OnOk};
ghost use Rattle.journal_defs.specs.Edits.{State, IsSound, IsLegal};
ghost use Rattle.hands.specs.Hands.{hand_of, hands_of, hands_after, is_flip, AreRight, HaveRoom};
ghost use Rattle.hands.specs.Stars.{CanChange, HasChanged};

use edit::{Look, follow};
use journal_defs::{Edit, is_touched};
use mcp_outside::NoMemory;
use plane::Points;

// Eight edits, forth and back, put at most so many neighbours into a star.
const ROOM: u32 = 16;

// Takes one star through the edit, where it touches the vertex.
fn change_one(points: &Points, hand: &mut Look, edit: &Edit)
    requires { CanChange points.now edit.now hand.old }
    ensures { HasChanged points.now edit.now hand.old hand.new }
{
    let _count = points.len();
    if !is_touched(edit, hand.star.centre()) {
        return;
    }
    follow(points, &mut hand.star, edit);
}

/// Takes the stars in hand through an edit that is legal in the state of which they are: a step of a plan, or of its
/// undoing.
pub fn change(points: &Points, hands: &mut [Look], edit: &Edit)
    requires right { (s : State) × IsSound points.now s × IsLegal points.now s edit.now
        × AreRight points.now s (hands_of hands.old) }
    requires room { is_flip edit.now ≡ true → HaveRoom 1 hands.old }
    ensures hands { hands_of hands.new ≡ hands_after points.now edit.now (hands_of hands.old) }
    ensures room { (n : ℕ) → HaveRoom (n + 1) hands.old → HaveRoom n hands.new }
{
    for hand in hands.iter_mut() {
        change_one(points, hand, edit);
    }
}

/// Makes room in each star in hand for the 16 neighbours at most that eight edits put in, forth and back.
pub fn reserve_all(hands: &mut [Look]) -> Result<(), NoMemory>
    ensures same { hands_of hands.new ≡ hands_of hands.old }
    ensures room { OnOk result (HaveRoom 16 hands.new) }
{
    for hand in hands.iter_mut() {
        hand.star.reserve(ROOM)?;
    }
    Ok(())
}
