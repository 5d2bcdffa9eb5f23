// The edits of a plan, made and undone in the stars in hand.
ghost use Rattle.std.specs.Prelude.{◌≡◌, ◌≤◌, ℕ, List, length, take, true, OnOk, IfErr};
ghost use Rattle.std.specs.List.{list_any};
ghost use Rattle.journal_defs.specs.Edits.{State, IsSound, inverse as inverse_spec};
ghost use Rattle.journal_defs.specs.Journal.{AreLegal};
ghost use Rattle.hands.specs.Hands.{Hand, hands_of, hands_after_all, is_flip as flips, AreRight, AreCovered, HaveRoom};
ghost use Rattle.hands.specs.Answers.{IsIllegalAt, IsMade};

use crate::changing::change;
use crate::fitting::is_legal;
use edit::Look;
use journal_defs::{Edit, Why};
use plane::Points;

fn is_flip(edit: &Edit) -> bool
    ensures { result ≡ flips edit.now }
{
    match *edit {
        Edit::Drop(_) => false,
        Edit::Keep(_) => false,
        Edit::Flip { from: _, to: _ } => true,
    }
}

/// Whether one of the edits is a flip.
pub fn has_flip(edits: &[Edit]) -> bool
    ensures { result ≡ list_any flips edits.now }
{
    edits.iter().any(|e| is_flip(e))
}

// The edit that leads back.
fn inverse(edit: Edit) -> Edit
    ensures { result ≡ inverse_spec edit }
{
    match edit {
        Edit::Drop(e) => Edit::Keep(e),
        Edit::Keep(e) => Edit::Drop(e),
        Edit::Flip { from, to } => Edit::Flip { from: to, to: from },
    }
}

/// Tests and makes the edits in turn. At an error those before the first that isn't legal are made; its position and why
/// are shown.
pub fn make_edits(points: &Points, edits: &[Edit], hands: &mut [Look]) -> Result<(), (u32, Why)>
    requires right { (s : State) × IsSound points.now s × AreRight points.now s (hands_of hands.old) }
    requires covered { AreCovered (hands_of hands.old) edits.now }
    requires few { length edits.now ≤ 8 }
    requires room { list_any flips edits.now ≡ true → HaveRoom 16 hands.old }

    ensures legal { OnOk result ((s : State) → IsSound points.now s
        → AreRight points.now s (hands_of hands.old) → AreLegal points.now s edits.now) }
    ensures made { OnOk result (hands_of hands.new ≡ hands_after_all points.now edits.now (hands_of hands.old)) }

    ensures illegal { IfErr result (λ e. (s : State) → IsSound points.now s → AreRight points.now s (hands_of hands.old)
        → IsIllegalAt points.now s edits.now e.0 e.1) }
    ensures before { IfErr result (λ e. hands_of hands.new
        ≡ hands_after_all points.now (take e.0 edits.now) (hands_of hands.old)) }

    ensures room { list_any flips edits.now ≡ true → HaveRoom 8 hands.new }
{
    let _count = points.len();
    for k in 0..edits.len() {
        let edit = edits[k];
        match is_legal(points, hands, &edit) {
            Ok(()) => change(points, hands, &edit),
            Err(why) => return Err((k as u32, why)),
        }
    }
    Ok(())
}

/// Undoes the first edits, so many, the last one first. The stars in hand are then those that they were made in.
pub fn undo(points: &Points, edits: &[Edit], hands: &mut [Look], count: usize)
    requires count { count ≤ length edits.now }
    requires few { length edits.now ≤ 8 }
    requires made { (s : State) × IsSound points.now s × AreLegal points.now s (take count edits.now)
        × IsMade points.now s (take count edits.now) (hands_of hands.old) }
    requires room { list_any flips edits.now ≡ true → HaveRoom 8 hands.old }
    ensures back { (s : State) (hs : List Hand) → IsSound points.now s → AreLegal points.now s (take count edits.now)
        → AreRight points.now s hs → hands_of hands.old ≡ hands_after_all points.now (take count edits.now) hs
        → hands_of hands.new ≡ hs }
{
    let _count = points.len();
    let mut k = count;
    while k > 0 {
        k -= 1;
        let back = inverse(edits[k]);
        change(points, hands, &back);
    }
}
