// Whether an edit is legal, as the stars in hand tell.
ghost use Rattle.std.specs.Prelude.{◌≡◌, ℕ, Option, true, OnOk, IfErr};
ghost use Rattle.journal_defs.specs.Edits.{State, IsSound, IsLegal, touches};
ghost use Rattle.journal_defs.specs.Neighbours.{IsWhy};
ghost use Rattle.hands.specs.Hands.{hands_of, AreRight, IsInHand};
ghost use Rattle.hands.specs.Stars.{star_of_hand};

use edit::{Look, fits_on_true_stars};
use journal_defs::{Edit, Why};
use plane::Points;
use star::{Star, Stars};

// The stars of some looks.
#[derive(Clone, Copy)]
struct InHand<'a> {
    hands: &'a [Look],
}

impl<'a> Stars for InHand<'a> {
    ghost star_of = { λ h v. star_of_hand h.hands.now v };

    fn star(&self, v: u32) -> Option<&Star> {
        for k in 0..self.hands.len() {
            let star = &self.hands[k].star;
            if star.centre() == v {
                return Some(star);
            }
        }
        None
    }
}

/// Whether the edit is legal in the state of the stars in hand, or why not.
pub fn is_legal(points: &Points, hands: &[Look], edit: &Edit) -> Result<(), Why>
    requires right { (s : State) × IsSound points.now s × AreRight points.now s (hands_of hands.now) }
    requires covered { (v : ℕ) → touches edit.now v ≡ true → IsInHand (hands_of hands.now) v }
    ensures legal { OnOk result ((s : State) → IsSound points.now s
        → AreRight points.now s (hands_of hands.now) → IsLegal points.now s edit.now) }
    ensures illegal { IfErr result (λ why. (s : State) → IsSound points.now s
        → AreRight points.now s (hands_of hands.now)
        → IsWhy points.now s edit.now why × ¬ IsLegal points.now s edit.now) }
{
    let _count = points.len();
    match fits_on_true_stars(points, &InHand { hands }, edit) {
        Ok(()) => Ok(()),
        Err(why) => Err(why),
    }
}
