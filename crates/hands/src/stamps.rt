// The stamps in hand.
ghost use Rattle.std.specs.Prelude.{◌≡◌, ◌<◌, List, map, length, slice_index_or, IfNone, IfSome};
ghost use Rattle.std.specs.List.{AllByRecursion};
ghost use Rattle.journal_defs.specs.declared.commit.Commit.{Commit as TheCommit};
ghost use Rattle.edit.specs.declared.look.Look.{Look as TheLook};
ghost use Rattle.hands.specs.Hands.{hand_of, hands_of, restamped as restamped_spec, vertices, AreStamped};
ghost use Rattle.hands.specs.Answers.{claimed, IsFresh, IsStaleAnswer};

use crate::refusal::Refusal;
use edit::Look;
use index_sets::Entry;
use journal_defs::{Claim, Commit};

// The stamp in hand at a position.
fn stamp_at(hands: &[Look], k: usize) -> u64
    requires { k < length hands.now }
    ensures { (d : TheLook) → result ≡ (slice_index_or hands.now k d).stamp }
{
    hands[k].stamp
}

/// The first claim whose stamp isn't that in hand: it is refused as stale or ahead, and the stamp in hand is shown.
pub fn first_stale(claims: &[Claim], hands: &[Look]) -> Option<Refusal>
    requires keys { vertices (hands_of hands.now) ≡ claimed claims.now }
    ensures fresh { IfNone result ((J : List TheCommit) → AreStamped J (hands_of hands.now)
        → AllByRecursion (IsFresh J) claims.now) }
    ensures stale { IfSome result (λ r. (J : List TheCommit) → AreStamped J (hands_of hands.now)
        → IsStaleAnswer J claims.now r) }
{
    for k in 0..claims.len() {
        let claim = claims[k];
        let last = stamp_at(hands, k);
        let vertex = claim.vertex;
        if claim.stamp < last {
            return Some(Refusal::Stale {
                vertex,
                commit: last,
            });
        }
        if last < claim.stamp {
            return Some(Refusal::Ahead { vertex, last });
        }
    }
    None
}

// Stamps one star, where the commit touches its vertex.
fn restamp_one(hand: &mut Look, commit: &Commit, number: u64)
    ensures { hand_of hand.new ≡ restamped_spec commit.now number (hand_of hand.old) }
{
    if commit.touches(hand.star.centre()) {
        hand.stamp = number;
    }
}

/// Stamps what the commit touches with its number.
pub fn restamp(hands: &mut [Look], commit: &Commit, number: u64)
    ensures hands { hands_of hands.new ≡ map (restamped_spec commit.now number) (hands_of hands.old) }
{
    for hand in hands.iter_mut() {
        restamp_one(hand, commit, number);
    }
}
