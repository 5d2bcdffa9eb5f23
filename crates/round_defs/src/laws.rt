//! Laws of rounds. Each is a function that does nothing; its contract is the law.
ghost use Rattle.std.specs.Prelude.{◌≡◌, ◌<◌, ◌≤◌, ◌*◌, ◌++◌, ℕ, List, true, length};
ghost use Rattle.plane.specs.declared.segment.Pair.{Pair as ThePair};
ghost use Rattle.partition_defs.specs.Ascending.{IsAscending};
ghost use Rattle.partition_defs.specs.Triangulation.{IsTriangulation};
ghost use Rattle.cost_defs.specs.Costs.{Costed};
ghost use Rattle.star.specs.Stars.{Seen};
ghost use Rattle.star.specs.StarOf.{IsStarOf};
ghost use Rattle.journal_defs.specs.declared.edit.Edit.{Edit as TheEdit};
ghost use Rattle.journal_defs.specs.declared.commit.Commit.{Commit as TheCommit};
ghost use Rattle.journal_defs.specs.Agree.{AreAgreeing};
ghost use Rattle.journal_defs.specs.Edits.{IsSound};
ghost use Rattle.journal_defs.specs.Journal.{replay, last, IsLegalJournal};
ghost use Rattle.journal_defs.specs.Neighbours.{star_list};
ghost use Rattle.edit.specs.Plans.{Planned};
ghost use Rattle.plan_defs.specs.Plans.{Sight, has_look, star_in};
ghost use Rattle.plan_defs.specs.Shown.{ShowsState};
ghost use Rattle.round_defs.specs.Rounds.{looks, sight_of, ArePlans, IsHanded, AreRounds, IsSearched};
ghost use Rattle.round_defs.specs.Handed.{AreFresh, IsTriedTwice};
ghost use Rattle.round_defs.specs.Grown.{IsGrown};

use plane::Points;

/// The looks of a round show one state.
pub fn looks_show_the_state(_points: &Points)
    ensures { (start : List ThePair) (J : List TheCommit) (v : ℕ) → v < length _points.now
        → ShowsState _points.now (replay start J) (looks _points.now start J v) }
{}

/// So they agree, and no round ends early.
pub fn looks_of_a_round_agree(points: &Points)
    ensures { (start : List ThePair) (J : List TheCommit) (v : ℕ) → IsSound points.now (replay start J)
        → v < length points.now
        → AreAgreeing points.now (star_in points.now (looks points.now start J v))
        (λ u. has_look (looks points.now start J v) u ≡ true) }
{
    let _count = points.len();
}

/// A round has one list of plans.
pub fn plans_of_a_round_are_determined(points: &Points)
    ensures { (D : List Costed) (start : List ThePair) (J : List TheCommit) (v k : ℕ)
        (plans others : List (List TheEdit))
        → IsSound points.now (replay start J) → v < length points.now
        → ArePlans points.now D (looks points.now start J v) v k plans
        → ArePlans points.now D (looks points.now start J v) v k others → plans ≡ others }
{
    let _count = points.len();
}

/// Rounds from a legal journal lead to a legal one: the first, and then at most four commits a round, all of caller 1
/// and none with Keeps that cost more than its Drops.
pub fn rounds_grow(_points: &Points)
    ensures { (D : List Costed) (start : List ThePair) (J L : List TheCommit) (words : List (ℕ × ℕ))
        → IsLegalJournal _points.now start J → AreRounds _points.now D start J words L
        → IsGrown _points.now D start (4 * length words) J L }
{}

/// Rounds are determined by the start, the journal and the words, and so is a search.
pub fn rounds_are_determined(points: &Points)
    ensures rounds { (D : List Costed) (start : List ThePair) (J K L : List TheCommit) (words : List (ℕ × ℕ))
        → IsAscending start → IsTriangulation points.now start → IsLegalJournal points.now start J
        → AreRounds points.now D start J words K → AreRounds points.now D start J words L → K ≡ L }
    ensures search { (D : List Costed) (start : List ThePair) (J K L : List TheCommit) (rounds seed : ℕ)
        → IsAscending start → IsTriangulation points.now start → IsLegalJournal points.now start J
        → IsSearched points.now D start J rounds seed K → IsSearched points.now D start J rounds seed L → K ≡ L }
{
    let _count = points.len();
}

/// Each state on the way is sound: its pairs triangulate the points, and the kept ones are a convex partition.
pub fn rounds_stay_sound(points: &Points)
    ensures { (D : List Costed) (start : List ThePair) (J K L : List TheCommit) (words : List (ℕ × ℕ))
        → IsAscending start → IsTriangulation points.now start → IsLegalJournal points.now start J
        → AreRounds points.now D start J words (K ++ L) → IsSound points.now (replay start K) }
{
    let _count = points.len();
}

/// One list of rounds after another is one list of rounds with the words of both.
pub fn rounds_join(_points: &Points)
    ensures { (D : List Costed) (start : List ThePair) (J K L : List TheCommit) (words more : List (ℕ × ℕ))
        → AreRounds _points.now D start J words K → AreRounds _points.now D start K more L
        → AreRounds _points.now D start J (words ++ more) L }
{}

/// A plan whose stamps were fresh at an earlier moment is handed in, and refreshed once, as if its stamps didn't
/// count.
pub fn stamps_do_not_count(_points: &Points)
    ensures { (start : List ThePair) (J L K : List TheCommit) (p : Planned) → AreFresh J p.claims
        → IsTriedTwice _points.now start (J ++ L) p K → IsHanded _points.now start (J ++ L) p.edits K }
{}

/// Every vertex has a neighbour, so a word's remainder by its degree is a position.
pub fn degrees_are_positive(points: &Points)
    ensures { (start : List ThePair) (J : List TheCommit) (v : ℕ) → IsSound points.now (replay start J)
        → v < length points.now → 1 ≤ length (star_list points.now (replay start J) v) }
{
    let _count = points.len();
}

/// A true star with the last touch as its stamp is the look of the definitions.
pub fn look_is_sight(points: &Points)
    ensures { (start : List ThePair) (J : List TheCommit) (v stamp : ℕ) (a : Seen)
        → IsSound points.now (replay start J) → v < length points.now
        → IsStarOf points.now (replay start J).all (replay start J).kept v a → stamp ≡ last J v
        → (let l : Sight = record { vertex = a.centre; list = a.list; stamp = stamp } in l)
        ≡ sight_of points.now start J v }
{
    let _count = points.len();
}
