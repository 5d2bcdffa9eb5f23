//! Laws of edits and journals. Each is a function that does nothing; its contract is the law.
ghost use Rattle.std.specs.Prelude.{◌≡◌, ◌<◌, ◌⊎◌, ◌↔◌, ℕ, Bool, List, ◌++◌, true, false, length};
ghost use Rattle.std.specs.List.{Contains, list_any};
ghost use Rattle.plane.specs.declared.segment.Pair.{Pair as ThePair};
ghost use Rattle.partition_defs.specs.Partition.{IsConvexPartition};
ghost use Rattle.partition_defs.specs.Triangulation.{IsTriangulation};
ghost use Rattle.partition_defs.specs.Ascending.{IsAscending};
ghost use Rattle.partition_defs.specs.Sets.{without, IsMinimal};
ghost use Rattle.star.specs.Stars.{Seen, IsStar};
ghost use Rattle.star.specs.StarOf.{IsStarOf};
ghost use Rattle.journal_defs.specs.declared.edit.Edit.{Edit as TheEdit};
ghost use Rattle.journal_defs.specs.declared.edit.Why.{Why as TheWhy};
ghost use Rattle.journal_defs.specs.declared.commit.Commit.{Commit as TheCommit};
ghost use Rattle.journal_defs.specs.Edits.{State, after, inverse, inverse_all, IsLegal, IsSound, AreAlikeAt, touches};
ghost use Rattle.journal_defs.specs.Journal.{replay, replay_from, after_all, opening, last, AreLegal, IsLegalJournal};
ghost use Rattle.journal_defs.specs.Journal.{IsSwept, Spares, as_drops};
ghost use Rattle.journal_defs.specs.Table.{Fits, Refuses};
ghost use Rattle.journal_defs.specs.Turns.{stars_after, FitInTurn, AreMutual};
ghost use Rattle.journal_defs.specs.Agree.{AreAgreeing};
ghost use Rattle.journal_defs.specs.Neighbours.{star_list, star_value, list_after, IsWhy};

use plane::Points;

/// After a legal edit the pairs are again a triangulation, and the kept ones a convex partition among them.
pub fn legal_edits_keep_sound(points: &Points)
    ensures { (s : State) (e : TheEdit) → IsSound points.now s → IsLegal points.now s e → IsSound points.now (after e s) }
{
    let _count = points.len();
}

/// After every legal journal the pairs are a triangulation, and the kept ones a convex partition among them. With the
/// empty journal: so are the pairs of a triangulation that are all kept.
pub fn every_state_is_sound(points: &Points)
    ensures { (start : List ThePair) (J : List TheCommit) → IsAscending start → IsTriangulation points.now start
        → IsLegalJournal points.now start J → IsSound points.now (replay start J) }
{
    let _count = points.len();
}

/// A replay of two journals, one after the other, is that of the second from the state after the first.
pub fn replay_of_two(_points: &Points)
    ensures { (start : List ThePair) (J L : List TheCommit) → replay start (J ++ L) ≡ replay_from (replay start J) L }
{}

/// A journal that begins a legal one is legal.
pub fn prefix_is_legal(_points: &Points)
    ensures { (start : List ThePair) (J L : List TheCommit) → IsLegalJournal _points.now start (J ++ L)
        → IsLegalJournal _points.now start J }
{}

/// An edit changes nothing at a vertex that it doesn't touch: its star stays the same.
pub fn untouched_stays(_points: &Points)
    ensures alike { (e : TheEdit) (s : State) (v : ℕ) → touches e v ≡ false → AreAlikeAt s (after e s) v }
    ensures star { (e : TheEdit) (s : State) (v : ℕ) (a : Seen) → touches e v ≡ false
        → IsStarOf _points.now s.all s.kept v a → IsStarOf _points.now (after e s).all (after e s).kept v a }
{}

/// Commits that don't touch a vertex leave its last touch and its star as they were.
pub fn spared_stays(_points: &Points)
    ensures last { (J L : List TheCommit) (v : ℕ) → Spares L v → last (J ++ L) v ≡ last J v }
    ensures star { (start : List ThePair) (J L : List TheCommit) (v : ℕ) (a : Seen) → Spares L v
        → IsStarOf _points.now (replay start J).all (replay start J).kept v a
        → IsStarOf _points.now (replay start (J ++ L)).all (replay start (J ++ L)).kept v a }
{}

/// Legality is local: two sound states that agree on the neighbours and marks of the touched vertices have the same legal
/// lists of edits.
pub fn legality_is_local(points: &Points)
    ensures { (s t : State) (es : List TheEdit) → IsSound points.now s → IsSound points.now t
        → ((v : ℕ) → list_any (λ e. touches e v) es ≡ true → AreAlikeAt s t v)
        → AreLegal points.now s es → AreLegal points.now t es }
{
    let _count = points.len();
}

/// The inverse of a legal edit is legal after it, and leads back to the very same lists.
pub fn inverse_leads_back(_points: &Points)
    ensures legal { (s : State) (e : TheEdit) → IsSound _points.now s → IsLegal _points.now s e
        → IsLegal _points.now (after e s) (inverse e) }
    ensures back { (s : State) (e : TheEdit) → IsSound _points.now s → IsLegal _points.now s e → after (inverse e) (after e s) ≡ s }
{}

/// The inverses of legal edits, in reverse order, are legal after them, and lead back to the very same lists.
pub fn inverses_lead_back(points: &Points)
    ensures legal { (s : State) (es : List TheEdit) → IsSound points.now s → AreLegal points.now s es
        → AreLegal points.now (after_all es s) (inverse_all es) }
    ensures back { (s : State) (es : List TheEdit) → IsSound points.now s → AreLegal points.now s es
        → after_all (inverse_all es) (after_all es s) ≡ s }
{
    let _count = points.len();
}

/// What can't be dropped now can't be dropped when less is kept.
pub fn drop_stays_refused(_points: &Points)
    ensures { (K L : List ThePair) (e : ThePair) → IsConvexPartition _points.now K
        → ((f : ThePair) → Contains L f → Contains K f)
        → IsConvexPartition _points.now (without e L) → IsConvexPartition _points.now (without e K) }
{}

/// After a sweep through the kept pairs none can go: one pass is enough.
pub fn swept_is_minimal(_points: &Points)
    ensures { (s : State) (dropped : List ThePair) → IsSound _points.now s → IsSwept _points.now s s.kept dropped
        → IsMinimal _points.now (after_all (as_drops dropped) s).kept }
{}

/// On the stars of a sound state the table refuses nothing exactly where the edit is legal.
pub fn table_says_legality(points: &Points)
    ensures { (s : State) (at : ℕ → Seen) (e : TheEdit) → IsSound points.now s
        → ((v : ℕ) → touches e v ≡ true → IsStarOf points.now s.all s.kept v (at v))
        → (Fits points.now at e ↔ IsLegal points.now s e) }
{
    let _count = points.len();
}

/// Edits fit one after another on the stars of a sound state exactly where they are legal there in turn.
pub fn fitting_is_legality(points: &Points)
    ensures { (s : State) (at : ℕ → Seen) (es : List TheEdit) → IsSound points.now s
        → ((v : ℕ) → list_any (λ e. touches e v) es ≡ true → v < length points.now)
        → ((v : ℕ) → list_any (λ e. touches e v) es ≡ true → IsStarOf points.now s.all s.kept v (at v))
        → (FitInTurn points.now at es ↔ AreLegal points.now s es) }
{
    let _count = points.len();
}

/// Stars that have each other, with the same marks, stay so under every edit, whether it fits or not.
pub fn edits_keep_stars_mutual(_points: &Points)
    ensures { (e : TheEdit) (at : ℕ → Seen) (V : ℕ → Bool) → AreMutual at (λ u. V u ≡ true)
        → AreMutual (stars_after _points.now e at) (λ u. V u ≡ true) }
{}

/// The inverse of an edit that fits takes the lists of stars that have each other back to what they were, whether these are
/// the stars of a state or not.
pub fn fitting_edits_come_back(points: &Points)
    ensures { (at : ℕ → Seen) (V : ℕ → Bool) (e : TheEdit) (v : ℕ)
        → ((u : ℕ) → V u ≡ true → IsStar (at u) × ((at u).centre ≡ u) × ((at u).points ≡ points.now))
        → AreMutual at (λ u. V u ≡ true) → ((u : ℕ) → touches e u ≡ true → V u ≡ true) → V v ≡ true
        → Fits points.now at e
        → list_after points.now v (inverse e) (list_after points.now v e (at v).list) ≡ (at v).list }
{
    let _count = points.len();
}

/// The table's refusal on the stars of a sound state says why the edit isn't legal there, and it isn't.
pub fn refusal_says_why(points: &Points)
    ensures illegal { (s : State) (at : ℕ → Seen) (e : TheEdit) (why : TheWhy) → IsSound points.now s
        → ((v : ℕ) → touches e v ≡ true → IsStarOf points.now s.all s.kept v (at v))
        → Refuses points.now at e why → ¬ IsLegal points.now s e }
    ensures why { (s : State) (at : ℕ → Seen) (e : TheEdit) (why : TheWhy) → IsSound points.now s
        → ((v : ℕ) → touches e v ≡ true → v < length points.now)
        → ((v : ℕ) → touches e v ≡ true → IsStarOf points.now s.all s.kept v (at v))
        → Refuses points.now at e why → IsWhy points.now s e why }
{
    let _count = points.len();
}

/// The stars of a sound state agree.
pub fn true_stars_agree(_points: &Points)
    ensures { (s : State) (at : ℕ → Seen) (v w : ℕ) → IsSound _points.now s → v < length _points.now → w < length _points.now
        → IsStarOf _points.now s.all s.kept v (at v) → IsStarOf _points.now s.all s.kept w (at w)
        → AreAgreeing _points.now at (λ u. (u ≡ v) ⊎ (u ≡ w)) }
{}

/// The star of a vertex as a value is its star, and every star of it has that list.
pub fn star_value_is_star(points: &Points)
    ensures star { (s : State) (v : ℕ) → IsSound points.now s → v < length points.now
        → IsStarOf points.now s.all s.kept v (star_value points.now s v) }
    ensures list { (s : State) (v : ℕ) (a : Seen) → IsSound points.now s → v < length points.now
        → IsStarOf points.now s.all s.kept v a → a.list ≡ star_list points.now s v }
{
    let _count = points.len();
}

/// The star of a vertex after a legal edit is a step of its list before.
pub fn star_follows(points: &Points)
    ensures { (s : State) (e : TheEdit) (v : ℕ) → IsSound points.now s → IsLegal points.now s e → v < length points.now
        → list_after points.now v e (star_list points.now s v) ≡ star_list points.now (after e s) v }
{
    let _count = points.len();
}
