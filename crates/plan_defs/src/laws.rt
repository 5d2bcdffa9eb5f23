//! Laws of plans. Each is a function that does nothing; its contract is the law.
ghost use Rattle.std.specs.Prelude.{◌≡◌, ◌↔◌, ℕ, List, Option, true};
ghost use Rattle.cost_defs.specs.Costs.{Costed};
ghost use Rattle.journal_defs.specs.declared.edit.Edit.{Edit as TheEdit};
ghost use Rattle.journal_defs.specs.Agree.{AreAgreeing};
ghost use Rattle.journal_defs.specs.Edits.{State, IsSound, inverse, touches};
ghost use Rattle.journal_defs.specs.Table.{Fits};
ghost use Rattle.edit.specs.Plans.{Planned};
ghost use Rattle.plan_defs.specs.declared.moves.Move.{Move as TheMove};
ghost use Rattle.plan_defs.specs.Plans.{Sight, has_look, star_in, AreFitting, IsPlanned};
ghost use Rattle.plan_defs.specs.Shown.{ShowsState, AreApart, AreFine, region_after};

use plane::Points;

/// Looks that show one sound state agree.
pub fn looks_of_a_state_agree(points: &Points)
    ensures { (s : State) (R : List Sight) → IsSound points.now s → ShowsState points.now s R
        → AreAgreeing points.now (star_in points.now R) (λ v. has_look R v ≡ true) }
{
    let _count = points.len();
}

/// On looks that show one sound state edits fit exactly where all that they touch was looked at, they are legal in turn,
/// and the Keeps don't cost more than the Drops.
pub fn fitting_is_legality(points: &Points)
    ensures { (D : List Costed) (s : State) (R : List Sight) (es : List TheEdit) → IsSound points.now s
        → ShowsState points.now s R
        → (AreFitting points.now D R es ↔ AreFine points.now D s (λ v. has_look R v ≡ true) es) }
{
    let _count = points.len();
}

/// A call of the planner has one answer on a region whose stars agree.
pub fn plans_are_determined(_points: &Points)
    ensures { (D : List Costed) (R : List Sight) (m : TheMove) (o u : Option Planned)
        → AreAgreeing _points.now (star_in _points.now R) (λ v. has_look R v ≡ true)
        → IsPlanned _points.now D R m o → IsPlanned _points.now D R m u → o ≡ u }
{}

/// An edit that fits a region whose stars agree, and then its inverse, leave the region as it was.
pub fn fitting_edits_come_back(points: &Points)
    ensures { (R : List Sight) (e : TheEdit) → AreApart R
        → AreAgreeing points.now (star_in points.now R) (λ v. has_look R v ≡ true)
        → ((v : ℕ) → touches e v ≡ true → has_look R v ≡ true) → Fits points.now (star_in points.now R) e
        → region_after points.now (inverse e) (region_after points.now e R) ≡ R }
{
    let _count = points.len();
}
