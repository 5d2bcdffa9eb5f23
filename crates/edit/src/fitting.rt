ghost use Rattle.std.specs.Prelude.{◌≡◌, ◌↔◌, ℕ, IsOk, IsSome, MatchResult, true};
ghost use Rattle.star.specs.StarOf.{IsStarOf};
ghost use Rattle.journal_defs.specs.Edits.{State, IsSound, IsLegal, touches};
ghost use Rattle.journal_defs.specs.Table.{IsAt, Fits, Refuses, seen_of, HasStarsFor};
ghost use Rattle.edit.specs.TrueStars.{AreTrueStars};

use crate::drop_row::{drop_fits, keep_fits};
use crate::flip_row::flip_fits;
use journal_defs::{Edit, Why};
use plane::{Pair, Points};
use star::{Star, Stars};

// The star of the pair's smaller end.
fn lower_star<'a, S: Stars>(points: &Points, stars: &'a S, e: Pair) -> &'a Star
    requires some { IsSome (S.star_of stars.now e.lo) }
    requires at { IsAt points.now (seen_of (S.star_of stars.now) e.lo) e.lo }
    ensures star { result.now ≡ seen_of (S.star_of stars.now) e.lo }
    ensures at { IsAt points.now result.now e.lo }
{
    stars.star(e.lo()).unwrap()
}

// The star of the pair's larger end.
fn upper_star<'a, S: Stars>(points: &Points, stars: &'a S, e: Pair) -> &'a Star
    requires some { IsSome (S.star_of stars.now e.hi) }
    requires at { IsAt points.now (seen_of (S.star_of stars.now) e.hi) e.hi }
    ensures star { result.now ≡ seen_of (S.star_of stars.now) e.hi }
    ensures at { IsAt points.now result.now e.hi }
{
    stars.star(e.hi()).unwrap()
}

// The first refusal of the table that applies. With `are_true` the stars are those of a state.
fn first_refusal<S: Stars>(
    points: &Points,
    stars: &S,
    edit: &Edit,
    are_true: bool,
) -> Result<(), Why>
    requires stars { HasStarsFor points.now (S.star_of stars.now) edit.now }
    requires known { are_true ≡ true → AreTrueStars points.now (S.star_of stars.now) edit.now }
    ensures { MatchResult result
        (λ _. Fits points.now (seen_of (S.star_of stars.now)) edit.now)
        (λ why. Refuses points.now (seen_of (S.star_of stars.now)) edit.now why) }
{
    match *edit {
        Edit::Drop(e) => {
            let lower = lower_star(points, stars, e);
            let upper = upper_star(points, stars, e);
            drop_fits(points, lower, upper, e, are_true)
        }
        Edit::Keep(e) => keep_fits(points, lower_star(points, stars, e), e),
        Edit::Flip { from, to } => {
            let lower = lower_star(points, stars, from);
            let upper = upper_star(points, stars, from);
            let fresh = lower_star(points, stars, to);
            flip_fits(points, lower, upper, fresh, from, to)
        }
    }
}

/// The first refusal of the table that applies to the edit on these stars, or Ok where none applies. Where they are the
/// stars of a triangulation with a convex partition inside it, Ok comes exactly where the edit is legal there.
pub fn fits<S: Stars>(points: &Points, stars: &S, edit: &Edit) -> Result<(), Why>
    requires { HasStarsFor points.now (S.star_of stars.now) edit.now }
    ensures table { MatchResult result
        (λ _. Fits points.now (seen_of (S.star_of stars.now)) edit.now)
        (λ why. Refuses points.now (seen_of (S.star_of stars.now)) edit.now why) }
    ensures legal { (s : State) → IsSound points.now s
        → ((v : ℕ) → touches edit.now v ≡ true
        → IsStarOf points.now s.all s.kept v (seen_of (S.star_of stars.now) v))
        → (IsOk result ↔ IsLegal points.now s edit.now) }
{
    first_refusal(points, stars, edit, false)
}

/// The answer of `fits` on stars that are known to be those of a triangulation with a convex partition inside it. For a
/// border pair and at a corner of the hull it needs no walk over all points, as `fits` does.
pub fn fits_on_true_stars<S: Stars>(points: &Points, stars: &S, edit: &Edit) -> Result<(), Why>
    requires stars { HasStarsFor points.now (S.star_of stars.now) edit.now }
    requires known { AreTrueStars points.now (S.star_of stars.now) edit.now }
    ensures table { MatchResult result
        (λ _. Fits points.now (seen_of (S.star_of stars.now)) edit.now)
        (λ why. Refuses points.now (seen_of (S.star_of stars.now)) edit.now why) }
    ensures legal { (s : State) → IsSound points.now s
        → ((v : ℕ) → touches edit.now v ≡ true
        → IsStarOf points.now s.all s.kept v (seen_of (S.star_of stars.now) v))
        → (IsOk result ↔ IsLegal points.now s edit.now) }
{
    first_refusal(points, stars, edit, true)
}
