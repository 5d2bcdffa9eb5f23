// One edit of a subdivision.
ghost use Rattle.std.specs.Prelude.{◌≡◌, ◌<◌, ℕ, length, true, nat_eq};
ghost use Rattle.journal_defs.specs.Edits.{after, inverse, is_end, touches, IsLegal};
ghost use Rattle.replay.specs.Applied.{IsWithin};
ghost use Rattle.replay.specs.Edited.{IsSoundLayout, HasBecome, IsFault};
ghost use Rattle.replay.specs.Followed.{AreApart, HaveFollowed, IsReady};
ghost use Rattle.replay.specs.Machine.{layers};
ghost use Rattle.replay.specs.Room.{HasRoomFor};

use core::mem::replace_with;
use edit::{fits, follow};
use journal_defs::{Edit, Why};
use plane::{Pair, Points};
use star::Star;
use subdivision::Subdivision;

// Takes the star of one vertex through the edit.
fn follow_at(points: &Points, stars: &mut [Star], v: u32, edit: &Edit)
    requires { IsReady points.now edit.now stars.old v }
    ensures { HaveFollowed points.now edit.now (λ w. nat_eq v w) stars.old stars.new }
{
    let star = &mut stars[v as usize];
    follow(points, star, edit);
}

// Takes the stars of a pair's ends through the edit.
fn follow_ends(points: &Points, stars: &mut [Star], e: Pair, edit: &Edit)
    requires { (v : ℕ) → is_end e v ≡ true → IsReady points.now edit.now stars.old v }
    ensures { HaveFollowed points.now edit.now (is_end e) stars.old stars.new }
{
    follow_at(points, stars, e.lo(), edit);
    follow_at(points, stars, e.hi(), edit);
}

// Takes the stars of all vertices that the edit touches through it.
fn follow_all(points: &Points, stars: &mut [Star], edit: &Edit)
    requires ready { (v : ℕ) → touches edit.now v ≡ true → IsReady points.now edit.now stars.old v }
    requires apart { AreApart edit.now }
    ensures { HaveFollowed points.now edit.now (touches edit.now) stars.old stars.new }
{
    match *edit {
        Edit::Drop(e) => follow_ends(points, stars, e, edit),
        Edit::Keep(e) => follow_ends(points, stars, e, edit),
        Edit::Flip { from, to } => {
            follow_ends(points, stars, from, edit);
            follow_ends(points, stars, to, edit);
        }
    }
}

fn changed(all: Subdivision, points: &Points, edit: &Edit) -> Subdivision
    requires sound { IsSoundLayout points.now all }
    requires legal { IsLegal points.now (layers all) edit.now }
    requires within { IsWithin (length points.now) edit.now }
    requires room { HasRoomFor 1 all.stars edit.now }
    ensures { HasBecome 1 (after edit.now (layers all)) all result }
{
    let _count = points.len();
    let mut stars = all.into_stars();
    follow_all(points, &mut stars, edit);
    Subdivision::from_stars(points, stars)
}

/// Makes a legal edit.
pub fn change(all: &mut Subdivision, points: &Points, edit: &Edit)
    requires sound { IsSoundLayout points.now all.old }
    requires legal { IsLegal points.now (layers all.old) edit.now }
    requires within { IsWithin (length points.now) edit.now }
    requires room { HasRoomFor 1 all.old.stars edit.now }
    ensures { HasBecome 1 (after edit.now (layers all.old)) all.old all.new }
{
    replace_with(all, (), |all, _| (changed(all, points, edit), ()));
}
