// The stars of all points in a state, made from its two lists.
ghost use Rattle.std.specs.Prelude.{◌≡◌, ◌≢◌, ◌<◌, ℕ, length, IfOk, IsTrue, true};
ghost use Rattle.star.specs.Stars.{IsFree, IsStar, SamePlace, entry};
ghost use Rattle.star.specs.Turn.{IsInDirection};
ghost use Rattle.journal_defs.specs.Edits.{touches};
ghost use Rattle.edit.specs.Round.{IsPlaced, IsRoundFor};

use crate::{Edit, Why, fits};
use journal_defs::Lists;
use partition_defs::joins;
use plane::{Pair, Points, Turn};
use star::{Star, Stars};
use std::alloc::Global;
use std::marker::Model;
use std::snapshot::Snapshot;
use std::test::Fail;

#[derive(Drop)]
pub struct Round {
    stars: Vec<Star>,
    points: Snapshot<Points>,
}

impl Model for Round {
    ghost use Rattle.edit.specs.Round.{Rounded, AreRound};

    ghost Value = { Rounded };

    ghost view = { λ a. record { points = a.points.value; stars = a.stars.items } };

    ghost invariant = { λ a. AreRound a.points.value a.stars.items };
}

impl Stars for Round {
    ghost use Rattle.std.specs.Prelude.{slice_get};

    ghost star_of = { λ r v. slice_get r.stars v };

    fn star(&self, v: u32) -> Option<&Star> {
        self.stars.get(v as usize)
    }
}

// Whether the neighbour at k stands in another direction than q.
fn is_apart(points: &Points, star: &Star, k: u32, q: u32) -> bool
    requires points { points.now ≡ star.now.points }
    requires place { k < length star.now.list }
    requires within { q < length points.now }
    ensures { IsTrue result → ¬ IsInDirection star.now.points star.now.centre (entry star.now.list k).0 q }
{
    let (c, r) = (star.centre(), star.at(k).0);
    points.orient(c, r, q) != Turn::Straight || points.between(c, r, q)
}

// Whether no neighbour stands in the direction of q.
fn is_free(points: &Points, star: &Star, q: u32) -> bool
    requires points { points.now ≡ star.now.points }
    requires within { q < length points.now }
    ensures { IsTrue result → IsFree star.now q }
{
    for k in 0..star.degree() {
        if !is_apart(points, star, k, q) {
            return false;
        }
    }
    true
}

// Puts a neighbour in.
fn put(points: &Points, star: &mut Star, w: u32, kept: bool) -> Result<(), Fail>
    requires points { points.now ≡ star.old.points }
    ensures place { SamePlace star.old star.new }
    ensures order { IsStar star.new }
{
    star.reserve(1)?;
    if w >= points.len() || w == star.centre() || !is_free(points, star, w) {
        return Err(Fail::from("two neighbours in one direction"));
    }
    star.insert(points, w);
    if kept {
        star.keep_mark(points, w);
    }
    Ok(())
}

fn star_of(alloc: Global, points: &Points, lists: &Lists, v: u32) -> Result<Star, Fail>
    requires { v < length points.now }
    ensures { IfOk result (λ s. IsPlaced points.now s v) }
{
    let mut star = Star::make(alloc, points, v);
    for w in 0..points.len() {
        if joins(lists.all(), v, w) {
            put(points, &mut star, w, joins(lists.kept(), v, w))?;
        }
    }
    Ok(star)
}

pub fn round_of(alloc: Global, points: &Points, lists: &Lists) -> Result<Round, Fail>
    ensures { IfOk result (IsRoundFor points.now) }
{
    let mut stars = Vec::new(alloc);
    for v in 0..points.len() {
        stars.push(star_of(alloc, points, lists, v)?)?;
    }
    Ok(Round {
        stars,
        points: Snapshot::of(points),
    })
}

// Whether all vertices that the edit touches are points.
fn is_within(points: &Points, edit: &Edit) -> bool
    ensures { IsTrue result → (v : ℕ) → touches edit.now v ≡ true → v < length points.now }
{
    match *edit {
        Edit::Drop(e) => e.hi() < points.len(),
        Edit::Keep(e) => e.hi() < points.len(),
        Edit::Flip { from, to } => from.hi() < points.len() && to.hi() < points.len(),
    }
}

// What `fits` answers.
pub(crate) fn told(points: &Points, round: &Round, edit: &Edit) -> Result<Result<(), Why>, Fail>
    requires { IsRoundFor points.now round.now }
{
    if is_within(points, edit) {
        Ok(fits(points, round, edit))
    } else {
        Err(Fail::from("an end beyond the points"))
    }
}
