ghost use Rattle.std.specs.Prelude.{◌≡◌, ◌<◌, ◌≤◌, ◌++◌, ℕ, [], ◌∷◌, length, true, nat_eq, slice_index_or, IfErr, OnOk, OnErr, is_ok};
ghost use Rattle.std.specs.Prelude.{◌↔◌, IsTrue};
ghost use Rattle.plan_defs.specs.Plans.{has_look};
ghost use Rattle.edit.specs.declared.look.Look.{Look as TheLook};
ghost use Rattle.planner.specs.Region.{sights, star_of_look, AreFor, IsRegion, IsNoPlaceFor};
ghost use Rattle.planner.specs.Steps.{AreHeld, HasRoomAt, HaveStepped, IsPlaceIn, IsReady};

use crate::slots::{reserve_in, step_in};
use arrayvec::ArrayVec;
use edit::Look;
use journal_defs::Edit;
use mcp_outside::NoMemory;
use plane::Points;
use star::{Star, Stars};
use std::marker::Model;

/// At most 16 looks of different vertices. Contracts see the list of the looks, in the order in which they came.
#[derive(Drop)]
pub struct Region {
    looks: ArrayVec<Option<Look>, 16>,
}

impl Model for Region {
    ghost use Rattle.std.specs.Prelude.{List};
    ghost use Rattle.edit.specs.declared.look.Look.{Look};
    ghost use Rattle.planner.specs.Region.{held, IsRegion};
    ghost use Rattle.planner.specs.Steps.{AreFilled};

    ghost Value = { List Look };

    ghost view = { λ a. held a.looks.items };

    ghost invariant = { λ a. AreFilled a.looks.items × IsRegion (held a.looks.items) };
}

impl Stars for Region {
    ghost star_of = { λ r v. star_of_look r v };

    /// The star of the look at a vertex, or none where there is none.
    fn star(&self, v: u32) -> Option<&Star> {
        match self.place(v) {
            Some(k) => {
                let star = &self.look(k).star;
                let _degree = star.degree();
                Some(star)
            }
            None => None,
        }
    }
}

impl Region {
    /// A region without looks.
    pub fn make() -> Region
        ensures { result ≡ [] }
    {
        Region {
            looks: ArrayVec::new(),
        }
    }

    /// Adds a look. It is handed back where there are 16, or one of the same vertex.
    pub fn add(&mut self, look: Look) -> Result<(), Look>
        ensures added { OnOk result (self.new ≡ self.old ++ look ∷ []) }
        ensures refused { IfErr result (λ back. (back ≡ look) × IsNoPlaceFor look self.old) }
        ensures unchanged { OnErr result (self.new ≡ self.old) }
        ensures region { IsRegion self.new }
    {
        if self.looks.is_full() {
            return Err(look);
        }
        if self.has(look.star.centre()) {
            return Err(look);
        }
        self.looks.push(Some(look));
        Ok(())
    }

    /// How many looks there are.
    pub(crate) fn count(&self) -> usize
        ensures count { result ≡ length self.now }
        ensures region { IsRegion self.now }
    {
        self.looks.len()
    }

    /// The look at a position.
    pub(crate) fn look(&self, k: usize) -> &Look
        requires { k < length self.now }
        ensures { (d : TheLook) → result.now ≡ slice_index_or self.now k d }
    {
        match &self.looks.as_slice()[k] {
            Some(look) => look,
            None => unreachable!(),
        }
    }

    // The position of the look at a vertex.
    fn place(&self, v: u32) -> Option<usize>
        ensures { IsPlaceIn self.now v result }
    {
        for k in 0..self.count() {
            if self.look(k).star.centre() == v {
                return Some(k);
            }
        }
        None
    }

    /// Whether there is a look at a vertex.
    pub(crate) fn has(&self, v: u32) -> bool
        ensures { IsTrue result ↔ (has_look (sights self.now) v ≡ true) }
    {
        match self.place(v) {
            Some(_) => true,
            None => false,
        }
    }

    /// Takes the star of a vertex that the edit touches through it.
    pub(crate) fn step_at(&mut self, points: &Points, v: u32, edit: &Edit)
        requires held { AreHeld points.now self.old }
        requires ready { IsReady points.now edit.now self.old v }
        ensures { HaveStepped points.now edit.now (λ w. nat_eq v w) self.old self.new }
    {
        match self.place(v) {
            Some(k) => step_in(points, &mut self.looks, k, edit),
            None => unreachable!(),
        }
    }

    /// Makes room for one more neighbour in the star of a vertex.
    pub(crate) fn reserve_at(&mut self, v: u32) -> Result<(), NoMemory>
        requires { has_look (sights self.old) v ≡ true }
        ensures { HasRoomAt v (is_ok result) self.old self.new }
    {
        match self.place(v) {
            Some(k) => reserve_in(&mut self.looks, k),
            None => unreachable!(),
        }
    }
}
