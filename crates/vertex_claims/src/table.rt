// The table under the claims: a word and a slot for each place, what its seats know, and the rule that ties them.
ghost use Rattle.std.specs.Prelude.{ℕ};

use crate::holding::Held;
use atomic_table::{Join, Play, Seat, Shared, Split, Table, TableRule};
use std::alloc::Global;
use std::collections::LinkedList;
use std::snapshot::Snapshot;

/// What the table is told when it is made.
pub struct About<R> {
    pub callers: u32,
    pub places: u64,
    pub root: Snapshot<R>,
}

impl<R> Drop for About<R> {
    fn drop(self) {
        let Self {
            callers: _,
            places: _,
            root: _,
        } = self;
    }
}

/// What a seat knows. No value of it is ever made.
pub struct View<R> {
    pub root: Option<R>,
    pub callers: u64,
    /// A holder has one number.
    pub numbers: LinkedList<u64>,
    /// The places that it holds.
    pub places: LinkedList<u64>,
    /// The place whose slot is out with the seat, between two steps of one call.
    pub busy: Option<u64>,
    pub wins: LinkedList<u64>,
    pub misses: LinkedList<(u64, u64)>,
}

pub struct Rule;

impl<C: Held> TableRule<Option<C>, View<C::Root>, About<C::Root>> for Rule {
    ghost use Rattle.vertex_claims.specs.Kept.{Kept, first_view};

    ghost holds = { Kept C.fits };

    ghost first = { first_view };
}

/// The first number goes to a new seat.
pub struct Cuts;

impl<R> Split<View<R>> for Cuts {
    ghost use Rattle.vertex_claims.specs.Kept.{without_number, with_number};

    ghost left = { without_number };

    ghost right = { with_number };
}

/// A seat takes in the numbers of another.
pub struct Glues;

impl<R> Join<View<R>> for Glues {
    ghost use Rattle.vertex_claims.specs.Kept.{both, spent};

    ghost both = { both };

    ghost spent = { spent };
}

/// One try at a place.
pub struct Tries;

impl<C: Held> Play<Option<C>, View<C::Root>> for Tries {
    ghost use Rattle.vertex_claims.specs.Kept.{tried};

    ghost then = { tried C.fits };
}

/// The empty slot goes home.
pub struct Lays;

impl<C: Held> Play<Option<C>, View<C::Root>> for Lays {
    ghost use Rattle.vertex_claims.specs.Kept.{laid};

    ghost then = { laid };
}

/// The empty slot of a place that is held comes.
pub struct Lifts;

impl<C: Held> Play<Option<C>, View<C::Root>> for Lifts {
    ghost use Rattle.vertex_claims.specs.Kept.{lifted};

    ghost then = { lifted };
}

/// The filled slot goes home, and the place is free.
pub struct Backs;

impl<C: Held> Play<Option<C>, View<C::Root>> for Backs {
    ghost use Rattle.vertex_claims.specs.Kept.{backed};

    ghost then = { backed };
}

pub type Cells<C> = Table<
    Option<C>,
    View<<C as Held>::Root>,
    About<<C as Held>::Root>,
    Rule,
    Global,
>;

pub type Top<C> = Shared<Option<C>, View<<C as Held>::Root>, About<<C as Held>::Root>, Rule>;

pub type Place<C> = Seat<Option<C>, View<<C as Held>::Root>>;
