// The table under a history: one word, which counts the entries, what its seats know, and the rule that ties both.
ghost use Rattle.std.specs.Prelude.{ℕ, List, [], Option, None};

use atomic_table::{Join, Play, Shared, Split, Table, TableRule};
use index_sets::Entry;
use std::alloc::Global;
use std::collections::LinkedList;
use std::marker::{Brand, PhantomData};

/// What the table is told when it is made.
#[derive(Drop)]
pub struct About {
    pub last: u32,
    pub callers: u32,
    pub size: u64,
}

/// What one side of a join knew and owned before it.
pub struct Side<T> {
    pub seen: LinkedList<T>,
    pub parts: LinkedList<u64>,
    pub callers: LinkedList<u64>,
}

/// What a seat knows. No value of it is ever made.
pub struct View<T> {
    /// Whether it is the first seat of a table that has yet to be told its first entries, which are so many.
    pub boots: bool,
    pub size: u64,
    /// Whether it is the seat of a share.
    pub live: bool,
    pub last: u64,
    pub most: u64,
    pub first: LinkedList<T>,
    pub seen: LinkedList<T>,
    pub parts: LinkedList<u64>,
    /// Its own caller, and before the shares are handed out those that it may still give.
    pub callers: LinkedList<u64>,
    /// The two sides of its last join, until a load.
    pub sides: LinkedList<Side<T>>,
}

/// Which part. Each call picks it.
pub trait Which {
    ghost part: { ℕ };
}

impl Which for Brand {
    ghost part = { 0 };
}

/// Which entry. Each call picks it.
pub trait Told<T> {
    ghost entry: { Option T };
}

impl<T> Told<T> for Brand {
    ghost entry = { None };
}

/// Which entries. Each call picks them.
pub trait Known<T> {
    ghost entries: { List T };
}

impl<T> Known<T> for Brand {
    ghost entries = { [] };
}

pub struct Rule;

impl<T: Entry> TableRule<(), View<T>, About> for Rule {
    ghost use Rattle.chronicle.specs.Kept.{Kept, first_view};

    ghost holds = { Kept T.caller T.touches };

    ghost first = { first_view };
}

/// The first seat is told the first entries.
pub struct Begins<B>(PhantomData<B>);

impl<T: Entry, B: Known<T>> Play<(), View<T>> for Begins<B> {
    ghost use Rattle.chronicle.specs.Kept.{begun};

    ghost then = { begun B.entries };
}

/// An entry becomes the last.
pub struct Adds<B>(PhantomData<B>);

impl<T: Entry, B: Told<T>> Play<(), View<T>> for Adds<B> {
    ghost use Rattle.chronicle.specs.Kept.{added};

    ghost then = { added B.entry };
}

/// A load: what the rule says of the seat's view.
pub struct Learns;

impl<T: Entry> Play<(), View<T>> for Learns {
    ghost use Rattle.chronicle.specs.Kept.{learned};

    ghost then = { learned T.caller T.touches };
}

/// A part goes to a new seat.
pub struct CutsPart<B>(PhantomData<B>);

impl<T, B: Which> Split<View<T>> for CutsPart<B> {
    ghost use Rattle.chronicle.specs.Kept.{without_part, with_part};

    ghost left = { without_part B.part };

    ghost right = { with_part B.part };
}

/// The first caller goes to a new seat.
pub struct CutsCaller;

impl<T> Split<View<T>> for CutsCaller {
    ghost use Rattle.chronicle.specs.Kept.{without_caller, with_caller};

    ghost left = { without_caller };

    ghost right = { with_caller };
}

/// Two seats become one.
pub struct Glues;

impl<T> Join<View<T>> for Glues {
    ghost use Rattle.chronicle.specs.Kept.{both, spent};

    ghost both = { both };

    ghost spent = { spent };
}

pub type Words<T> = Table<(), View<T>, About, Rule, Global>;

pub type Top<T> = Shared<(), View<T>, About, Rule>;
