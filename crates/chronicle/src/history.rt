use crate::table::{View, Words};
use atomic_table::Seat;
use index_sets::Entry;
use std::marker::Model;
use std::snapshot::Snapshot;

/// A history. It has parts, the numbers 0, 1 and so on, and callers, the numbers 1, 2 and so on. All calls take it by
/// reference. Contracts see its name: its last part, its number of callers and the entries that it began with.
#[derive(Drop)]
pub struct Chronicle<T: Entry> {
    pub(crate) table: Words<T>,
    pub(crate) opened: Snapshot<Seat<(), View<T>>>,
}

impl<T: Entry> Model for Chronicle<T> {
    ghost use Rattle.std.specs.Prelude.{◌≡◌};
    ghost use Rattle.chronicle.specs.History.{ChronicleSeen};
    ghost use Rattle.chronicle.specs.Settled.{named};

    ghost Value = { ChronicleSeen T };

    ghost view = { λ c. named c.table.shared.table_id c.table.shared.key c.opened.value.me.0.first };

    ghost invariant = { λ c. c.table.shared.table_id.words ≡ 1 };
}

/// What one holder knows and owns of a history. It has no bytes. Contracts see the chronicle that it is of, its caller
/// (0 where it has none), the entries that it has seen, those of them that are its caller's, and the parts that it owns.
#[derive(Drop)]
pub struct Share<T: Entry> {
    pub(crate) seat: Seat<(), View<T>>,
}

impl<T: Entry> Model for Share<T> {
    ghost use Rattle.chronicle.specs.History.{ShareSeen};
    ghost use Rattle.chronicle.specs.Settled.{IsSettled, share_of};

    ghost Value = { ShareSeen T };

    ghost view = { λ s. share_of T.caller s.seat.table_id s.seat.me.0 };

    ghost invariant = { λ s. IsSettled T.caller s.seat.me };
}
