ghost use Rattle.std.specs.Prelude.{ℕ};

use crate::table::{Cells, Place};
use std::alloc::Global;
use std::marker::Model;
use std::snapshot::Snapshot;

/// A cell. It meets a fact of its place and of the table's root whenever it lies at the place.
pub trait Held {
    /// What the facts of all cells speak of.
    type Root;

    /// The fact of a place.
    ghost fits: { Self.Root → ℕ → Self → Type 0 };
}

/// Cells by place, 0, 1 and so on. Threads share them by reference. Contracts see their name: how many places and
/// holders there are, and the root, as it was when the claims were made.
#[derive(Drop)]
pub struct Claims<C: Held> {
    pub(crate) table: Cells<C>,
    pub(crate) callers: u32,
    pub(crate) alloc: Global,
}

impl<C: Held> Model for Claims<C> {
    ghost use Rattle.std.specs.Prelude.{◌≡◌, ◌<◌};
    ghost use Rattle.vertex_claims.specs.Holding.{ClaimsSeen};

    ghost Value = { ClaimsSeen C.Root };

    ghost view = { λ c. record {
      table = c.table.shared.table_id;
      places = c.table.shared.table_id.words;
      callers = c.callers;
      root = c.table.shared.key.root.value;
    } };

    ghost invariant = { λ c.
        (c.table.shared.table_id.slots ≡ c.table.shared.table_id.words)
        × (c.table.shared.key.callers ≡ c.callers)
        × (0 < c.table.shared.table_id.words)
        × (0 < c.callers) };
}

/// Who takes cells. Contracts see of which claims it is, its number (from 1), the places that it holds in the order in
/// which it won them, the places of all tries that it won, and of those that it lost, each with who held it then.
#[derive(Drop)]
pub struct Holder<C: Held> {
    pub(crate) seat: Place<C>,
    pub(crate) number: u32,
    pub(crate) root: Snapshot<C::Root>,
}

impl<C: Held> Model for Holder<C> {
    ghost use Rattle.vertex_claims.specs.Holding.{HolderSeen};
    ghost use Rattle.vertex_claims.specs.Resting.{IsResting, holder_of};

    ghost Value = { HolderSeen C.Root };

    ghost view = { λ h. holder_of h.seat.table_id h.root.value h.number h.seat.me.0 };

    ghost invariant = { λ h. IsResting h.seat.table_id h.root.value h.number h.seat.me };
}
