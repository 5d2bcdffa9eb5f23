// Taking all cells out at the end.
ghost use Rattle.std.specs.Prelude.{◌≡◌, ◌≢◌, ℕ, ◌+◌, ◌<◌, ◌≤◌, [], All, length, IfOk, IfErr, IsErr, Some, vec_len, vec_capacity};
ghost use Rattle.core.specs.Mem.Slots.{slots_items, slots_len, IsFull};
ghost use mathlib.Core.Option.{some};
ghost use lib.ListN.{get_elem?};
ghost use Rattle.vertex_claims.specs.Holding.{AreFitting, IsIdle};
ghost use Rattle.vertex_claims.specs.Closing.{IsIdleAt, HasAll};
ghost use Rattle.vertex_claims.specs.Faults.{HasCause};

use crate::holding::{Claims, Held, Holder};
use crate::table::{Glues, Place, Top};
use atomic_table::Closed;
use std::alloc::Global;

/// Why the claims weren't closed.
#[derive(Clone, Copy, Debug, PartialEq, Eq)]
pub enum CloseFault {
    /// Fewer holders were given than were made.
    Missing { made: u32, given: u32 },
    /// No memory was found for the list of cells.
    NoMemory,
}

// Joins the seats of the others into the first's.
fn join_all<C: Held>(top: &Top<C>, first: Holder<C>, mut others: Vec<Holder<C>>) -> Place<C>
    requires of { IsIdleAt top.now.table_id first × All (IsIdleAt top.now.table_id) others.items }
    requires word { 0 < top.now.table_id.words }
    ensures seat { (result.table_id ≡ top.now.table_id) × (result.me.1 ≡ []) }
    ensures all { HasAll result.me.0 (length others.items + 1) }
{
    let Holder {
        mut seat,
        number: _,
        root: _,
    } = first;
    while let Some(other) = others.pop() {
        let Holder {
            seat: next,
            number: _,
            root: _,
        } = other;
        top.join_seat::<Glues>(&mut seat, next);
    }
    others.destroy_empty();
    seat
}

// Takes all cells out of a closed table.
fn unpack<C: Held>(mut closed: Closed<Option<C>, Global>, mut cells: Vec<C>) -> Vec<C>
    requires none { cells.items ≡ [] }
    requires room { slots_len closed.slots ≤ vec_capacity cells }
    requires full { IsFull closed.slots }
    requires filled { (i : ℕ) → i < slots_len closed.slots
        → (c : C) × (get_elem? (slots_items closed.slots) i ≡ some (Some c)) }
    ensures count { vec_len result ≡ slots_len closed.slots }
    ensures each { (i : ℕ) (c : C) → get_elem? (slots_items closed.slots) i ≡ some (Some c)
        → get_elem? result.items i ≡ some c }
{
    let count = closed.slot_count();
    let mut i = 0;
    while i < count {
        let slot = closed.take(i);
        let Some(cell) = slot else { unreachable!() };
        let pushed = cells.push(cell);
        let Ok(()) = pushed else { unreachable!() };
        i += 1;
    }
    closed.free();
    cells
}

impl<C: Held> Claims<C> {
    /// Gives all cells back, by place, where all holders come.
    pub fn close(
        self,
        holders: Vec<Holder<C>>,
    ) -> Result<Vec<C>, (Claims<C>, Vec<Holder<C>>, CloseFault)>
        requires idle { All (IsIdle self) holders.items }
        ensures count { IfOk result (λ cells. vec_len cells ≡ self.places) }
        ensures cells { IfOk result (λ cells. AreFitting C.fits self.root cells.items) }
        ensures back { IfErr result (λ e. (e.0 ≡ self) × (e.1.items ≡ holders.items)) }
        ensures cause { IfErr result (λ e. HasCause self.callers (vec_len holders) e.2) }
        ensures missing { vec_len holders < self.callers → IsErr result }
    {
        let mut holders = holders;
        let given = holders.len();
        if given < self.callers as usize {
            let made = self.callers;
            let fault = CloseFault::Missing {
                made,
                given: given as u32,
            };
            return Err((self, holders, fault));
        }
        let Ok(cells) = Vec::with_capacity(self.alloc, self.table.slot_count()) else {
            return Err((self, holders, CloseFault::NoMemory));
        };
        let last = holders.pop();
        let Some(first) = last else { unreachable!() };
        let Claims {
            table,
            callers: _,
            alloc: _,
        } = self;
        let seat = join_all(&table.shared, first, holders);
        Ok(unpack(table.close_with(seat), cells))
    }
}
