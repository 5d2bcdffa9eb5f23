// Making the table: the first seat holds all places, gives each cell to its place, and then its numbers away.
ghost use Rattle.std.specs.Prelude.{◌≡◌, ℕ, ◌+◌, ◌-◌, ◌<◌, ◌≤◌, [], ◌∷◌, length, map, IfOk, IfErr, vec_len, vec_capacity};
ghost use Rattle.index_sets.specs.Indices.{numbers_from};
ghost use Rattle.vertex_claims.specs.Holding.{AreFitting, new_holder};
ghost use Rattle.vertex_claims.specs.Resting.{IsLaying, IsDealing, named};

use crate::holding::{Claims, Held, Holder};
use crate::table::{About, Cuts, Place, Top};
use crate::taking::lay_back;
use atomic_table::Table;
use mcp_outside::NoMemory;
use std::alloc::Global;
use std::snapshot::Snapshot;

// Gives each cell to its place.
fn lay_all<C: Held>(top: &Top<C>, seat: &mut Place<C>, mut cells: Vec<C>)
    requires table { (seat.old.table_id ≡ top.now.table_id) × (vec_len cells ≡ top.now.table_id.words) }
    requires view { IsLaying top.now.key (vec_len cells) seat.old.me }
    requires cells { AreFitting C.fits top.now.key.root.value cells.items }
    ensures table { seat.new.table_id ≡ seat.old.table_id }
    ensures view { IsLaying top.now.key 0 seat.new.me }
{
    while let Some(cell) = cells.pop() {
        let place = cells.len();
        lay_back(top, seat, place, cell);
    }
    cells.destroy_empty();
}

// Gives each number to a holder of its own.
fn deal_numbers<C: Held>(
    top: &Top<C>,
    mut seat: Place<C>,
    callers: u32,
    root: &C::Root,
    mut holders: Vec<Holder<C>>,
) -> Vec<Holder<C>>
    requires table { (seat.table_id ≡ top.now.table_id) × (0 < top.now.table_id.words) }
    requires key { (top.now.key.callers ≡ callers) × (top.now.key.root.value ≡ root.now) }
    requires callers { 1 ≤ callers }
    requires view { IsDealing top.now.key 1 seat.me }
    requires room { (holders.items ≡ []) × (callers ≤ vec_capacity holders) }
    ensures { result.items ≡ map (new_holder (named top.now.table_id top.now.key)) (numbers_from 1 callers) }
{
    for number in 1..callers {
        let own = top.split_seat::<Cuts>(&mut seat);
        let pushed = holders.push(Holder {
            seat: own,
            number,
            root: Snapshot::of(root),
        });
        let Ok(()) = pushed else { unreachable!() };
    }
    let pushed = holders.push(Holder {
        seat,
        number: callers,
        root: Snapshot::of(root),
    });
    let Ok(()) = pushed else { unreachable!() };
    holders
}

impl<C: Held> Claims<C> {
    /// A place for each cell, in order, and holders with the numbers 1 to `callers`, in order.
    pub fn make(
        alloc: Global,
        cells: Vec<C>,
        callers: u32,
        root: &C::Root,
    ) -> Result<(Claims<C>, Vec<Holder<C>>), (Vec<C>, NoMemory)>
        requires cells { AreFitting C.fits root.now cells.items }
        requires some { 1 ≤ vec_len cells }
        requires callers { 1 ≤ callers }
        ensures claims { IfOk result (λ r.
            (r.0.places ≡ vec_len cells) × (r.0.callers ≡ callers) × (r.0.root ≡ root.now)) }
        ensures holders { IfOk result (λ r. r.1.items ≡ map (new_holder r.0) (numbers_from 1 callers)) }
        ensures back { IfErr result (λ e. e.0.items ≡ cells.items) }
    {
        let count = cells.len();
        let Ok(holders) = Vec::with_capacity(alloc, callers as usize) else {
            return Err((cells, NoMemory));
        };
        let Ok(words) = vec![in alloc; 1u64; count] else {
            holders.destroy_empty();
            return Err((cells, NoMemory));
        };
        let about = About {
            callers,
            places: count as u64,
            root: Snapshot::of(root),
        };
        let Ok((table, mut seat)) = Table::vacant(alloc, words.as_slice(), count, &about) else {
            holders.destroy_empty();
            return Err((cells, NoMemory));
        };
        lay_all(&table.shared, &mut seat, cells);
        let holders = deal_numbers(&table.shared, seat, callers, root, holders);
        let claims = Claims {
            table,
            callers,
            alloc,
        };
        Ok((claims, holders))
    }
}
