// Taking cells and giving them back.
ghost use Rattle.std.specs.Prelude.{◌≡◌, ℕ, ◌<◌, List, [], ◌∷◌, ◌++◌, IfOk, OnOk, IfErr, IsOk, IsTrue, IsFalse, None};
ghost use Rattle.index_sets.specs.Indices.{contains, all_but};
ghost use Rattle.vertex_claims.specs.Holding.{IsAnother, IsHolder};
ghost use Rattle.vertex_claims.specs.Kept.{given};

use crate::holding::{Claims, Held, Holder};
use crate::table::{Backs, Lays, Lifts, Place, Top, Tries};

/// Another holder had the place, the one with this number.
#[derive(Clone, Copy, Debug, PartialEq, Eq)]
pub struct Taken {
    pub holder: u32,
}

// Puts the cell of a place that the seat holds into its slot, and then frees the place.
pub(crate) fn lay_back<C: Held>(top: &Top<C>, seat: &mut Place<C>, place: usize, cell: C)
    requires table { (seat.old.table_id ≡ top.now.table_id) × (place < top.now.table_id.words) }
    requires rests { (seat.old.me.1 ≡ []) × (seat.old.me.0.busy ≡ None) }
    requires holds { IsTrue (contains seat.old.me.0.places place) }
    requires fits { C.fits top.now.key.root.value place cell }
    ensures table { seat.new.table_id ≡ seat.old.table_id }
    ensures given { seat.new.me ≡ (given seat.old.me.0 place, []) }
{
    top.load::<Lifts>(seat, place);
    let old = top.exchange(seat, place, Some(cell));
    let None = old else { unreachable!() };
    top.store::<Backs>(seat, place, 0);
}

impl<C: Held> Claims<C> {
    /// One try to take the cell of a place. It never waits.
    pub fn take(&self, by: &mut Holder<C>, place: u32) -> Result<C, Taken>
        requires of { by.old.of ≡ self.now }
        requires place { place < self.now.places }
        requires free { IsFalse (contains by.old.places place) }
        ensures cell { IfOk result (λ c. C.fits self.now.root place c) }
        ensures won { OnOk result (by.new ≡ record by.old
            { places = by.old.places ++ place ∷ []; wins = by.old.wins ++ place ∷ [] }) }
        ensures lost { IfErr result (λ t. by.new ≡ record by.old { misses = by.old.misses ++ (place, t.holder) ∷ [] }) }
        ensures another { IfErr result (λ t. IsAnother by.old t.holder) }
        ensures alone { self.now.callers ≡ 1 → IsOk result }
        ensures valid { IsHolder by.new }
    {
        let shared = &self.table.shared;
        let at = place as usize;
        let found = shared.compare_exchange::<Tries>(&mut by.seat, at, 0, by.number as u64);
        if found != 0 {
            let _callers = self.callers;
            return Err(Taken {
                holder: found as u32,
            });
        }
        let cell = shared.exchange(&mut by.seat, at, None).unwrap();
        shared.load::<Lays>(&mut by.seat, at);
        Ok(cell)
    }

    /// Gives the place back, with its cell.
    pub fn give_back(&self, by: &mut Holder<C>, place: u32, cell: C)
        requires of { by.old.of ≡ self.now }
        requires holds { IsTrue (contains by.old.places place) }
        requires fits { C.fits self.now.root place cell }
        ensures given { by.new ≡ record by.old { places = all_but by.old.places place } }
        ensures latest { (others : List ℕ) → by.old.places ≡ others ++ place ∷ [] → by.new.places ≡ others }
        ensures valid { IsHolder by.new }
    {
        lay_back(&self.table.shared, &mut by.seat, place as usize, cell);
    }
}
