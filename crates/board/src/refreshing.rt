// New stamps for an old plan.
ghost use Rattle.std.specs.Prelude.{◌≡◌, ◌<◌, ◌≤◌, [], length, IfOk, IfErr, IsOk};
ghost use Rattle.edit.specs.Plans.{IsPlan};
ghost use Rattle.hands.specs.Answers.{claimed};
ghost use Rattle.board.specs.Answers.{AreWithin};
ghost use Rattle.seats.specs.Seats.{IsSeat, ground_of};
ghost use Rattle.seats.specs.Claimed.{IsMissed};
ghost use Rattle.board.specs.Looks.{IsSeenOnce, IsRefreshing, IsRefreshed, IsHeldBack};
ghost use Rattle.board.specs.Passes.{IsPass};

use crate::board::{Board, Pass};
use arrayvec::ArrayVec;
use edit::Plan;
use journal_defs::Claim;
use seats::{Seat, Shelf};

/// A plan's vertex that another caller holds.
#[derive(Clone, Copy, Debug, PartialEq, Eq)]
pub struct HeldPlace {
    pub place: u32,
    pub holder: u32,
}

// One try at a vertex, for its stamp.
fn fresh_stamp(shelf: &Shelf, seat: &mut Seat, vertex: u32) -> Result<u64, u32>
    requires of { seat.old.of ≡ shelf.now }
    requires vertex { vertex < length shelf.now.root.points }
    requires held { seat.old.held ≡ [] }
    ensures same { (seat.new.of ≡ seat.old.of) × (seat.new.caller ≡ seat.old.caller) }
    ensures seen { IfOk result (IsSeenOnce (ground_of shelf.now) seat.old seat.new vertex) }
    ensures missed { IfErr result (IsMissed seat.old seat.new vertex) }
    ensures alone { shelf.now.callers ≡ 1 → IsOk result }
    ensures valid { IsSeat seat.new }
{
    let look = shelf.claim(seat, vertex)?;
    let stamp = look.stamp;
    shelf.give(seat, look);
    Ok(stamp)
}

// One try at each vertex in turn. At an error the place and its holder are shown.
fn fresh_claims(
    shelf: &Shelf,
    seat: &mut Seat,
    claims: &[Claim],
) -> Result<ArrayVec<Claim, 16>, (u32, u32)>
    requires of { seat.old.of ≡ shelf.now }
    requires seat { IsSeat seat.old }
    requires held { seat.old.held ≡ [] }
    requires few { length claims.now ≤ 16 }
    requires within { AreWithin (ground_of shelf.now) claims.now }
    ensures same { (seat.new.of ≡ seat.old.of) × (seat.new.caller ≡ seat.old.caller) }
    ensures fresh { IfOk result
        (λ fresh. IsRefreshing (ground_of shelf.now) claims.now (length claims.now) seat.old seat.new fresh.items) }
    ensures missed { IfErr result (λ m. IsHeldBack (ground_of shelf.now) claims.now seat.old seat.new m.0 m.1) }
    ensures alone { shelf.now.callers ≡ 1 → IsOk result }
    ensures valid { IsSeat seat.new }
{
    let mut fresh = ArrayVec::new();
    for k in 0..claims.len() {
        let vertex = claims[k].vertex;
        match fresh_stamp(shelf, seat, vertex) {
            Ok(stamp) => fresh.push(Claim { vertex, stamp }),
            Err(holder) => return Err((vertex, holder)),
        }
    }
    Ok(fresh)
}

// The same plan with other stamps.
fn with_claims(plan: Plan, claims: &[Claim]) -> Plan
    requires vertices { claimed claims.now ≡ claimed plan.claims }
    ensures { (result.edits ≡ plan.edits) × (result.claims ≡ claims.now) }
{
    let made = Plan::make(plan.edits(), claims);
    let Ok(fresh) = made else { unreachable!() };
    fresh
}

impl Board {
    /// The same plan with new stamps, each of some moment of this call. The vertices are claimed one after the other,
    /// one try each, and each is given back before the next; it takes no memory.
    pub fn refresh(&self, pass: &mut Pass, plan: Plan) -> Result<Plan, (Plan, HeldPlace)>
        requires of { pass.old.of ≡ self.now }
        requires within { AreWithin (ground_of self.now) plan.claims }
        ensures same { (pass.new.of ≡ pass.old.of) × (pass.new.caller ≡ pass.old.caller) }
        ensures fresh { IfOk result (IsRefreshed (ground_of self.now) pass.old pass.new plan) }
        ensures missed { IfErr result
            (λ e. IsHeldBack (ground_of self.now) plan.claims pass.old pass.new e.1.place e.1.holder) }
        ensures plan { IfErr result (λ e. e.0 ≡ plan) }
        ensures alone { self.now.callers ≡ 1 → IsOk result }
        ensures valid { IsPass pass.new }
    {
        match fresh_claims(&self.shelf, &mut pass.seat, plan.claims()) {
            Ok(fresh) => Ok(with_claims(plan, fresh.as_slice())),
            Err((place, holder)) => Err((plan, HeldPlace { place, holder })),
        }
    }
}
