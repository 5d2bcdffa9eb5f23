ghost use Rattle.std.specs.Prelude.{◌≡◌, IfOk, IfErr};
ghost use Rattle.seats.specs.Seats.{ground_of};
ghost use Rattle.board.specs.Answers.{AreWithin, IsEntered, IsRefused, IsNotBusy};
ghost use Rattle.board.specs.Passes.{IsPass};

use crate::board::{Board, Pass};
use crate::closing::close;
use crate::opening::open;
use edit::Plan;
use hands::Refusal;
use mcp_outside::Gate;

impl Board {
    /// Makes a plan the caller's next commit, or refuses it and hands it back. The vertices are claimed in order, one
    /// try each; then the stamps are compared, the edits tested and made in the stars in hand; the gate is called;
    /// then the journal is tried up to 64 times, and the commit entered where there is room. A plan without a flip
    /// takes no memory.
    pub fn commit<G: Gate>(
        &self,
        pass: &mut Pass,
        plan: Plan,
        gate: &G,
    ) -> Result<u64, (Plan, Refusal)>
        requires of { pass.old.of ≡ self.now }
        requires within { AreWithin (ground_of self.now) plan.claims }
        ensures same { (pass.new.of ≡ pass.old.of) × (pass.new.caller ≡ pass.old.caller) }
        ensures entered { IfOk result (IsEntered (ground_of self.now) plan.edits plan.claims pass.old pass.new) }
        ensures refused { IfErr result
            (λ r. IsRefused (ground_of self.now) plan.edits plan.claims pass.old pass.new r.1) }
        ensures plan { IfErr result (λ r. r.0 ≡ plan) }
        ensures alone { IfErr result (λ r. self.now.callers ≡ 1 → IsNotBusy r.1) }
        ensures valid { IsPass pass.new }
    {
        let seat = &mut pass.seat;
        let hands = &mut pass.hands;
        if let Err(refusal) = open(&self.shelf, seat, plan.edits(), plan.claims(), hands) {
            return Err((plan, refusal));
        }
        gate.between(seat.caller());
        match close(&self.shelf, seat, plan.edits(), hands) {
            Ok(number) => Ok(number),
            Err(refusal) => Err((plan, refusal)),
        }
    }
}
