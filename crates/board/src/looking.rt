// Looking at a star.
ghost use Rattle.std.specs.Prelude.{◌≡◌, ◌<◌, length, IfOk, IfErr};
ghost use Rattle.seats.specs.Seats.{ground_of};
ghost use Rattle.board.specs.Looks.{IsShown, IsUnseen, IsWantOfMemory};
ghost use Rattle.board.specs.Passes.{IsPass};

use crate::board::{Board, LookFault, Pass};
use edit::Look;
use mcp_outside::NoMemory;

impl Board {
    /// The star of a vertex as it is after all that the pass has then seen, among it its own commits, with its stamp.
    /// Claims are so short that they are seldom in each other's way; there is one try.
    pub fn look(&self, pass: &mut Pass, v: u32) -> Result<Look, LookFault>
        requires of { pass.old.of ≡ self.now }
        requires vertex { v < length self.now.root.points }
        ensures same { (pass.new.of ≡ pass.old.of) × (pass.new.caller ≡ pass.old.caller) }
        ensures shown { IfOk result (IsShown (ground_of self.now) pass.old pass.new v) }
        ensures unseen { IfErr result (IsUnseen (ground_of self.now) pass.old pass.new v) }
        ensures alone { self.now.callers ≡ 1 → IfErr result IsWantOfMemory }
        ensures valid { IsPass pass.new }
    {
        match self.shelf.claim(&mut pass.seat, v) {
            Err(holder) => Err(LookFault::Busy { place: v, holder }),
            Ok(look) => {
                let copied = look.star.copy(self.shelf.points());
                let stamp = look.stamp;
                self.shelf.give(&mut pass.seat, look);
                match copied {
                    Ok(star) => Ok(Look { star, stamp }),
                    Err(NoMemory) => Err(LookFault::NoMemory),
                }
            }
        }
    }
}
