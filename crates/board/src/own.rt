use crate::board::Pass;
use chronicle::Share;
use edit::Look;
use journal_defs::Commit;
use seats::{Cell, Seat};
use vertex_claims::Holder;

/// A pass without its holder.
#[derive(Drop)]
pub struct Own {
    pub share: Share<Commit>,
    pub caller: u32,
    pub made: u32,
    pub hands: Vec<Look>,
}

impl Own {
    ghost use Rattle.std.specs.Prelude.{◌≡◌};
    ghost use Rattle.seats.specs.Resting.{seat_of};
    ghost use Rattle.board.specs.Owning.{IsTogether};

    /// The pass of a holder and the rest.
    pub fn with_holder(self, holder: Holder<Cell>) -> Pass
        requires { IsTogether holder self }
        ensures { result ≡ seat_of holder self.share }
    {
        Pass {
            seat: Seat::new(holder, self.share, self.caller, self.made),
            hands: self.hands,
        }
    }

    /// A pass taken apart.
    pub fn of(pass: Pass) -> (Holder<Cell>, Own)
        ensures pass { pass ≡ seat_of result.0 result.1.share }
        ensures together { IsTogether result.0 result.1 }
    {
        let (holder, share, caller, made) = pass.seat.into_parts();
        let own = Own {
            share,
            caller,
            made,
            hands: pass.hands,
        };
        (holder, own)
    }
}
