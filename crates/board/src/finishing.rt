ghost use Rattle.std.specs.Prelude.{◌≡◌, ◌<◌, length, vec_len, IfOk, IfErr, IsErr};
ghost use Rattle.std.specs.List.{AllByRecursion};
ghost use Rattle.replay.specs.Replayed.{IsCore};
ghost use Rattle.vertex_claims.specs.Faults.{HasCause};
ghost use Rattle.seats.specs.Seats.{SeatSeen};
ghost use Rattle.board.specs.Ended.{IsFinished};
ghost use Rattle.board.specs.Supplied.{IsRoom};

use crate::board::{Board, Pass};
use crate::ending::{core_of, tell_all};
use crate::laying::take_up;
use crate::own::Own;
use crate::owning::{put_together, take_apart};
use mcp_outside::NoMemory;
use replay::Core;
use seats::{Cell, Shelf};
use star::Star;
use std::alloc::Global;
use vertex_claims::{CloseFault, Holder};

/// Why a board wasn't finished: the faults of claims that aren't closed.
pub use vertex_claims::CloseFault as FinishFault;

// What it takes to finish.
#[derive(Drop)]
pub(crate) struct Room {
    holders: Vec<Holder<Cell>>,
    owns: Vec<Own>,
    passes: Vec<Pass>,
    stars: Vec<Star>,
}

fn room_for(alloc: Global, passes: usize, stars: usize) -> Result<Room, NoMemory>
    ensures { IfOk result (IsRoom passes stars) }
{
    Ok(Room {
        holders: Vec::with_capacity(alloc, passes)?,
        owns: Vec::with_capacity(alloc, passes)?,
        passes: Vec::with_capacity(alloc, passes)?,
        stars: Vec::with_capacity(alloc, stars)?,
    })
}

impl Board {
    /// The core again, where all passes come: its journal is the whole history. Else all is handed back as it was.
    pub fn finish(self, passes: Vec<Pass>) -> Result<Core, (Board, Vec<Pass>, FinishFault)>
        requires of { AllByRecursion (λ (p : SeatSeen). p.of ≡ self) passes.items }
        ensures core { IfOk result IsCore }
        ensures finished { IfOk result (IsFinished self passes.items) }
        ensures back { IfErr result (λ e. (e.0 ≡ self) × (e.1.items ≡ passes.items)) }
        ensures cause { IfErr result (λ e. HasCause self.callers (vec_len passes) e.2) }
        ensures missing { vec_len passes < self.callers → IsErr result }
    {
        let given = passes.len();
        let made = self.shelf.callers();
        if given < made as usize {
            let fault = CloseFault::Missing {
                made,
                given: given as u32,
            };
            return Err((self, passes, fault));
        }
        let alloc = *passes.allocator();
        let count = self.points().len() as usize;
        let Ok(room) = room_for(alloc, given, count) else {
            return Err((self, passes, CloseFault::NoMemory));
        };
        let (holders, owns) = take_apart(passes, room.holders, room.owns);
        let (root, claims, made) = self.shelf.into_parts();
        match claims.close(holders) {
            Err((claims, holders, fault)) => {
                let passes = put_together(holders, owns, room.passes);
                let shelf = Shelf::new(root, claims, made);
                Err((Board { shelf }, passes, fault))
            }
            Ok(cells) => {
                let (stars, journal, whole) = take_up(&root, cells, room.stars);
                tell_all(&root.chronicle, root.points.len(), whole, owns);
                Ok(core_of(root, stars, journal))
            }
        }
    }
}
