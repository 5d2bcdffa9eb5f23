// Making a board of a core.
ghost use Rattle.std.specs.Prelude.{◌≡◌, ◌+◌, ◌<◌, ◌≤◌, [], length, map, vec_len, vec_capacity, IfOk, IfErr};
ghost use Rattle.index_sets.specs.Indices.{numbers_from};
ghost use Rattle.journal_defs.specs.Journal.{made};
ghost use Rattle.replay.specs.Replayed.{IsAsBefore};
ghost use Rattle.chronicle.specs.History.{whole_share, caller_share};
ghost use Rattle.seats.specs.Ground.{caller_of};
ghost use Rattle.board.specs.Made.{IsBoardOf, first_pass};
ghost use Rattle.board.specs.Stamping.{AreStampsOf};
ghost use Rattle.board.specs.Supplied.{AreOwn, IsSupplied};

use crate::board::{Board, Pass};
use crate::ending::core_of;
use crate::laying::{lay_stars, take_up};
use crate::own::Own;
use crate::owning::put_together;
use crate::stamping::stamps_of;
use chronicle::{Chronicle, Share};
use edit::Look;
use journal_defs::Commit;
use mcp_outside::NoMemory;
use replay::Core;
use seats::{Cell, Root, Shelf};
use star::Star;
use std::alloc::Global;
use vertex_claims::Claims;

/// Why no board was made.
#[derive(Clone, Copy, Debug, PartialEq, Eq)]
pub enum MakeFault {
    /// No memory was found.
    NoMemory,
}

/// What a board takes beside the core.
#[derive(Drop)]
pub(crate) struct Supplies {
    stamps: Vec<u64>,
    chronicle: Chronicle<Commit>,
    whole: Share<Commit>,
    owns: Vec<Own>,
    cells: Vec<Cell>,
    stars: Vec<Star>,
    passes: Vec<Pass>,
}

// The room in hand for the stars of one plan.
const MOST_HANDS: usize = 16;

fn made_by(journal: &[Commit], caller: u32) -> u32
    requires { length journal.now ≤ 4294967295 }
    ensures { result ≡ made caller journal.now }
{
    journal.iter().filter(|c| c.caller == caller).count() as u32
}

// What each pass has beside its holder.
fn own_all(
    alloc: Global,
    shares: Vec<Share<Commit>>,
    journal: &[Commit],
    owns: Vec<Own>,
) -> Result<Vec<Own>, NoMemory>
    requires empty { owns.items ≡ [] }
    requires room { length shares.items ≤ vec_capacity owns }
    requires few { (length shares.items ≤ 4294967295) × (length journal.now ≤ 4294967295) }
    ensures own { IfOk result (λ r. AreOwn journal.now 1 shares.items r.items) }
{
    let mut owns = owns;
    let mut shares = shares.into_iter();
    let mut caller = 0u32;
    while let Some(share) = shares.next() {
        caller += 1;
        let made = made_by(journal, caller);
        let hands = Vec::with_capacity(alloc, MOST_HANDS)?;
        let pushed = owns.push(Own {
            share,
            caller,
            made,
            hands,
        });
        let Ok(()) = pushed else { unreachable!() };
    }
    Ok(owns)
}

// All that a board takes beside the core, with room in the journal.
fn supply(
    alloc: Global,
    journal: &mut Vec<Commit>,
    count: u32,
    callers: u32,
    room: u64,
) -> Result<Supplies, NoMemory>
    requires count { count < 4294967295 }
    requires callers { 1 ≤ callers }
    requires room { (length journal.old.items ≤ room) × (room ≤ 4294967295) }
    ensures same { journal.new.items ≡ journal.old.items }
    ensures capacity { vec_capacity journal.old ≤ vec_capacity journal.new }
    ensures room { IfOk result (λ _. room ≤ vec_capacity journal.new) }
    ensures supplied { IfOk result (IsSupplied journal.old.items count callers) }
{
    let more = room as usize - journal.len();
    journal.reserve(more)?;
    let stamps = stamps_of(alloc, journal, count)?;
    let (chronicle, whole, shares) = Chronicle::make(alloc, count + 1, callers, journal)?;
    let owns = Vec::with_capacity(alloc, callers as usize)?;
    Ok(Supplies {
        stamps,
        chronicle,
        whole,
        owns: own_all(alloc, shares, journal, owns)?,
        cells: Vec::with_capacity(alloc, count as usize + 1)?,
        stars: Vec::with_capacity(alloc, count as usize)?,
        passes: Vec::with_capacity(alloc, callers as usize)?,
    })
}

impl Board {
    /// A board of the core for so many callers, with a pass for each, in order, and with room for a journal of so many
    /// commits. Without memory the core is handed back.
    pub fn make(
        core: Core,
        callers: u32,
        room: u64,
    ) -> Result<(Board, Vec<Pass>), (Core, MakeFault)>
        requires callers { (1 ≤ callers) × (callers ≤ 16) }
        requires room { (length core.journal ≤ room) × (room ≤ 4294967295) }
        ensures board { IfOk result (λ r. IsBoardOf core callers room r.0) }
        ensures passes { IfOk result (λ r. r.1.items ≡ map (first_pass r.0 core.journal) (numbers_from 1 callers)) }
        ensures back { IfErr result (λ e. IsAsBefore core e.0) }
    {
        let (points, start, mut journal, all) = core.into_parts();
        let alloc = *start.allocator();
        let supplied = supply(alloc, &mut journal, points.len(), callers, room);
        let Ok(supplies) = supplied else {
            return Err((
                Core::from_parts(points, start, journal, all),
                MakeFault::NoMemory,
            ));
        };
        let root = Root {
            points,
            start,
            room,
            chronicle: supplies.chronicle,
        };
        let mut cells = supplies.cells;
        let mut share = supplies.whole;
        lay_stars(
            &root,
            &mut share,
            all.into_stars(),
            &supplies.stamps,
            &mut cells,
        );
        let pushed = cells.push(Cell::Journal {
            commits: journal,
            share,
        });
        let Ok(()) = pushed else { unreachable!() };
        match Claims::make(alloc, cells, callers, &root) {
            Err((cells, NoMemory)) => {
                let (stars, journal, _) = take_up(&root, cells, supplies.stars);
                Err((core_of(root, stars, journal), MakeFault::NoMemory))
            }
            Ok((claims, holders)) => {
                let passes = put_together(holders, supplies.owns, supplies.passes);
                let shelf = Shelf::new(root, claims, callers);
                Ok((Board { shelf }, passes))
            }
        }
    }
}
