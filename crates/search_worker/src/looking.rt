// Looks and regions of them.
ghost use Rattle.std.specs.Prelude.{◌≡◌, ◌<◌, ◌⊎◌, ◌++◌, ◌∷◌, [], length, map, take, IfOk, OnOk};
ghost use Rattle.plan_defs.specs.Plans.{has_look};
ghost use Rattle.planner.specs.Region.{sights, AreFor};
ghost use Rattle.seats.specs.Seats.{ground_of};
ghost use Rattle.board.specs.Passes.{IsPass};
ghost use Rattle.search_worker.specs.Working.{IsFurther};
ghost use Rattle.search_worker.specs.Looking.{ShowsNow, HasLooked, HasPlaceFor, HasGained, IsGathered};

use arrayvec::ArrayVec;
use board::{Board, LookFault, Pass};
use edit::Look;
use mcp_outside::NoMemory;
use planner::Region;
use star::Star;

// So many neighbours are looked at, or all.
const MOST_AROUND: u32 = 15;

/// Looks at a vertex, in one try.
pub fn look_once(board: &Board, pass: &mut Pass, v: u32) -> Result<Option<Look>, NoMemory>
    requires of { pass.old.of ≡ board.now }
    requires vertex { v < length board.now.root.points }
    ensures looked { IfOk result (HasLooked (ground_of board.now) pass.old pass.new v) }
    ensures further { IsFurther pass.old pass.new }
    ensures valid { IsPass pass.new }
{
    match board.look(pass, v) {
        Ok(look) => Ok(Some(look)),
        Err(fault) => match fault {
            LookFault::Busy { .. } => Ok(None),
            LookFault::NoMemory => Err(NoMemory),
        },
    }
}

// Adds a look, where there is place for it.
fn add(region: &mut Region, look: Look)
    ensures added { HasPlaceFor look.star.centre region.old → region.new ≡ region.old ++ look ∷ [] }
    ensures either { (region.new ≡ region.old) ⊎ (region.new ≡ region.old ++ look ∷ []) }
{
    match region.add(look) {
        Ok(()) => {}
        Err(_) => {}
    }
}

// Looks at a vertex, and adds the look. Where another caller has the vertex it is left out.
fn look_around(board: &Board, pass: &mut Pass, region: &mut Region, v: u32) -> Result<(), NoMemory>
    requires of { pass.old.of ≡ board.now }
    requires vertex { v < length board.now.root.points }
    requires points { AreFor board.now.root.points region.old }
    ensures gained { OnOk result (HasGained (ground_of board.now) pass.old pass.new v region.old region.new) }
    ensures further { IsFurther pass.old pass.new }
    ensures valid { IsPass pass.new }
{
    let _points = board.points();
    match look_once(board, pass, v)? {
        Some(look) => {
            add(region, look);
            Ok(())
        }
        None => Ok(()),
    }
}

// The first 15 neighbours, or all.
fn names_around(star: &Star) -> ArrayVec<u32, 15>
    ensures { result.items ≡ take 15 (map (λ x. x.0) star.now.list) }
{
    let mut names = ArrayVec::new();
    for k in 0..star.degree().min(MOST_AROUND) {
        names.push(star.at(k).0);
    }
    names
}

/// The region of a look at a vertex, with looks at the first 15 of its neighbours, or all.
pub fn gather(board: &Board, pass: &mut Pass, look: Look) -> Result<Region, NoMemory>
    requires of { pass.old.of ≡ board.now }
    requires vertex { look.star.centre < length board.now.root.points }
    requires shown { ShowsNow (ground_of board.now) pass.old.seen look.star.centre look }
    ensures gathered { IfOk result (IsGathered (ground_of board.now) pass.old pass.new look) }
    ensures further { IsFurther pass.old pass.new }
    ensures valid { IsPass pass.new }
{
    let _caller = pass.caller();
    let _points = board.points();
    let names = names_around(&look.star);
    let mut region = Region::make();
    add(&mut region, look);
    for q in names.as_slice() {
        look_around(board, pass, &mut region, *q)?;
    }
    Ok(region)
}
