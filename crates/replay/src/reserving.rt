// Room in the stars for the flips of a commit.
ghost use Rattle.std.specs.Prelude.{◌≡◌, ◌<◌, ◌≤◌, ℕ, length, true, OnOk, OnErr};
ghost use Rattle.std.specs.List.{Any};
ghost use Rattle.replay.specs.Applied.{AreWithin, IsFlip, IsWithin};
ghost use Rattle.replay.specs.Edited.{IsSoundLayout};
ghost use Rattle.replay.specs.Room.{HasRoomAtEnds, HasRoomFor, HasRoomForAll, HaveMoreRoom, IsSameSubdivision, spare_at};

use core::mem::replace_with;
use journal_defs::Edit;
use mcp_outside::NoMemory;
use plane::{Pair, Points};
use star::Star;
use subdivision::Subdivision;

// Eight edits, forth and back, put at most so many neighbours into a star.
pub const ROOM: u32 = 16;

fn reserve_at(stars: &mut [Star], v: u32) -> Result<(), NoMemory>
    requires { v < length stars.old }
    ensures same { HaveMoreRoom ROOM stars.old stars.new }
    ensures room { OnOk result (ROOM ≤ spare_at stars.new v) }
{
    let star = &mut stars[v as usize];
    star.reserve(ROOM)
}

fn reserve_ends(stars: &mut [Star], e: Pair) -> Result<(), NoMemory>
    requires { e.hi < length stars.old }
    ensures same { HaveMoreRoom ROOM stars.old stars.new }
    ensures room { OnOk result (HasRoomAtEnds ROOM stars.new e) }
{
    reserve_at(stars, e.lo())?;
    reserve_at(stars, e.hi())
}

// Room for one edit, if it is a flip.
fn reserve_for(stars: &mut [Star], edit: &Edit) -> Result<(), NoMemory>
    requires { IsWithin (length stars.old) edit.now }
    ensures same { HaveMoreRoom ROOM stars.old stars.new }
    ensures room { OnOk result (HasRoomFor ROOM stars.new edit.now) }
    ensures flip { OnErr result (IsFlip edit.now) }
{
    match *edit {
        Edit::Drop(_) => Ok(()),
        Edit::Keep(_) => Ok(()),
        Edit::Flip { from, to } => {
            reserve_ends(stars, from)?;
            reserve_ends(stars, to)
        }
    }
}

fn reserve_all(stars: &mut [Star], edits: &[Edit]) -> Result<(), NoMemory>
    requires { AreWithin (length stars.old) edits.now }
    ensures same { HaveMoreRoom ROOM stars.old stars.new }
    ensures room { OnOk result (HasRoomForAll ROOM stars.new edits.now) }
    ensures flip { OnErr result (Any IsFlip edits.now) }
{
    for edit in edits {
        reserve_for(stars, edit)?;
    }
    Ok(())
}

fn reserved(
    all: Subdivision,
    points: &Points,
    edits: &[Edit],
) -> (Subdivision, Result<(), NoMemory>)
    requires sound { IsSoundLayout points.now all }
    requires within { AreWithin (length points.now) edits.now }
    ensures same { IsSameSubdivision all result.0 }
    ensures room { OnOk result.1 (HasRoomForAll ROOM result.0.stars edits.now) }
    ensures flip { OnErr result.1 (Any IsFlip edits.now) }
{
    let mut stars = all.into_stars();
    let found = reserve_all(&mut stars, edits);
    (Subdivision::from_stars(points, stars), found)
}

/// Makes room for the flips among some edits.
pub fn reserve(all: &mut Subdivision, points: &Points, edits: &[Edit]) -> Result<(), NoMemory>
    requires sound { IsSoundLayout points.now all.old }
    requires within { AreWithin (length points.now) edits.now }
    ensures same { IsSameSubdivision all.old all.new }
    ensures room { OnOk result (HasRoomForAll ROOM all.new.stars edits.now) }
    ensures flip { OnErr result (Any IsFlip edits.now) }
{
    replace_with(all, (), |all, _| reserved(all, points, edits))
}
