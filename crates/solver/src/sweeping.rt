// The start, swept: a journal of commits of caller 0.
ghost use Rattle.std.specs.Prelude.{◌≡◌, ◌≤◌, [], length, IfOk, OnOk};
ghost use Rattle.replay.specs.Replayed.{IsCore};
ghost use Rattle.solve_defs.specs.PlainRun.{IsSweepJournal};
ghost use Rattle.solver.specs.Working.{HasBeenSwept};

use mcp_outside::NoMemory;
use plane::Points;
use replay::Core;
use subdivision::Subdivision;

// The core of a subdivision whose segments are all kept.
fn core_of(points: Points, all: Subdivision) -> Result<Core, NoMemory>
    requires points { all.points ≡ points }
    requires kept { all.kept ≡ all.all }
    ensures points { IfOk result (λ core. core.points ≡ points) }
    ensures start { IfOk result (λ core. core.start ≡ all.all) }
    ensures journal { IfOk result (λ core. core.journal ≡ []) }
    ensures core { IfOk result IsCore }
{
    match Core::make(points, all) {
        Ok(core) => Ok(core),
        Err((_, _, fault)) => Err(fault),
    }
}

// Drops each kept segment that can go at its moment, in ascending order.
fn sweep(core: &mut Core) -> Result<(), NoMemory>
    requires journal { core.old.journal ≡ [] }
    requires few { length core.old.start ≤ 15000 }
    ensures points { OnOk result (core.new.points ≡ core.old.points) }
    ensures start { OnOk result (core.new.start ≡ core.old.start) }
    ensures journal { OnOk result (IsSweepJournal core.old.points core.old.start core.new.journal) }
{
    core.sweep()?;
    Ok(())
}

/// The core of a subdivision whose segments are all kept, with their sweep as its journal.
pub fn swept_core(points: Points, all: Subdivision) -> Result<Core, NoMemory>
    requires points { all.points ≡ points }
    requires kept { all.kept ≡ all.all }
    requires few { length all.all ≤ 15000 }
    ensures points { IfOk result (λ core. core.points ≡ points) }
    ensures start { IfOk result (λ core. core.start ≡ all.all) }
    ensures journal { IfOk result (λ core. IsSweepJournal points all.all core.journal) }
{
    let mut core = core_of(points, all)?;
    sweep(&mut core)?;
    Ok(core)
}

/// The core after one more sweep of what is kept.
pub fn swept_again(core: Core) -> Result<Core, NoMemory>
    requires start { length core.start ≤ 15000 }
    requires few { length core.journal ≤ 79000 }
    ensures { IfOk result (HasBeenSwept core) }
{
    let _count = core.points().len();
    let mut core = core;
    core.sweep()?;
    Ok(core)
}
