//! Laws of runs with edit workers. Each is a function that does nothing; its contract is the law.
ghost use Rattle.std.specs.Prelude.{◌≡◌, ◌≤◌, List, length};
ghost use Rattle.plane.specs.declared.segment.Pair.{Pair};
ghost use Rattle.partition_defs.specs.Ascending.{IsAscending};
ghost use Rattle.partition_defs.specs.Triangulation.{IsTriangulation};
ghost use Rattle.journal_defs.specs.declared.commit.Commit.{Commit};
ghost use Rattle.journal_defs.specs.Journal.{IsLegalJournal, replay};
ghost use Rattle.run_defs.specs.Laws.{WorkedRunIsSolved, LoneRunIsOne};

use plane::Points;

/// No state has more pairs than the start, and none keeps more.
pub fn states_have_no_more(points: &Points)
    ensures { (start : List Pair) (J : List Commit) → IsAscending start → IsTriangulation points.now start
        → IsLegalJournal points.now start J → length (replay start J).kept ≤ length start }
{
    let _count = points.len();
}

/// A start, swept, worked on and swept again, and the best certificate, whose numbers are within the limits, are a
/// solved instance.
pub fn worked_run_is_solved(points: &Points)
    ensures { WorkedRunIsSolved points.now }
{
    let _count = points.len();
}

/// One edit worker alone makes one journal.
pub fn lone_run_is_one(points: &Points)
    ensures { LoneRunIsOne points.now }
{
    let _count = points.len();
}
