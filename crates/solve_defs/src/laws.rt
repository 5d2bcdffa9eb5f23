//! Laws of solved instances. Each is a function that does nothing; its contract is the law.
ghost use Rattle.solve_defs.specs.Laws.{HistoryIsConvex, NoneIsBelow, PlainRunIsSolved, PlainRunIsOne};

use plane::Points;

/// Each beginning of the journal is a legal one, and leads to a convex partition.
pub fn history_is_convex(points: &Points)
    ensures { HistoryIsConvex points.now }
{
    let _count = points.len();
}

/// No convex partition costs less than the bound, and the solution is a convex partition: it costs no less either.
pub fn none_is_below(points: &Points)
    ensures { NoneIsBelow points.now }
{
    let _count = points.len();
}

/// A start, its sweep and the best certificate, whose numbers are within the limits, are a solved instance, for every
/// number of edit workers.
pub fn plain_run_is_solved(points: &Points)
    ensures { PlainRunIsSolved points.now }
{
    let _count = points.len();
}

/// The sweep of a start has one journal, and there is one best certificate.
pub fn plain_run_is_one(points: &Points)
    ensures { PlainRunIsOne points.now }
{
    let _count = points.len();
}
