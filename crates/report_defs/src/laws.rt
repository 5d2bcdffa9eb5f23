//! Laws of reports. Each is a function that does nothing; its contract is the law.
ghost use Rattle.report_defs.specs.Laws.{RightIsTold, SolvedIsRight};

use plane::Points;

/// What the reader of a right report may rest on.
pub fn right_is_told(points: &Points)
    ensures { RightIsTold points.now }
{
    let _count = points.len();
}

/// The report of a solved instance is right.
pub fn solved_is_right(points: &Points)
    ensures { SolvedIsRight points.now }
{
    let _count = points.len();
}
