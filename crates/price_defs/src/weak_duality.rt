// The laws of weak duality, each a function that does nothing; its contract is the law.
ghost use Rattle.price_defs.specs.Duality.{NoneIsCheaper};
ghost use Rattle.price_defs.specs.Laws.{AloneHasThree, RowIsHad, BorderIsFree, RowCountsSome};

use plane::Points;

/// An inner point that is strictly between no two points has three pairs in each convex partition.
pub fn alone_has_three(points: &Points)
    ensures { AloneHasThree points.now }
{
    let _count = points.len();
}

/// Of a right row the pairs of a convex partition have at least once, or three times, the weight, and lose at most once.
pub fn row_is_had(points: &Points)
    ensures { RowIsHad points.now }
{
    let _count = points.len();
}

/// No convex partition costs less than the value of a valid certificate. (Weak duality.)
pub fn none_is_cheaper(points: &Points)
    ensures { NoneIsCheaper points.now }
{
    let _count = points.len();
}

/// No right row counts a border pair, so that none has more than is allowed.
pub fn border_is_free(points: &Points)
    ensures { BorderIsFree points.now }
{
    let _count = points.len();
}

/// Each right Half or Three row counts a clear pair.
pub fn row_counts_some(points: &Points)
    ensures { RowCountsSome points.now }
{
    let _count = points.len();
}
