// The laws of the floor and of raising, each a function that does nothing; its contract is the law.
ghost use Rattle.raise_laws.specs.Laws.{RaisedIsGood, RaisedIsOne, FloorIsGood, RaisedFloorIsGood};

use plane::Points;

/// Raising gives a valid and tight certificate with no smaller weight and no smaller value.
pub fn raised_is_good(points: &Points)
    ensures { RaisedIsGood points.now }
{
    let _count = points.len();
}

/// Raising gives one certificate.
pub fn raised_is_one(points: &Points)
    ensures { RaisedIsOne points.now }
{
    let _count = points.len();
}

/// The floor certificate is valid, gives each inner point its rows, and has the floor as its value.
pub fn floor_is_good(points: &Points)
    ensures { FloorIsGood points.now }
{
    let _count = points.len();
}

/// The raised floor certificate is valid and tight, and has at least a floor as its value.
pub fn raised_floor_is_good(points: &Points)
    ensures { RaisedFloorIsGood points.now }
{
    let _count = points.len();
}
