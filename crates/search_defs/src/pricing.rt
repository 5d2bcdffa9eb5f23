// The laws of the price rule, each a function that does nothing; its contract is the law.
ghost use Rattle.search_defs.specs.Laws.{PricedIsGood, PricedIsOne};

use plane::Points;

/// The price rule gives a valid and tight certificate of no smaller value.
pub fn priced_is_good(points: &Points)
    ensures { PricedIsGood points.now }
{
    let _count = points.len();
}

/// The price rule gives one certificate.
pub fn priced_is_one(points: &Points)
    ensures { PricedIsOne points.now }
{
    let _count = points.len();
}
