// Loads and values of a certificate as it is.
ghost use Rattle.std.specs.Prelude.{◌≡◌, ◌<◌, ◌≤◌, length};
ghost use Rattle.price_defs.specs.Limits.{AreLight};
ghost use Rattle.price_defs.specs.Loads.{load, value};
ghost use Rattle.price_defs.specs.Rows.{AreRight};

use plane::{Pair, Points};
use price_defs::{Certificate, MOST_ROWS, load_of, value_of};

/// The load of a pair: the weights of the Half and Three rows that count it, less those of the Cross and Cap rows that
/// name it. (Weak duality of linear programs.)
pub fn load(points: &Points, certificate: &Certificate, e: Pair) -> i64
    requires right { AreRight points.now certificate.now.rows }
    requires few { length certificate.now.rows ≤ MOST_ROWS }
    requires light { AreLight certificate.now.rows }
    requires end { e.hi < length points.now }
    ensures { result ≡ load points.now certificate.now.rows e.lo e.hi }
{
    load_of(points, certificate.rows.as_slice(), e.lo(), e.hi())
}

/// The value of a certificate, where `base` is the cost of the border pairs: the weights of the Half rows, three times
/// those of the Three rows, less those of the others, over `q`, rounded up and at least 0, and the base.
pub fn value(certificate: &Certificate, base: u64) -> u64
    requires divisor { 0 < certificate.now.q }
    requires few { length certificate.now.rows ≤ MOST_ROWS }
    requires light { AreLight certificate.now.rows }
    requires base { base ≤ 1000000000000000 }
    ensures { result ≡ value base certificate.now.q certificate.now.rows }
{
    value_of(certificate.q, certificate.rows.as_slice(), base)
}
