// Words that put the points round a point nearly into order: the share of the half turn, and then the place by height. What
// words of one share leave undecided is settled by exact tests.
ghost use Rattle.std.specs.Prelude.{◌≡◌, ◌<◌, ◌≤◌, ◌%◌, ◌↔◌, IsTrue};
ghost use Rattle.plane.specs.Accepted.{IsNear};
ghost use Rattle.directions.specs.Rounds.{IsInHalf};

use crate::line_key::{share_of, size};
use plane::Point;

/// As many numbers as the low bits of a word hold.
pub const PLACES: u64 = 8_192;

// The parts of 2^31 of a quarter turn that a step makes, from the side along x. A step of no length makes none.
fn part(x: u64, y: u64) -> u64
    requires below_x { x < 4611686018427387904 }
    requires below_y { y < 4611686018427387904 }
    ensures { result < 4294967296 }
{
    if x + y == 0 {
        return 0;
    }
    u64::from(share_of(x, y))
}

// Whether q is above p or level on its right, or below or level on its left where that half is asked for.
pub fn is_in_half(p: Point, q: Point, above: bool) -> bool
    ensures { IsTrue result ↔ IsInHalf above p q }
{
    if above {
        p.y < q.y || (q.y == p.y && p.x < q.x)
    } else {
        q.y < p.y || (q.y == p.y && q.x < p.x)
    }
}

// How far the direction from p to q is through its half, and this number in the low bits.
pub fn word_of(p: Point, q: Point, above: bool, number: u64) -> u64
    requires near_p { IsNear p }
    requires near_q { IsNear q }
    requires number { number < 8192 }
    ensures { result % 8192 ≡ number }
{
    let (across, upward) = (size(p.x, q.x), size(p.y, q.y));
    let is_first = if above { p.x < q.x } else { q.x < p.x };
    let turned = if is_first {
        part(across, upward)
    } else {
        2_147_483_648 + part(upward, across)
    };
    turned * PLACES + number
}
