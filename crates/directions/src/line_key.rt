// A number that is one for all points on a line through a centre, so that most pairs of points are told apart by it.
ghost use Rattle.std.specs.Prelude.{◌≡◌, ◌≢◌, ◌+◌, ◌<◌, ◌≤◌, ◌-ℤ◌, length, unsigned_abs};
ghost use Rattle.plane.specs.Accepted.{IsNear};
ghost use Rattle.directions.specs.Key.{share, across, upward, line_key};

use plane::{Point, Points};

// How far two coordinates are apart.
pub fn size(from: i64, to: i64) -> u64
    requires near_from { unsigned_abs from ≤ 2305843009213693951 }
    requires near_to { unsigned_abs to ≤ 2305843009213693951 }
    ensures size { result ≡ unsigned_abs (to -ℤ from) }
    ensures below { result < 4611686018427387904 }
{
    (to - from).unsigned_abs()
}

// How far a direction is through its quarter, in parts of 2^31. Where 64 bits are enough, they are quicker.
#[tactic(auto, unfolding(crate::specs::Key::share))]
pub fn share_of(x: u64, y: u64) -> u32
    requires below_x { x < 4611686018427387904 }
    requires below_y { y < 4611686018427387904 }
    requires some { 0 < x + y }
    ensures { result ≡ share x y }
{
    if y < 8_589_934_592 {
        (y * 2_147_483_648 / (x + y)) as u32
    } else {
        (u128::from(y) * 2_147_483_648 / u128::from(x + y)) as u32
    }
}

// The key of the line through two points that differ.
fn key_between(from: Point, to: Point) -> u32
    requires near_from { IsNear from }
    requires near_to { IsNear to }
    requires apart { 0 < across from to + upward from to }
    ensures { result ≡ share (across from to) (upward from to) }
{
    share_of(size(from.x, to.x), size(from.y, to.y))
}

/// The key of the line through two points, seen from the first.
pub fn line_key_of(points: &Points, p: u32, q: u32) -> u32
    requires p_in { p < length points.now }
    requires q_in { q < length points.now }
    requires apart { q ≢ p }
    ensures { result ≡ line_key points.now p q }
{
    let _count = points.len();
    key_between(points.at(p), points.at(q))
}
