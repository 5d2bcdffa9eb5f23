// Guide points: those that are furthest out in eight directions. Most inner points lie in a triangle of three of them.
ghost use Rattle.std.specs.Prelude.{◌≡◌, ◌<◌, ◌^◌, length};
ghost use Rattle.plane.specs.Accepted.{AreNear, IsNear};
ghost use Rattle.plane.specs.Guides.{reach_of, AreFurthest, AreIndices, IsFurthest};

use crate::coordinates::Point;

/// How many guide points there are.
pub const GUIDE_COUNT: usize = 8;

// The direction in which a guide point is furthest out.
#[derive(Clone, Copy)]
enum Direction {
    East,
    NorthEast,
    North,
    NorthWest,
    West,
    SouthWest,
    South,
    SouthEast,
}

// How far out a point is in a direction.
fn reach(p: Point, direction: Direction) -> i64
    requires { IsNear p }
    ensures { result ≡ reach_of direction p }
{
    match direction {
        Direction::East => p.x,
        Direction::NorthEast => p.x + p.y,
        Direction::North => p.y,
        Direction::NorthWest => p.y - p.x,
        Direction::West => -p.x,
        Direction::SouthWest => -(p.x + p.y),
        Direction::South => -p.y,
        Direction::SouthEast => p.x - p.y,
    }
}

// The index of a point that is furthest out in a direction.
fn furthest(list: &[Point], direction: Direction) -> u32
    requires some { 0 < length list.now }
    requires few { length list.now < 2 ^ 32 }
    requires near { AreNear list.now }
    ensures within { result < length list.now }
    ensures furthest { IsFurthest list.now direction result }
{
    let mut best = 0;
    for k in 0..list.len() as u32 {
        if reach(list[k as usize], direction) > reach(list[best as usize], direction) {
            best = k;
        }
    }
    best
}

/// The indices of the guide points, counterclockwise.
#[tactic(auto, unfolding(crate::specs::Guides::AreFurthest))]
pub fn guides_of(list: &[Point]) -> [u32; GUIDE_COUNT]
    requires some { 0 < length list.now }
    requires few { length list.now < 2 ^ 32 }
    requires near { AreNear list.now }
    ensures within { AreIndices list.now result }
    ensures furthest { AreFurthest list.now result }
{
    [
        furthest(list, Direction::East),
        furthest(list, Direction::NorthEast),
        furthest(list, Direction::North),
        furthest(list, Direction::NorthWest),
        furthest(list, Direction::West),
        furthest(list, Direction::SouthWest),
        furthest(list, Direction::South),
        furthest(list, Direction::SouthEast),
    ]
}
