// What a point is, and how a list of points can be at fault.

/// The greatest size of a coordinate, 2^61 - 1. Products of two steps between points fit 128 bits. (This project's own
/// limit.)
pub const COORDINATE_LIMIT: u64 = 2_305_843_009_213_693_951;

/// The fewest points that are accepted. (This project's own limit.)
pub const FEWEST_POINTS: usize = 3;

/// The most points that are accepted. (This project's own limit.)
pub const MOST_POINTS: usize = 5_000;

/// A point by its coordinates.
#[derive(Clone, Copy, Debug, PartialEq, Eq, PartialOrd, Ord, Hash)]
pub struct Point {
    pub x: i64,
    pub y: i64,
}

/// The turn at the second of three points: `Left` where the third is strictly left of the line from the first to the
/// second, `Straight` where the three are in line. (Textbook.)
#[derive(Clone, Copy, Debug, PartialEq, Eq, Hash)]
pub enum Turn {
    Left,
    Straight,
    Right,
}

/// Why a list of points isn't accepted, in the order in which the faults are looked for. (This project's own limits.)
#[derive(Clone, Copy, Debug, PartialEq, Eq, Hash)]
pub enum BadPoints {
    /// Fewer than three points; it shows how many.
    TooFew(u32),
    /// More than 5,000 points; it shows how many.
    TooMany(u32),
    /// The least index of a point with a coordinate beyond the limit.
    TooFar(u32),
    /// The first two indices, by the smaller and then the larger, whose points are equal.
    SamePlace(u32, u32),
    /// All points lie on one line.
    OneLine,
}
