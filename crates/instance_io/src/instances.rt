// What an instance is, and why a text is none.
use crate::names::Name;
use cost_defs::Costs;
use plane::{BadPoints, Points};

/// An instance: its name, its accepted points, by index, and the costs of their pairs.
#[derive(Drop)]
pub struct Instance {
    pub name: Name,
    pub points: Points,
    pub costs: Costs,
}

/// Why a text isn't read as an instance, in the order in which the faults are looked for (this project's own).
#[derive(Clone, Copy, Debug, PartialEq, Eq)]
pub enum InstanceFault {
    /// The text has more than 64 levels, or no reading as JSON.
    NotJson,
    /// The reading isn't an object, or its `name` is missing or no string.
    NoName,
    /// The name has more than 1,000 bytes; it shows how many.
    LongName(u32),
    /// The `points` are missing or no array.
    NoPoints,
    /// The least place of an item that is no whole point, where it isn't an object with `x` and `y`.
    BadPoint(u32),
    /// The least place of an item that is no whole point, where its `x` or `y` gives no whole number.
    NotWhole(u32),
    /// The least place of an item that has an index `i` where the first item hasn't, or the reverse.
    MixedIndex(u32),
    /// The least place of an item whose index isn't a whole number below the count of the items, or stood before.
    BadIndex(u32),
    /// The fault of the points, by index.
    Bad(BadPoints),
    /// The `costs` are there and no array.
    BadCosts,
    /// There are more than 300,000 items of `costs`; it shows how many.
    TooManyCosts(u32),
    /// The least place of an item of `costs` that isn't three whole numbers, the first two different indices of points
    /// and the last from 0 to 1,000, or whose pair stood before, either way round.
    BadCost(u32),
    /// Memory was not found.
    NoMemory,
}
