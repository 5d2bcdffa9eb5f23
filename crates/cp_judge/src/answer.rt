// What the judge answers.
use plane::Pair;

/// The judgement on a list of segments. The violations are tried in the order in which they stand here. (This project's
/// own order.)
#[derive(Clone, Copy, Debug, PartialEq, Eq)]
pub enum Judgement {
    /// A convex partition, with no pair twice; it shows how many segments it has.
    Convex(u32),
    /// The first pair of the list that stood in it before.
    Doubled(Pair),
    /// The first pair that isn't clear, and the least point strictly between its ends.
    NotClear(Pair, u32),
    /// The pairs at the first two positions, by the first and then the second, whose pairs cross.
    Crossing(Pair, Pair),
    /// The least border pair that isn't in the list.
    MissingBorder(Pair),
    /// The least inner point with a need that isn't met, and the least point for which it isn't.
    Unmet(u32, u32),
}
