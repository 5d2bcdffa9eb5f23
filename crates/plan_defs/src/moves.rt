use plane::Pair;

/// What a call of the planner is asked for. (This project's own.)
#[derive(Clone, Copy, Debug, PartialEq, Eq)]
pub enum Move {
    /// One Drop.
    DropOne(Pair),
    /// A Keep, then one or two Drops.
    Swap {
        keep: Pair,
        first: Pair,
        second: Option<Pair>,
    },
    /// Two Keeps, then two Drops.
    Trade {
        keep: Pair,
        other: Pair,
        first: Pair,
        second: Pair,
    },
    /// A Flip of the pair to the pair of its apexes.
    FlipOne(Pair),
    /// This Flip, a Keep of the new pair, then one or two Drops.
    FlipSwap {
        pair: Pair,
        first: Pair,
        second: Option<Pair>,
    },
}
