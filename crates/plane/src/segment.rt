// A segment by the indices of its ends, and lists of segments.
ghost use Rattle.std.specs.Prelude.{◌≡◌, ◌≢◌, ◌<◌, min, max};

use std::marker::Model;

/// A segment: two different indices of points, the smaller first. Pairs are ordered by their smaller index, then by
/// their larger.
#[derive(Clone, Copy, Debug, PartialEq, Eq, PartialOrd, Ord, Hash)]
pub struct Pair {
    lo: u32,
    hi: u32,
    pub ghost ordered: { lo < hi },
}

impl Pair {
    /// The pair of two different indices, given either way round.
    pub fn of(i: u32, j: u32) -> Pair
        requires { i ≢ j }
        ensures lo { result.lo ≡ min i j }
        ensures hi { result.hi ≡ max i j }
    {
        if i < j {
            Pair { lo: i, hi: j }
        } else {
            Pair { lo: j, hi: i }
        }
    }

    /// The smaller index.
    pub fn lo(&self) -> u32
        ensures { result ≡ self.now.lo }
    {
        self.lo
    }

    /// The larger index.
    pub fn hi(&self) -> u32
        ensures { result ≡ self.now.hi }
    {
        self.hi
    }
}

/// A list of segments, as it was made. Contracts see the list.
#[derive(Drop)]
pub struct PairList {
    list: Vec<Pair>,
}

impl Model for PairList {
    ghost use Rattle.std.specs.Prelude.{List};
    ghost use Rattle.plane.specs.declared.segment.Pair.{Pair};

    ghost Value = { List Pair };

    ghost view = { λ a. a.list.items };
}

impl PairList {
    /// The list as it is handed in.
    pub fn make(list: Vec<Pair>) -> PairList
        ensures { result ≡ list.items }
    {
        PairList { list }
    }

    /// The pairs in their order.
    pub fn as_slice(&self) -> &[Pair]
        ensures { result.now ≡ self.now }
    {
        self.list.as_slice()
    }
}
