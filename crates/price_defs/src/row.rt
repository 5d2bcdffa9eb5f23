// Rows of a certificate, and certificates.
ghost use Rattle.std.specs.Prelude.{◌≡◌, ◌<◌, ◌++◌, ◌∷◌, [], length, set, OnOk, OnErr, IfErr};

use plane::Pair;
use std::marker::Model;

/// The most rows that a certificate may have. (This project's own limits, here and below.)
pub const MOST_ROWS: u32 = 200_000;

/// The greatest divisor `q` of a certificate.
pub const MOST_DIVISOR: u64 = 1_000_000;

/// The greatest weight of a row.
pub const MOST_WEIGHT: u64 = 1_000_000_000_000;

/// A row: which pairs it speaks of, and its weight. Each says of every convex partition how many of these pairs are
/// kept. (This project's own choice of rows of a linear program.)
#[derive(Clone, Copy, Debug, PartialEq, Eq)]
pub enum Row {
    /// The pairs at `p` whose other end is in the need of `p` for `q`: at least one is kept.
    Half { p: u32, q: u32, w: u64 },
    /// The pairs at `p`: at least three are kept.
    Three { p: u32, w: u64 },
    /// Two pairs that cross: at most one is kept.
    Cross { e: Pair, f: Pair, w: u64 },
    /// A pair: it is kept at most once.
    Cap { e: Pair, w: u64 },
}

/// A list of rows, as it was made. Contracts see the list.
#[derive(Drop)]
pub struct RowList {
    list: Vec<Row>,
}

impl Model for RowList {
    ghost use Rattle.std.specs.Prelude.{List};
    ghost use Rattle.price_defs.specs.declared.row.Row.{Row};

    ghost Value = { List Row };

    ghost view = { λ a. a.list.items };
}

impl RowList {
    /// The list as it is handed in.
    pub fn make(list: Vec<Row>) -> RowList
        ensures { result ≡ list.items }
    {
        RowList { list }
    }

    /// The list that it was made of.
    pub fn into_vec(self) -> Vec<Row>
        ensures { result.items ≡ self }
    {
        self.list
    }

    /// Puts another row at a position.
    pub fn set(&mut self, k: u32, row: Row)
        requires { k < length self.old }
        ensures { self.new ≡ set self.old k row }
    {
        self.list[k as usize] = row;
    }

    /// Adds a row at the end, or hands it back where there is no memory.
    pub fn push(&mut self, row: Row) -> Result<(), Row>
        ensures added { OnOk result (self.new ≡ self.old ++ row ∷ []) }
        ensures kept { OnErr result (self.new ≡ self.old) }
        ensures back { IfErr result (λ r. r ≡ row) }
    {
        match self.list.push(row) {
            Ok(()) => Ok(()),
            Err(_) => Err(row),
        }
    }

    /// The rows in their order.
    pub fn as_slice(&self) -> &[Row]
        ensures { result.now ≡ self.now }
    {
        self.list.as_slice()
    }
}

/// Rows whose weights are over one common divisor: a weight `w` counts `w / q`.
#[derive(Drop)]
pub struct Certificate {
    /// The divisor.
    pub q: u64,
    /// The rows, in the order in which they are raised.
    pub rows: RowList,
}
