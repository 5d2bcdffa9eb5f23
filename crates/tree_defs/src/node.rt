// Nodes of a branch tree, and its faults.
ghost use Rattle.std.specs.Prelude.{◌≡◌};

use plane::Pair;
use price_defs::Certificate;
use std::marker::Model;

/// The most nodes that a tree may have. (This project's own limits, here and below.)
pub const MOST_NODES: u32 = 20_000;

/// The most rows of a leaf's certificate.
pub const MOST_LEAF_ROWS: u32 = 100;

/// The greatest weight of a row of a leaf.
pub const MOST_LEAF_WEIGHT: u64 = 1_000_000_000;

/// A node of a branch tree. A tree is the list of its nodes in preorder. (This project's own, after branch and bound.)
#[derive(Drop)]
pub enum Node {
    /// The pair is taken in the first branch below, and barred in the second.
    Branch(Pair),
    /// Two taken pairs cross.
    Crossed(Pair, Pair),
    /// A border pair is barred.
    Barred(Pair),
    /// No pair is left that could meet the need of `p` for `q`.
    Need { p: u32, q: u32 },
    /// Weights that bound the cost here.
    Prices(Certificate),
}

/// A list of nodes, as it was made. Contracts see the list.
#[derive(Drop)]
pub struct NodeList {
    list: Vec<Node>,
}

impl Model for NodeList {
    ghost use Rattle.std.specs.Prelude.{List};
    ghost use Rattle.tree_defs.specs.declared.node.Node.{Node};

    ghost Value = { List Node };

    ghost view = { λ a. a.list.items };
}

impl NodeList {
    /// The list as it is handed in.
    pub fn make(list: Vec<Node>) -> NodeList
        ensures { result ≡ list.items }
    {
        NodeList { list }
    }

    /// The nodes in their order.
    pub fn as_slice(&self) -> &[Node]
        ensures { result.now ≡ self.now }
    {
        self.list.as_slice()
    }
}

/// Why a list of nodes is no right tree, or wasn't checked. A list that is empty or too long has that fault; of the others
/// the first on the walk through the list is shown.
#[derive(Clone, Copy, Debug, PartialEq, Eq)]
pub enum TreeFault {
    /// There are no nodes.
    Empty,
    /// There are so many nodes, which are too many.
    TooManyNodes(u32),
    /// The node at this position isn't right where it stands.
    BadNode(u32),
    /// The tree was complete before this position.
    Extra(u32),
    /// The list of so many nodes ends before the tree is complete.
    Open(u32),
    /// There was no memory.
    NoMemory,
}
