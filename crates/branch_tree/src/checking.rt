// The walk through the list of nodes, and the answer.
ghost use Rattle.std.specs.Prelude.{◌≡◌, ◌↔◌, ◌<◌, ◌≤◌, ◌^◌, [], ◌∷◌, ℕ, List, length, IsTrue, IfOk, MatchOption, MatchResult};
ghost use Rattle.std.specs.List.{All};
ghost use Rattle.plane.specs.declared.segment.Pair.{Pair};
ghost use Rattle.partition_defs.specs.Partition.{AreWithin, IsConvexPartition};
ghost use Rattle.partition_defs.specs.Triangulation.{AreDistinct, IsBorderList};
ghost use Rattle.cost_defs.specs.Costs.{total};
ghost use Rattle.cert_check.specs.Answers.{HasBorderCost};
ghost use Rattle.tree_defs.specs.Conditions.{IsNodeOf};
ghost use Rattle.tree_defs.specs.Trees.{root, IsRightNode};
ghost use Rattle.tree_defs.specs.Walks.{IsTreeFault};
ghost use Rattle.branch_tree.specs.Answers.{IsTreeAnswer};
ghost use Rattle.branch_tree.specs.Paths.{sets_of};
ghost use Rattle.branch_tree.specs.Values.{IsJudged, IsWalked, lesser};

use crate::leaf::leaf_value_of;
use crate::path::{Step, branch_of, prices_of, side_of, turn};
use cert_check::border_cost::border_cost;
use cost_defs::Costs;
use mcp_outside::NoMemory;
use plane::{Pair, Points};
use std::alloc::Global;
use tree_defs::plain::is_right_node;
use tree_defs::{MOST_NODES, Node, TreeFault};

// The lesser of two values, where there are any.
fn lesser_of(least: Option<u64>, value: Option<u64>) -> Option<u64>
    ensures { result ≡ lesser least value }
{
    match (least, value) {
        (Some(a), Some(b)) => Some(a.min(b)),
        (None, _) => value,
        (_, None) => least,
    }
}

/// What is shown of a node: that it isn't right, or that it is, with its value where it is a leaf with prices.
#[derive(Clone, Copy)]
pub enum Judged {
    Wrong,
    Right(Option<u64>),
}

// Judges the node at the end of the path.
fn judge_node(
    alloc: Global,
    points: &Points,
    costs: &Costs,
    base: u64,
    path: &[Step],
    node: &Node,
) -> Result<Judged, NoMemory>
    requires base { base ≤ 5000000 }
    requires within { AreWithin points.now (sets_of root path.now).taken }
    requires distinct { AreDistinct (sets_of root path.now).taken }
    requires few { length path.now ≤ MOST_NODES }
    requires indexed { IsNodeOf points.now node.now }
    ensures { IfOk result (IsJudged points.now costs.now base (sets_of root path.now) node.now) }
{
    let taken = side_of(alloc, path, false)?;
    let barred = side_of(alloc, path, true)?;
    if !is_right_node(points, costs, taken.as_slice(), barred.as_slice(), node) {
        return Ok(Judged::Wrong);
    }
    let Some(certificate) = prices_of(node) else {
        return Ok(Judged::Right(None));
    };
    let value = leaf_value_of(alloc, points, costs, base, taken.as_slice(), certificate)?;
    Ok(Judged::Right(Some(value)))
}

// The least leaf value, none where no leaf has prices, or the first fault on the walk.
fn walk(
    alloc: Global,
    points: &Points,
    costs: &Costs,
    base: u64,
    tree: &[Node],
) -> Result<Result<Option<u64>, TreeFault>, NoMemory>
    requires base { base ≤ 5000000 }
    requires some { 0 < length tree.now }
    requires few { length tree.now ≤ MOST_NODES }
    requires indexed { All (IsNodeOf points.now) tree.now }
    ensures { IfOk result (IsWalked points.now costs.now base tree.now) }
{
    let mut path: Vec<Step> = Vec::new(alloc);
    let mut least = None;
    let mut is_open = true;
    for k in 0..tree.len() {
        if !is_open {
            return Ok(Err(TreeFault::Extra(k as u32)));
        }
        let judged = judge_node(alloc, points, costs, base, path.as_slice(), &tree[k])?;
        let Judged::Right(value) = judged else {
            return Ok(Err(TreeFault::BadNode(k as u32)));
        };
        least = lesser_of(least, value);
        match branch_of(&tree[k]) {
            Some(pair) => path.push(Step {
                pair,
                barred: false,
            })?,
            None => is_open = turn(&mut path),
        }
    }
    if is_open {
        return Ok(Err(TreeFault::Open(tree.len() as u32)));
    }
    Ok(Ok(least))
}

/// The least leaf value of a branch tree, which no convex partition undercuts, or the first fault of the list of its nodes.
/// A list is right where it is a tree in preorder whose branches name undecided clear pairs and whose leaves show a
/// contradiction of the taken and barred pairs, or prices. `known` is any convex partition: the leaf that it leads to has
/// prices. (This project's own, after branch and bound.)
pub fn check_tree(
    alloc: Global,
    points: &Points,
    costs: &Costs,
    known: &[Pair],
    tree: &[Node],
) -> Result<u64, TreeFault>
    requires known { IsConvexPartition points.now known.now }
    requires distinct { AreDistinct known.now }
    requires indexed { All (IsNodeOf points.now) tree.now }
    requires count { length tree.now < 2 ^ 32 }
    ensures answer { IsTreeAnswer points.now costs.now tree.now result }
    ensures border { IfOk result (λ v. (B : List Pair) × IsBorderList points.now B) }
    ensures bound { (v : ℕ) (K : List Pair) → result ≡ Ok v → IsConvexPartition points.now K → AreDistinct K → v ≤ total costs.now K }
{
    let _count = points.len();
    if tree.is_empty() {
        return Err(TreeFault::Empty);
    }
    if tree.len() > MOST_NODES as usize {
        return Err(TreeFault::TooManyNodes(tree.len() as u32));
    }
    let base = border_cost(points, costs);
    match walk(alloc, points, costs, base, tree) {
        Err(_) => Err(TreeFault::NoMemory),
        Ok(Err(fault)) => Err(fault),
        Ok(Ok(Some(least))) => Ok(least),
        Ok(Ok(None)) => unreachable!(),
    }
}
