// The branches above a node, and how the walk goes on after it.
ghost use Rattle.std.specs.Prelude.{◌≡◌, ◌↔◌, ◌≤◌, [], length, IsTrue, IfOk, MatchOption, false};
ghost use Rattle.tree_defs.specs.Trees.{root, IsEnd};
ghost use Rattle.tree_defs.specs.declared.node.Node.TheVariants.{Branch, Prices};
ghost use Rattle.branch_tree.specs.Values.{HasNoPrices};
ghost use Rattle.branch_tree.specs.Paths.{pending, sets_of, side, wanted};

use mcp_outside::NoMemory;
use plane::Pair;
use price_defs::Certificate;
use std::alloc::Global;
use tree_defs::Node;

/// A branch above the present node, and whether the second child is the present one.
#[derive(Clone, Copy)]
pub struct Step {
    pub pair: Pair,
    pub barred: bool,
}

fn is_on(step: Step, barred: bool) -> bool
    ensures { IsTrue result ↔ (step.barred ≡ barred) }
{
    step.barred == barred
}

/// The taken, or the barred, pairs at the end of the path, the last first.
pub fn side_of(alloc: Global, path: &[Step], barred: bool) -> Result<Vec<Pair>, NoMemory>
    ensures { IfOk result (λ v. v.items ≡ side barred (sets_of root path.now)) }
{
    let mut list = Vec::new(alloc);
    let mut k = path.len();
    while k > 0 {
        k -= 1;
        if is_on(path[k], barred) {
            list.push(path[k].pair)?;
        }
    }
    Ok(list)
}

/// Goes on to the next node that is wanted; false where the tree is complete.
pub fn turn(path: &mut Vec<Step>) -> bool
    ensures more { IsTrue result → wanted path.new.items ≡ pending root [] path.old.items }
    ensures done { result ≡ false → pending root [] path.old.items ≡ [] }
    ensures shorter { length path.new.items ≤ length path.old.items }
{
    while path.len() > 0 {
        let last = path.len() - 1;
        if !path[last].barred {
            path[last].barred = true;
            return true;
        }
        let _step = path.pop();
    }
    false
}

/// The pair of a branch.
pub fn branch_of(node: &Node) -> Option<Pair>
    ensures { MatchOption result (IsEnd node.now) (λ e. node.now ≡ Branch e) }
{
    match node {
        Node::Branch(e) => Some(*e),
        Node::Crossed(_, _) => None,
        Node::Barred(_) => None,
        Node::Need { p: _, q: _ } => None,
        Node::Prices(_) => None,
    }
}

/// The certificate of a leaf with prices.
pub fn prices_of(node: &Node) -> Option<&Certificate>
    ensures { MatchOption result (HasNoPrices node.now) (λ c. node.now ≡ Prices c.now) }
{
    match node {
        Node::Branch(_) => None,
        Node::Crossed(_, _) => None,
        Node::Barred(_) => None,
        Node::Need { p: _, q: _ } => None,
        Node::Prices(certificate) => Some(certificate),
    }
}
