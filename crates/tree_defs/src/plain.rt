// The plain slow program: it decides whether a node is right by trying all points and pairs.
ghost use Rattle.std.specs.Prelude.{◌≡◌, ◌≢◌, ◌↔◌, ◌<◌, ◌≤◌, ◌*◌, length, IsTrue, ℕ, pos, ◌<ℤ◌};
ghost use Rattle.std.specs.List.{All, Contains};
ghost use Rattle.plane.specs.declared.segment.Pair.{Pair};
ghost use Rattle.partition_defs.specs.Partition.{AreWithin};
ghost use Rattle.plane.specs.Geometry.{IsClear};
ghost use Rattle.cost_defs.specs.Costs.{cost};
ghost use Rattle.price_defs.specs.Loads.{load};
ghost use Rattle.price_defs.specs.Rows.{AreRight, IsRight, weight};
ghost use Rattle.price_defs.specs.Limits.{AreLight, IsIndexed};
ghost use Rattle.tree_defs.specs.Leaves.{sets, CrossesSome, IsLost, IsStarved, ArePrices};
ghost use Rattle.tree_defs.specs.Trees.{IsRightNode};
ghost use Rattle.tree_defs.specs.Conditions.{IsNodeOf};
ghost use Rattle.tree_defs.specs.Plain.{IsSpent, IsFit, IsBound, IsOver};

use crate::node::{MOST_LEAF_ROWS, MOST_LEAF_WEIGHT, Node};
use cost_defs::Costs;
use partition_defs::joins;
use plane::{Pair, Points};
use price_defs::{
    Certificate, MOST_DIVISOR, MOST_ROWS, MOST_WEIGHT, Row, are_indexed, are_light, is_right,
    load_of, weight_of,
};

/// Whether the segment is in the list.
pub fn has(list: &[Pair], e: Pair) -> bool
    ensures { IsTrue result ↔ Contains list.now e }
{
    joins(list, e.lo(), e.hi())
}

/// Whether the segment crosses one of the list.
pub fn crosses_some(points: &Points, list: &[Pair], e: Pair) -> bool
    requires within { AreWithin points.now list.now }
    requires end { e.hi < length points.now }
    ensures { IsTrue result ↔ CrossesSome points.now list.now e.lo e.hi }
{
    for f in list {
        if points.cross(e, *f) {
            return true;
        }
    }
    false
}

// The same for the segment of these two ends.
fn crosses_between(points: &Points, list: &[Pair], p: u32, r: u32) -> bool
    requires within { AreWithin points.now list.now }
    requires p_in { p < length points.now }
    requires r_in { r < length points.now }
    requires apart { p ≢ r }
    ensures { IsTrue result ↔ CrossesSome points.now list.now p r }
{
    crosses_some(points, list, Pair::of(p, r))
}

// Whether the segment of these two ends is clear.
fn is_clear_between(points: &Points, p: u32, r: u32) -> bool
    requires p_in { p < length points.now }
    requires r_in { r < length points.now }
    requires apart { p ≢ r }
    ensures { IsTrue result ↔ IsClear points.now p r }
{
    points.is_clear(Pair::of(p, r))
}

// Whether the segment of these two ends is barred or crosses a taken one.
fn is_lost(points: &Points, taken: &[Pair], barred: &[Pair], p: u32, r: u32) -> bool
    requires within { AreWithin points.now taken.now }
    requires p_in { p < length points.now }
    requires r_in { r < length points.now }
    requires apart { p ≢ r }
    ensures { IsTrue result ↔ IsLost points.now (sets taken.now barred.now) p r }
{
    joins(barred, p, r) || crosses_between(points, taken, p, r)
}

// Whether the segment of `p` and `r` can't meet the need of `p` for `q`.
fn is_spent(points: &Points, taken: &[Pair], barred: &[Pair], p: u32, q: u32, r: u32) -> bool
    requires within { AreWithin points.now taken.now }
    requires p_in { p < length points.now }
    requires q_in { q < length points.now }
    requires r_in { r < length points.now }
    requires apart { p ≢ q }
    ensures { IsTrue result ↔ IsSpent points.now (sets taken.now barred.now) p q r }
{
    if r == p {
        return true;
    }
    if !points.in_need(p, q, r) {
        return true;
    }
    if !is_clear_between(points, p, r) {
        return true;
    }
    is_lost(points, taken, barred, p, r)
}

/// Whether no segment is left that could meet the need of `p` for `q`.
pub fn is_starved(points: &Points, taken: &[Pair], barred: &[Pair], p: u32, q: u32) -> bool
    requires within { AreWithin points.now taken.now }
    requires p_in { p < length points.now }
    requires q_in { q < length points.now }
    ensures { IsTrue result ↔ IsStarved points.now (sets taken.now barred.now) p q }
{
    if p == q || !points.is_inner(p) {
        return false;
    }
    for r in 0..points.len() {
        if !is_spent(points, taken, barred, p, q, r) {
            return false;
        }
    }
    true
}

// Whether the row is right and light enough for a leaf.
fn is_fit(points: &Points, row: Row) -> bool
    requires { IsIndexed points.now row }
    ensures { IsTrue result ↔ IsFit points.now row }
{
    weight_of(row) <= MOST_LEAF_WEIGHT && is_right(points, row)
}

// Whether all rows are.
fn are_fit(points: &Points, rows: &[Row]) -> bool
    requires { All (λ row. IsIndexed points.now row × (weight row ≤ MOST_WEIGHT)) rows.now }
    ensures { IsTrue result ↔ All (IsFit points.now) rows.now }
{
    for row in rows {
        if !is_fit(points, *row) {
            return false;
        }
    }
    true
}

// Whether the pair is clear, and neither a border pair nor taken nor barred.
fn is_bound(points: &Points, taken: &[Pair], barred: &[Pair], e: Pair) -> bool
    requires { e.hi < length points.now }
    ensures { IsTrue result ↔ IsBound points.now (sets taken.now barred.now) e }
{
    points.is_clear(e) && !points.is_border(e) && !has(taken, e) && !has(barred, e)
}

// Whether the load of the pair is more than is allowed.
fn has_too_much(points: &Points, costs: &Costs, q: u64, rows: &[Row], e: Pair) -> bool
    requires right { AreRight points.now rows.now }
    requires light { AreLight rows.now }
    requires few { length rows.now ≤ MOST_ROWS }
    requires small { q ≤ MOST_DIVISOR }
    requires end { e.hi < length points.now }
    ensures { IsTrue result ↔ (pos (q * cost costs.now e.lo e.hi) <ℤ load points.now rows.now e.lo e.hi) }
{
    let allowed = (q * u64::from(costs.of(e))) as i64;
    allowed < load_of(points, rows, e.lo(), e.hi())
}

// Whether the pair is such and has more than is allowed.
fn is_over(
    points: &Points,
    costs: &Costs,
    taken: &[Pair],
    barred: &[Pair],
    q: u64,
    rows: &[Row],
    e: Pair,
) -> bool
    requires right { AreRight points.now rows.now }
    requires light { AreLight rows.now }
    requires few { length rows.now ≤ MOST_ROWS }
    requires small { q ≤ MOST_DIVISOR }
    requires end { e.hi < length points.now }
    ensures { IsTrue result ↔ IsOver points.now costs.now (sets taken.now barred.now) q rows.now e }
{
    is_bound(points, taken, barred, e) && has_too_much(points, costs, q, rows, e)
}

// Whether some pair with this smaller end has.
fn has_over_from(
    points: &Points,
    costs: &Costs,
    taken: &[Pair],
    barred: &[Pair],
    q: u64,
    rows: &[Row],
    i: u32,
) -> bool
    requires right { AreRight points.now rows.now }
    requires light { AreLight rows.now }
    requires few { length rows.now ≤ MOST_ROWS }
    requires small { q ≤ MOST_DIVISOR }
    requires start { i < length points.now }
    ensures { IsTrue result
        ↔ ((e : Pair) × (e.lo ≡ i) × (e.hi < length points.now) × IsOver points.now costs.now (sets taken.now barred.now) q rows.now e) }
{
    let n = points.len();
    for j in i + 1..n {
        if is_over(points, costs, taken, barred, q, rows, Pair::of(i, j)) {
            return true;
        }
    }
    false
}

/// Whether the certificate is right where these are taken and barred.
pub fn are_prices(
    points: &Points,
    costs: &Costs,
    taken: &[Pair],
    barred: &[Pair],
    c: &Certificate,
) -> bool
    requires indexed { All (λ row. IsIndexed points.now row × (weight row ≤ MOST_WEIGHT)) c.now.rows }
    ensures { IsTrue result ↔ ArePrices points.now costs.now (sets taken.now barred.now) c.now.q c.now.rows }
{
    let rows = c.rows.as_slice();
    if c.q == 0
        || c.q > MOST_DIVISOR
        || rows.len() > MOST_LEAF_ROWS as usize
        || !are_fit(points, rows)
    {
        return false;
    }
    for i in 0..points.len() {
        if has_over_from(points, costs, taken, barred, c.q, rows, i) {
            return false;
        }
    }
    true
}

/// Whether the node is right where these are taken and barred.
pub fn is_right_node(
    points: &Points,
    costs: &Costs,
    taken: &[Pair],
    barred: &[Pair],
    node: &Node,
) -> bool
    requires within { AreWithin points.now taken.now }
    requires indexed { IsNodeOf points.now node.now }
    ensures { IsTrue result ↔ IsRightNode points.now costs.now (sets taken.now barred.now) node.now }
{
    match node {
        Node::Branch(e) => points.is_clear(*e) && !has(taken, *e) && !has(barred, *e),
        Node::Crossed(e, f) => has(taken, *e) && has(taken, *f) && points.cross(*e, *f),
        Node::Barred(e) => points.is_border(*e) && has(barred, *e),
        Node::Need { p, q } => is_starved(points, taken, barred, *p, *q),
        Node::Prices(c) => are_prices(points, costs, taken, barred, c),
    }
}

/// Whether the node speaks of points of the list alone, with a divisor and weights within the limits of a certificate.
pub fn is_node_of(points: &Points, node: &Node) -> bool
    ensures { IsTrue result ↔ IsNodeOf points.now node.now }
{
    let count = points.len();
    match node {
        Node::Branch(e) => e.hi() < count,
        Node::Crossed(e, f) => e.hi() < count && f.hi() < count,
        Node::Barred(e) => e.hi() < count,
        Node::Need { p, q } => *p < count && *q < count,
        Node::Prices(c) => are_rows_of(points, c.rows.as_slice()) && c.q <= MOST_DIVISOR,
    }
}

// Whether the rows do, each with such a weight.
fn are_rows_of(points: &Points, rows: &[Row]) -> bool
    ensures { IsTrue result ↔ All (λ row. IsIndexed points.now row × (weight row ≤ MOST_WEIGHT)) rows.now }
{
    are_indexed(points, rows) && are_light(rows)
}

/// Whether all nodes are such.
pub fn are_nodes_of(points: &Points, tree: &[Node]) -> bool
    ensures { IsTrue result ↔ All (IsNodeOf points.now) tree.now }
{
    for node in tree {
        if !is_node_of(points, node) {
            return false;
        }
    }
    true
}
