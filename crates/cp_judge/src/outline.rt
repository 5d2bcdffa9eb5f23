// The border as two chains of pairs from the first to the last point in the order of the sweep, with all points left of the
// one and right of the other. The chains are proposed, and then tested; where a test fails, all is asked in the plain way.
ghost use Rattle.std.specs.Prelude.{◌≡◌, ◌≢◌, ◌+◌, ◌<◌, ◌≤◌, ◌↔◌, ℕ, length, slice_index, IsTrue, pos, ◌<ℤ◌, ◌≤ℤ◌};
ghost use Rattle.std.specs.List.{All};
ghost use Rattle.std.specs.List.Sorted.{IsPermutation};
ghost use Rattle.plane.specs.Geometry.{orientation};
ghost use Rattle.partition_defs.specs.Partition.{HasEnds, Joins, HasBorder};
ghost use Rattle.partition_defs.specs.Sweep.{IsSweptBefore};
ghost use Rattle.cp_judge.specs.Chains.{sided, IsOrder, IsRising, HasIndices, stop, IsInside, IsChain, HasPairs, AreOnBorder, MarksStops, HasSide};

use crate::MOST_ORDERED;
use arrayvec::ArrayVec;
use plane::{MOST_POINTS, Pair, Points, Turn};

// Whether all border pairs are seen to be in the list. It marks points of the border besides, mostly all.
pub fn has_border(points: &Points, list: &[Pair], marks: &mut [bool]) -> bool
    requires room { length points.now ≤ length marks.old }
    requires marks { AreOnBorder points.now marks.old }
    ensures marks { AreOnBorder points.now marks.new }
    ensures border { IsTrue result → HasBorder points.now list.now }
{
    if list.len() > MOST_ORDERED {
        return false;
    }
    let mut room = [Pair::of(0, 1); MOST_ORDERED];
    let sorted = &mut room[..list.len()];
    sorted.copy_from_slice(list);
    sorted.sort_unstable();
    has_outline(points, sorted, marks)
}

// The same of a list that is ascending.
fn has_outline(points: &Points, sorted: &[Pair], marks: &mut [bool]) -> bool
    requires room { length points.now ≤ length marks.old }
    requires marks { AreOnBorder points.now marks.old }
    ensures marks { AreOnBorder points.now marks.new }
    ensures border { IsTrue result → HasBorder points.now sorted.now }
{
    let mut room = [0; MOST_POINTS];
    let order = &mut room[..points.len() as usize];
    set_order(points, order);
    if !is_rising(points, order) {
        return false;
    }
    let mut chain = ArrayVec::new();
    let left = follow(points, order, Turn::Left, sorted, &mut chain, marks);
    let right = follow(points, order, Turn::Right, sorted, &mut chain, marks);
    left && right
}

// The points in the order of the sweep.
fn set_order(points: &Points, order: &mut [u32])
    requires { length order.old ≡ length points.now }
    ensures { HasIndices points.now order.new }
{
    let _count = points.len();
    copy_indices(order);
    sweep(points, order);
}

fn copy_indices(order: &mut [u32])
    requires { length order.old ≤ MOST_POINTS }
    ensures { (k : ℕ) → k < length order.new → slice_index order.new k ≡ k }
{
    for k in 0..order.len() {
        order[k] = k as u32;
    }
}

fn sweep(points: &Points, order: &mut [u32])
    ensures { IsPermutation order.old order.new }
{
    order.sort_unstable_by_key(|k| coordinates(points, *k));
}

fn coordinates(points: &Points, k: u32) -> (i64, i64) {
    if k < points.len() {
        let p = points.at(k);
        (p.x, p.y)
    } else {
        (0, 0)
    }
}

// Whether each point of the order comes before the next.
fn is_rising(points: &Points, order: &[u32]) -> bool
    requires { HasIndices points.now order.now }
    ensures { IsTrue result → IsRising points.now order.now (length order.now) }
{
    for k in 1..order.len() {
        if !is_swept_before(points, order[k - 1], order[k]) {
            return false;
        }
    }
    true
}

fn is_swept_before(points: &Points, i: u32, j: u32) -> bool
    requires i_in { i < length points.now }
    requires j_in { j < length points.now }
    ensures { IsTrue result ↔ IsSweptBefore points.now i j }
{
    let (p, q) = (points.at(i), points.at(j));
    p.x < q.x || (p.x == q.x && p.y < q.y)
}

// Whether the chain with all points on this side is found, and its pairs are in the list. It marks its points.
fn follow(
    points: &Points,
    order: &[u32],
    side: Turn,
    sorted: &[Pair],
    chain: &mut ArrayVec<u32, MOST_POINTS>,
    marks: &mut [bool],
) -> bool
    requires bent { side ≢ Turn.Straight }
    requires order { IsOrder points.now order.now }
    requires room { length points.now ≤ length marks.old }
    requires marks { AreOnBorder points.now marks.old }
    ensures marks { AreOnBorder points.now marks.new }
    ensures side { IsTrue result → HasSide points.now sorted.now side }
{
    let _count = points.len();
    propose(points, order, side, chain);
    let chain = chain.as_slice();
    if !is_chain(points, order, side, chain) {
        return false;
    }
    mark_stops(order, chain, marks);
    has_pairs(order, chain, sorted)
}

// A chain that is mostly the one with all points on this side.
fn propose(points: &Points, order: &[u32], side: Turn, chain: &mut ArrayVec<u32, MOST_POINTS>)
    requires few { length order.now ≤ MOST_POINTS }
    requires order { IsOrder points.now order.now }
    ensures { All (λ k. k < length order.now) chain.new.items }
{
    chain.clear();
    for k in 0..order.len() {
        fold_back(points, order, side, k as u32, chain);
        if chain.try_push(k as u32).is_err() {
            return;
        }
    }
}

// Takes points off the chain's end while the chain turns away from the one at position k.
fn fold_back(
    points: &Points,
    order: &[u32],
    side: Turn,
    k: u32,
    chain: &mut ArrayVec<u32, MOST_POINTS>,
)
    requires k_in { k < length order.now }
    requires order { IsOrder points.now order.now }
    requires chain { All (λ k. k < length order.now) chain.old.items }
    ensures { All (λ k. k < length order.now) chain.new.items }
{
    'folding: for _ in 0..chain.len() {
        let held = chain.len();
        if held < 2 || is_on(points, order, side, chain[held - 2], chain[held - 1], k) {
            return;
        }
        chain.pop();
    }
}

// Whether the point at the last position is on this side of the line through the other two, or on it.
fn is_on(points: &Points, order: &[u32], side: Turn, a: u32, b: u32, k: u32) -> bool
    requires order { IsOrder points.now order.now }
    requires a_in { a < length order.now }
    requires b_in { b < length order.now }
    requires k_in { k < length order.now }
    ensures { IsTrue result
        → pos 0 ≤ℤ sided side (orientation points.now
        (slice_index order.now a) (slice_index order.now b) (slice_index order.now k)) }
{
    let turn = points.orient(order[a as usize], order[b as usize], order[k as usize]);
    turn == side || turn == Turn::Straight
}

// Whether the chain is one with all points on this side.
fn is_chain(points: &Points, order: &[u32], side: Turn, chain: &[u32]) -> bool
    requires bent { side ≢ Turn.Straight }
    requires order { IsOrder points.now order.now }
    requires chain { All (λ k. k < length order.now) chain.now }
    ensures { IsTrue result → IsChain points.now order.now chain.now side }
{
    if chain.len() < 2 {
        return false;
    }
    if chain[0] != 0 {
        return false;
    }
    if chain[chain.len() - 1] as usize + 1 != order.len() {
        return false;
    }
    has_sides(points, order, side, chain) && has_bends(points, order, side, chain)
}

// Whether each pair of the chain has the points between its ends strictly on this side.
fn has_sides(points: &Points, order: &[u32], side: Turn, chain: &[u32]) -> bool
    requires bent { side ≢ Turn.Straight }
    requires order { IsOrder points.now order.now }
    requires chain { All (λ k. k < length order.now) chain.now }
    requires some { 1 ≤ length chain.now }
    ensures { IsTrue result → (i : ℕ) → i + 1 < length chain.now
        → (slice_index chain.now i < slice_index chain.now (i + 1)) × IsInside points.now order.now chain.now side i }
{
    for i in 0..chain.len() - 1 {
        if !has_side(points, order, side, chain[i], chain[i + 1]) {
            return false;
        }
    }
    true
}

fn has_side(points: &Points, order: &[u32], side: Turn, a: u32, b: u32) -> bool
    requires bent { side ≢ Turn.Straight }
    requires order { IsOrder points.now order.now }
    requires a_in { a < length order.now }
    requires b_in { b < length order.now }
    ensures rising { IsTrue result → a < b }
    ensures inside { IsTrue result → (k : ℕ) → a < k → k < b
        → pos 0 <ℤ sided side (orientation points.now
        (slice_index order.now a) (slice_index order.now b) (slice_index order.now k)) }
{
    if b <= a {
        return false;
    }
    for k in a + 1..b {
        if points.orient(order[a as usize], order[b as usize], order[k as usize]) != side {
            return false;
        }
    }
    true
}

// Whether the chain bends to this side or goes straight on at each point.
fn has_bends(points: &Points, order: &[u32], side: Turn, chain: &[u32]) -> bool
    requires order { IsOrder points.now order.now }
    requires chain { All (λ k. k < length order.now) chain.now }
    requires several { 2 ≤ length chain.now }
    ensures { IsTrue result → (i : ℕ) → i + 1 + 1 < length chain.now
        → pos 0 ≤ℤ sided side (orientation points.now (stop order.now chain.now i)
        (stop order.now chain.now (i + 1)) (stop order.now chain.now (i + 1 + 1))) }
{
    for i in 0..chain.len() - 2 {
        if !is_on(
            points,
            order,
            side,
            chain[i],
            chain[i + 1],
            chain[i + 1 + 1],
        ) {
            return false;
        }
    }
    true
}

// Marks the points of the chain.
fn mark_stops(order: &[u32], chain: &[u32], marks: &mut [bool])
    requires chain { All (λ k. k < length order.now) chain.now }
    requires order { All (λ v. v < length marks.old) order.now }
    ensures { MarksStops order.now chain.now marks.old marks.new }
{
    for k in chain {
        marks[order[*k as usize] as usize] = true;
    }
}

// Whether the pairs of the chain are in the list.
fn has_pairs(order: &[u32], chain: &[u32], sorted: &[Pair]) -> bool
    requires chain { All (λ k. k < length order.now) chain.now }
    requires some { 1 ≤ length chain.now }
    ensures { IsTrue result → HasPairs order.now chain.now sorted.now }
{
    for i in 0..chain.len() - 1 {
        if !has_pair(
            sorted,
            order[chain[i] as usize],
            order[chain[i + 1] as usize],
        ) {
            return false;
        }
    }
    true
}

// Whether a pair with these ends is seen to be in the list, which is ascending.
fn has_pair(sorted: &[Pair], v: u32, w: u32) -> bool
    ensures { IsTrue result → Joins sorted.now v w }
{
    if v == w {
        return false;
    }
    let e = Pair::of(v, w);
    match sorted.binary_search(&e) {
        Ok(k) => has_ends(sorted[k], v, w),
        Err(_) => false,
    }
}

fn has_ends(e: Pair, v: u32, w: u32) -> bool
    ensures { IsTrue result → HasEnds e v w }
{
    (e.lo() == v && e.hi() == w) || (e.lo() == w && e.hi() == v)
}
