// Points, costs and rows that are drawn.
use cost_defs::are_costs;
use dual_prices::{Costs, Row};
use plane::{Pair, Point, Points};
use rand_core::utils::NextWord;
use rand_pcg::Pcg32;
use std::alloc::Global;
use std::process::Abort;
use std::test::Fail;

// Whether the point is in the list.
fn is_listed(list: &[Point], x: i64, y: i64) -> bool {
    list.iter().any(|point| point.x == x && point.y == y)
}

// So many points of a small square, at most, by the words; none where they don't make an instance.
pub fn drawn_points(
    rt: &impl Abort,
    alloc: Global,
    words: &mut Pcg32,
    side: u32,
    count: usize,
) -> Result<Option<Points>, Fail> {
    let mut list = Vec::new(alloc);
    for _ in 0..40 {
        let x = i64::from(words.next_word() % side.max(1));
        let y = i64::from(words.next_word() % side.max(1));
        if list.len() < count && !is_listed(list.as_slice(), x, y) {
            list.push(Point { x, y })?;
        }
    }
    assert!(rt; list.len() < 5001);
    Ok(Points::make(list).ok())
}

// Costs of about half of the pairs, 0 among them, by the words.
pub fn drawn_costs(
    rt: &impl Abort,
    alloc: Global,
    words: &mut Pcg32,
    count: u32,
) -> Result<Costs, Fail> {
    let mut list = Vec::new(alloc);
    for i in 0..count {
        for j in 0..count {
            let cost = words.next_word() % 9;
            if i < j && cost != 1 && cost < 6 {
                list.push((Pair::of(i, j), cost))?;
            }
        }
    }
    assert!(rt; are_costs(list.as_slice()));
    Ok(Costs::make(list))
}

// A number below a bound, by the words.
pub fn below(words: &mut Pcg32, bound: u32) -> u32 {
    words.next_word() % bound.max(1)
}

// A pair of two points, by the words.
pub fn drawn_pair(words: &mut Pcg32, count: u32) -> Pair {
    let i = below(words, count);
    let j = below(words, count);
    if i == j {
        return Pair::of(0, 1);
    }
    Pair::of(i, j)
}

// A row of any kind, right or not, by the words.
pub fn drawn_row(words: &mut Pcg32, count: u32) -> Row {
    let w = u64::from(below(words, 7));
    let kind = below(words, 5);
    if kind == 0 {
        let e = drawn_pair(words, count);
        let f = drawn_pair(words, count);
        return Row::Cross { e, f, w };
    }
    if kind == 1 {
        let e = drawn_pair(words, count);
        return Row::Cap { e, w };
    }
    let p = below(words, count);
    if kind == 2 {
        return Row::Three { p, w };
    }
    let q = below(words, count);
    Row::Half { p, q, w }
}
