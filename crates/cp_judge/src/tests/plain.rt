// The judgement by its definition: every position, every pair of positions, every pair of points and every need is tried.
use crate::Judgement;
use partition_defs::{is_met, joins};
use plane::{Pair, Points};

// The first pair that stood in the list before.
fn first_repeat(list: &[Pair]) -> Option<Judgement> {
    for (k, e) in list.iter().enumerate() {
        if list.iter().take(k).any(|f| f == e) {
            return Some(Judgement::Doubled(*e));
        }
    }
    None
}

// The least point between the ends of a pair.
fn point_between(points: &Points, e: Pair) -> Option<u32> {
    (0..points.len()).find(|p| *p < points.len()
        && e.lo() < points.len()
        && e.hi() < points.len()
        && points.between(*p, e.lo(), e.hi()))
}

fn first_unclear(points: &Points, list: &[Pair]) -> Option<Judgement> {
    for e in list {
        if let Some(p) = point_between(points, *e) {
            return Some(Judgement::NotClear(*e, p));
        }
    }
    None
}

/// The first pairs by position that cross.
pub fn first_crossing(points: &Points, list: &[Pair]) -> Option<Judgement> {
    let count = points.len();
    for (k, e) in list.iter().enumerate() {
        let later = list.iter().skip(k);
        let found = later.copied().find(|f| e.hi() < count
            && f.hi() < count
            && points.cross(*e, *f));
        if let Some(f) = found {
            return Some(Judgement::Crossing(*e, f));
        }
    }
    None
}

// The first missing border pair with this lesser end.
fn missing_from(points: &Points, list: &[Pair], i: u32) -> Option<Judgement> {
    for j in i.saturating_add(1)..points.len() {
        if i < j && points.is_border(Pair::of(i, j)) && !joins(list, i, j) {
            return Some(Judgement::MissingBorder(Pair::of(i, j)));
        }
    }
    None
}

fn first_missing(points: &Points, list: &[Pair]) -> Option<Judgement> {
    (0..points.len()).find_map(|i| missing_from(points, list, i))
}

// The first need of an inner point that isn't met.
fn unmet_at(points: &Points, list: &[Pair], p: u32) -> Option<Judgement> {
    if p >= points.len() || !points.is_inner(p) {
        return None;
    }
    for q in 0..points.len() {
        if q != p && !is_met(points, list, p, q) {
            return Some(Judgement::Unmet(p, q));
        }
    }
    None
}

fn first_unmet(points: &Points, list: &[Pair]) -> Option<Judgement> {
    (0..points.len()).find_map(|p| unmet_at(points, list, p))
}

/// The judgement on a list whose ends are points.
pub fn plain_judgement(points: &Points, list: &[Pair]) -> Judgement {
    let violation = first_repeat(list)
        .or_else(|| first_unclear(points, list))
        .or_else(|| first_crossing(points, list))
        .or_else(|| first_missing(points, list))
        .or_else(|| first_unmet(points, list));
    violation.unwrap_or(Judgement::Convex(list.len().min(100_000) as u32))
}
