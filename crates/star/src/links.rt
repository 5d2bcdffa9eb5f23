// What a star keeps of each kept neighbour: the kept ones before and after it, and whether the gap between these is
// more than straight. A neighbour's answer changes only where it stands next to a changed mark.
ghost use Rattle.std.specs.Prelude.{◌≡◌, ◌≢◌, ℕ, ◌+◌, ◌<◌, ◌≤◌, ◌^◌, ◌↔◌, ◌||◌, length, IsTrue, insert, vec_len};
ghost use Rattle.std.specs.Prelude.{vec_capacity, slice_set, true, false};
ghost use Rattle.star.specs.Stars.{entry};
ghost use Rattle.star.specs.Gaps.{IsKept, IsWide};
ghost use Rattle.star.specs.Links.{link, HasRightLinks, IsSetLink, IsTakenOut, IsPutIn, IsMended, IsFirstIn, IsAfterOrNone};

use crate::seek::position;
use plane::Points;

/// The kept neighbours before and after a kept one, and whether the gap between them is more than straight.
#[derive(Clone, Copy)]
pub struct Link {
    pub before: u32,
    pub after: u32,
    pub opens: bool,
}

impl Link {
    /// That of a neighbour that isn't kept: it says nothing.
    pub const BARE: Link = Link {
        before: 0,
        after: 0,
        opens: false,
    };
}

pub fn link_at(links: &[Link], k: u32) -> Link
    requires { k < length links.now }
    ensures { result ≡ link links.now k }
{
    links[k as usize]
}

pub fn name_at(list: &[(u32, bool)], k: u32) -> u32
    requires { k < length list.now }
    ensures { result ≡ (entry list.now k).0 }
{
    list[k as usize].0
}

// Whether the gap from p to q is more than straight.
fn is_wide(points: &Points, centre: u32, p: u32, q: u32) -> bool
    requires centre_in { centre < length points.now }
    requires p_in { p < length points.now }
    requires q_in { q < length points.now }
    requires apart { centre ≢ p }
    ensures { IsTrue result ↔ IsWide points.now centre p q }
{
    !points.in_need(centre, p, q)
}

// Sets the link at k.
fn set_link(points: &Points, centre: u32, links: &mut [Link], k: u32, before: u32, after: u32)
    requires place { k < length links.old }
    requires centre_in { centre < length points.now }
    requires first_in { before < length points.now }
    requires second_in { after < length points.now }
    requires apart { centre ≢ before }
    ensures set { IsSetLink points.now centre links.old links.new k before after }
{
    let opens = is_wide(points, centre, before, after);
    links[k as usize] = Link {
        before,
        after,
        opens,
    };
}

// Takes out what stood between a and b, which stand for p and q.
fn take_out(points: &Points, centre: u32, links: &mut [Link], a: u32, b: u32, p: u32, q: u32)
    requires first { a < length links.old }
    requires second { b < length links.old }
    requires centre_in { centre < length points.now }
    requires p_in { p < length points.now }
    requires q_in { q < length points.now }
    requires before_in { (link links.old a).before < length points.now }
    requires after_in { (link links.old b).after < length points.now }
    requires before_apart { centre ≢ (link links.old a).before }
    requires apart { centre ≢ p }
    ensures taken { IsTakenOut points.now centre links.old links.new a b p q }
{
    if a == b {
        set_link(points, centre, links, a, p, p);
    } else {
        let outer = link_at(links, a).before;
        set_link(points, centre, links, a, outer, q);
        let next = link_at(links, b).after;
        set_link(points, centre, links, b, p, next);
    }
}

// Puts k, which stands for r, in between a and b, which stand for p and q.
fn put_in(
    points: &Points,
    centre: u32,
    links: &mut [Link],
    k: u32,
    a: u32,
    b: u32,
    r: u32,
    p: u32,
    q: u32,
)
    requires own { k < length links.old }
    requires first { a < length links.old }
    requires second { b < length links.old }
    requires first_apart { a ≢ k }
    requires second_apart { b ≢ k }
    requires centre_in { centre < length points.now }
    requires r_in { r < length points.now }
    requires p_in { p < length points.now }
    requires q_in { q < length points.now }
    requires before_in { (link links.old a).before < length points.now }
    requires after_in { (link links.old b).after < length points.now }
    requires before_apart { centre ≢ (link links.old a).before }
    requires r_apart { centre ≢ r }
    requires p_apart { centre ≢ p }
    ensures put { IsPutIn points.now centre links.old links.new k a b r p q }
{
    let outer = link_at(links, a).before;
    let next = link_at(links, b).after;
    set_link(points, centre, links, k, p, q);
    if a == b {
        set_link(points, centre, links, a, r, r);
    } else {
        set_link(points, centre, links, a, outer, r);
        set_link(points, centre, links, b, r, next);
    }
}

// Whether some need is missed, once r is kept between p and q.
fn misses_with(points: &Points, centre: u32, misses: bool, r: u32, p: u32, q: u32) -> bool
    requires centre_in { centre < length points.now }
    requires r_in { r < length points.now }
    requires p_in { p < length points.now }
    requires q_in { q < length points.now }
    requires r_apart { centre ≢ r }
    requires p_apart { centre ≢ p }
    ensures { IsMended points.now centre misses r p q result }
{
    if is_wide(points, centre, p, q) {
        let first = is_wide(points, centre, p, r);
        let second = is_wide(points, centre, r, q);
        first || second
    } else {
        misses
    }
}

// The first kept position of a range.
fn first_kept(list: &[(u32, bool)], from: u32, to: u32) -> Option<u32>
    requires order { from ≤ to }
    requires within { to ≤ length list.now }
    ensures { IsFirstIn list.now from to result }
{
    for j in from..to {
        if list[j as usize].1 {
            return Some(j);
        }
    }
    None
}

/// The first kept position after `k`, going round, or none where no other is kept.
pub fn kept_after(list: &[(u32, bool)], k: u32) -> Option<u32>
    requires place { k < length list.now }
    requires few { length list.now < 2 ^ 32 }
    ensures { IsAfterOrNone list.now k result }
{
    match first_kept(list, k + 1, list.len() as u32) {
        Some(j) => Some(j),
        None => first_kept(list, 0, k),
    }
}

/// Whether without the kept position `k` some need is missed.
pub fn opens(links: &[Link], misses: bool, k: u32) -> bool
    requires { k < length links.now }
    ensures { result ≡ (misses || (link links.now k).opens) }
{
    misses || link_at(links, k).opens
}

/// Mends the links before the mark of the kept position `k` goes, and answers whether some need is missed then.
pub fn unlink(
    points: &Points,
    centre: u32,
    list: &[(u32, bool)],
    links: &mut [Link],
    misses: bool,
    k: u32,
) -> bool
    requires right { HasRightLinks points.now centre list.now links.old misses }
    requires kept { IsKept list.now k }
    ensures { HasRightLinks points.now centre (slice_set list.now k ((entry list.now k).0, false)) links.new result }
{
    let gone = link_at(links, k);
    let opened = opens(links, misses, k);
    if gone.before == name_at(list, k) {
        return opened;
    }
    let a = position(points, centre, list, gone.before);
    let b = position(points, centre, list, gone.after);
    take_out(points, centre, links, a, b, gone.before, gone.after);
    opened
}

/// Mends the links before the position `k` is marked as kept, and answers whether some need is missed then.
pub fn link_in(
    points: &Points,
    centre: u32,
    list: &[(u32, bool)],
    links: &mut [Link],
    misses: bool,
    k: u32,
) -> bool
    requires right { HasRightLinks points.now centre list.now links.old misses }
    requires place { k < length list.now }
    requires spare { (entry list.now k).1 ≡ false }
    ensures { HasRightLinks points.now centre (slice_set list.now k ((entry list.now k).0, true)) links.new result }
{
    let name = name_at(list, k);
    match kept_after(list, k) {
        None => {
            set_link(points, centre, links, k, name, name);
            true
        }
        Some(b) => {
            let p = link_at(links, b).before;
            let q = name_at(list, b);
            let a = position(points, centre, list, p);
            let missed = misses_with(points, centre, misses, name, p, q);
            put_in(points, centre, links, k, a, b, name, p, q);
            missed
        }
    }
}

/// Puts an unmarked neighbour into a list that has room.
pub fn put_neighbour(list: &mut Vec<(u32, bool)>, k: u32, q: u32)
    requires place { k ≤ vec_len list.old }
    requires room { vec_len list.old < vec_capacity list.old }
    ensures list { list.new.items ≡ insert list.old.items k (q, false) }
    ensures len { vec_len list.new ≡ vec_len list.old + 1 }
    ensures capacity { vec_capacity list.new ≡ vec_capacity list.old }
{
    let _done = list.insert(k as usize, (q, false));
}

/// Puts a link into a list that has room.
pub fn put_link(links: &mut Vec<Link>, k: u32)
    requires place { k ≤ vec_len links.old }
    requires room { vec_len links.old < vec_capacity links.old }
    ensures list { links.new.items ≡ insert links.old.items k (record { before = 0; after = 0; opens = false }) }
    ensures len { vec_len links.new ≡ vec_len links.old + 1 }
    ensures capacity { vec_capacity links.new ≡ vec_capacity links.old }
{
    let _done = links.insert(k as usize, Link::BARE);
}
