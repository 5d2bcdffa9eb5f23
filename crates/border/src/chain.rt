// One half of the border: a chain of places in the order of the points, without those at which it would turn right.
ghost use Rattle.std.specs.Prelude.{◌≡◌, ◌<◌, ◌-◌, ◌↔◌, length, IfOk, OnOk, IsTrue};
ghost use Rattle.border.specs.Cycle.{at};
ghost use Rattle.border.specs.Walk.{HasWalked};
ghost use Rattle.border.specs.Chain.{seen_at, ArePlaces, IsInOrder, TurnsRight, IsChain, IsOpen, HasPoints};

use mcp_outside::NoMemory;
use plane::{Points, Turn};
use std::alloc::Global;

// Whether the chain's last side turns right towards the point at place k.
fn turns_right(points: &Points, order: &[u32], chain: &[u32], k: u32) -> bool
    requires order { ArePlaces (length points.now) order.now }
    requires chain { ArePlaces (length order.now) chain.now }
    requires k_in { k < length order.now }
    ensures { IsTrue result ↔ TurnsRight points.now order.now chain.now k }
{
    let held = chain.len();
    if held < 2 {
        return false;
    }
    let a = order[chain[held - 2] as usize];
    let b = order[chain[held - 1] as usize];
    points.orient(a, b, order[k as usize]) == Turn::Right
}

// Takes places off the chain's end while it turns right towards the point at place k.
fn shorten(points: &Points, order: &[u32], forward: bool, k: u32, chain: &mut Vec<u32>)
    requires order { IsInOrder points.now forward order.now }
    requires k_in { k < length order.now }
    requires chain { IsChain (seen_at points.now forward order.now) k chain.old.items }
    ensures reach { IsOpen (seen_at points.now forward order.now) k chain.new.items }
    ensures bent { ¬ TurnsRight points.now order.now chain.new.items k }
{
    let _ = forward;
    while turns_right(points, order, chain.as_slice(), k) {
        chain.pop();
    }
}

// The chain of one half over all points.
fn half(alloc: Global, points: &Points, order: &[u32], forward: bool) -> Result<Vec<u32>, NoMemory>
    requires { IsInOrder points.now forward order.now }
    ensures { IfOk result (λ v. IsChain (seen_at points.now forward order.now) (length order.now) v.items) }
{
    let mut chain = Vec::new(alloc);
    chain.push(0)?;
    for k in 1..points.len() {
        shorten(points, order, forward, k, &mut chain);
        chain.push(k)?;
    }
    Ok(chain)
}

// Adds the points of a chain, without the last one.
fn add_points(order: &[u32], chain: &[u32], list: &mut Vec<u32>) -> Result<(), NoMemory>
    requires some { 0 < length chain.now }
    requires places { ArePlaces (length order.now) chain.now }
    ensures { OnOk result (HasPoints order.now chain.now (length chain.now - 1) list.old.items list.new.items) }
{
    for i in 0..chain.len() - 1 {
        list.push(order[chain[i] as usize])?;
    }
    Ok(())
}

// Adds the border points of one half, without the last one.
pub fn add_half(
    alloc: Global,
    points: &Points,
    order: &[u32],
    forward: bool,
    list: &mut Vec<u32>,
) -> Result<(), NoMemory>
    requires { IsInOrder points.now forward order.now }
    ensures { OnOk result (HasWalked points.now forward (at order.now 0) (at order.now (length order.now - 1)) list.old.items list.new.items) }
{
    let _count = points.len();
    let chain = half(alloc, points, order, forward)?;
    add_points(order, chain.as_slice(), list)?;
    Ok(())
}
