// One look of a region: its star through an edit.
ghost use Rattle.std.specs.Prelude.{◌≡◌, ◌<◌, ℕ, Option, length, true, slice_index_or, slice_set, is_ok};
ghost use Rattle.partition_defs.specs.Partition.{HasEnds};
ghost use Rattle.star.specs.Stars.{HasMark, IsStar, SamePlace};
ghost use Rattle.journal_defs.specs.Edits.{is_end, touches};
ghost use Rattle.edit.specs.declared.look.Look.{Look as TheLook};
ghost use Rattle.planner.specs.Steps.{CanFlip, CanStep, HasStepped, IsSlotReady, HasSlotStepped, HasSlotRoom};

use edit::Look;
use journal_defs::Edit;
use mcp_outside::NoMemory;
use plane::{Pair, Points};
use star::Star;

// The end of the pair that isn't v.
fn other_end(e: Pair, v: u32) -> u32
    requires { is_end e v ≡ true }
    ensures { HasEnds e v result }
{
    if e.lo() == v { e.hi() } else { e.lo() }
}

// Whether v is an end of the pair.
fn is_at_end(e: Pair, v: u32) -> bool
    ensures { result ≡ is_end e v }
{
    e.lo() == v || e.hi() == v
}

fn drop_end(points: &Points, star: &mut Star, e: Pair)
    requires points { points.now ≡ star.old.points }
    requires touched { is_end e star.old.centre ≡ true }
    requires can { CanStep points.now (Edit.Drop e) star.old }
    ensures { HasStepped points.now (Edit.Drop e) star.old star.new }
{
    let w = other_end(e, star.centre());
    star.drop_mark(points, w);
}

fn keep_end(points: &Points, star: &mut Star, e: Pair)
    requires points { points.now ≡ star.old.points }
    requires touched { is_end e star.old.centre ≡ true }
    requires can { CanStep points.now (Edit.Keep e) star.old }
    ensures { HasStepped points.now (Edit.Keep e) star.old star.new }
{
    let w = other_end(e, star.centre());
    star.keep_mark(points, w);
}

fn flip_out(points: &Points, star: &mut Star, from: Pair, to: Pair)
    requires points { points.now ≡ star.old.points }
    requires at { is_end from star.old.centre ≡ true }
    requires can { CanFlip points.now from to star.old }
    ensures { HasStepped points.now (Edit.Flip from to) star.old star.new }
{
    let w = other_end(from, star.centre());
    star.remove(points, w);
}

fn flip_in(points: &Points, star: &mut Star, from: Pair, to: Pair)
    requires points { points.now ≡ star.old.points }
    requires at { is_end to star.old.centre ≡ true }
    requires can { CanFlip points.now from to star.old }
    ensures { HasStepped points.now (Edit.Flip from to) star.old star.new }
{
    let _count = points.len();
    let w = other_end(to, star.centre());
    star.insert(points, w);
}

fn flip_end(points: &Points, star: &mut Star, from: Pair, to: Pair)
    requires points { points.now ≡ star.old.points }
    requires touched { touches (Edit.Flip from to) star.old.centre ≡ true }
    requires can { CanFlip points.now from to star.old }
    ensures { HasStepped points.now (Edit.Flip from to) star.old star.new }
{
    if is_at_end(from, star.centre()) {
        flip_out(points, star, from, to);
    } else {
        flip_in(points, star, from, to);
    }
}

// Takes the star of a vertex that the edit touches through it.
fn step(points: &Points, star: &mut Star, edit: &Edit)
    requires points { points.now ≡ star.old.points }
    requires touched { touches edit.now star.old.centre ≡ true }
    requires can { CanStep points.now edit.now star.old }
    ensures { HasStepped points.now edit.now star.old star.new }
{
    match *edit {
        Edit::Drop(e) => drop_end(points, star, e),
        Edit::Keep(e) => keep_end(points, star, e),
        Edit::Flip { from, to } => flip_end(points, star, from, to),
    }
}

fn step_slot(points: &Points, slot: &mut Option<Look>, edit: &Edit)
    requires { IsSlotReady points.now edit.now slot.old }
    ensures { HasSlotStepped points.now edit.now slot.old slot.new }
{
    match slot {
        Some(look) => step(points, &mut look.star, edit),
        None => unreachable!(),
    }
}

/// Takes the star of the look at `k` through the edit.
pub fn step_in(points: &Points, slots: &mut [Option<Look>], k: usize, edit: &Edit)
    requires within { k < length slots.old }
    requires ready { IsSlotReady points.now edit.now (slice_index_or slots.old k None) }
    ensures { (slot : Option TheLook) × (slots.new ≡ slice_set slots.old k slot)
        × HasSlotStepped points.now edit.now (slice_index_or slots.old k None) slot }
{
    let slot = &mut slots[k];
    step_slot(points, slot, edit);
}

fn reserve_slot(slot: &mut Option<Look>) -> Result<(), NoMemory>
    requires { (l : TheLook) × (slot.old ≡ Some l) }
    ensures { HasSlotRoom slot.old slot.new (is_ok result) }
{
    match slot {
        Some(look) => look.star.reserve(1),
        None => unreachable!(),
    }
}

/// Makes room for one more neighbour in the star of the look at `k`.
pub fn reserve_in(slots: &mut [Option<Look>], k: usize) -> Result<(), NoMemory>
    requires within { k < length slots.old }
    requires some { (l : TheLook) × (slice_index_or slots.old k None ≡ Some l) }
    ensures { (slot : Option TheLook) × (slots.new ≡ slice_set slots.old k slot)
        × HasSlotRoom (slice_index_or slots.old k None) slot (is_ok result) }
{
    let slot = &mut slots[k];
    reserve_slot(slot)
}
