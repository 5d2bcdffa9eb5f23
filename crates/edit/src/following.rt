ghost use Rattle.std.specs.Prelude.{◌≡◌, ◌+◌, ◌<◌, ℕ, length, true, false};
ghost use Rattle.partition_defs.specs.Partition.{HasEnds};
ghost use Rattle.star.specs.Stars.{IsStar, IsNeighbour, HasMark, IsFree, Marks, Gains, Loses, SamePlace};
ghost use Rattle.journal_defs.specs.Edits.{is_end, touches};
ghost use Rattle.edit.specs.Steps.{puts_in, IsBefore, IsAfter};

use journal_defs::Edit;
use plane::{Pair, Points};
use star::Star;

// Whether the centre is an end of the pair.
fn is_at_end(star: &Star, e: Pair) -> bool
    ensures { result ≡ is_end e star.now.centre }
{
    e.lo() == star.centre() || e.hi() == star.centre()
}

// The end of the pair that isn't the centre.
fn other_end(star: &Star, e: Pair) -> u32
    requires { is_end e star.now.centre ≡ true }
    ensures { HasEnds e star.now.centre result }
{
    if e.lo() == star.centre() {
        e.hi()
    } else {
        e.lo()
    }
}

fn drop_end(points: &Points, star: &mut Star, e: Pair)
    requires points { points.now ≡ star.old.points }
    requires end { is_end e star.old.centre ≡ true }
    requires kept { (w : ℕ) → HasEnds e star.old.centre w → HasMark star.old w true }
    ensures mark { (w : ℕ) × HasEnds e star.old.centre w × Marks star.old star.new w false }
    ensures order { IsStar star.new }
{
    let w = other_end(star, e);
    star.drop_mark(points, w);
}

fn keep_end(points: &Points, star: &mut Star, e: Pair)
    requires points { points.now ≡ star.old.points }
    requires end { is_end e star.old.centre ≡ true }
    requires spare { (w : ℕ) → HasEnds e star.old.centre w → HasMark star.old w false }
    ensures mark { (w : ℕ) × HasEnds e star.old.centre w × Marks star.old star.new w true }
    ensures order { IsStar star.new }
{
    let w = other_end(star, e);
    star.keep_mark(points, w);
}

fn take_out_end(points: &Points, star: &mut Star, e: Pair)
    requires points { points.now ≡ star.old.points }
    requires end { is_end e star.old.centre ≡ true }
    requires there { (w : ℕ) → HasEnds e star.old.centre w → IsNeighbour star.old w }
    ensures list { (w : ℕ) × HasEnds e star.old.centre w × Loses star.old star.new w }
    ensures spare { star.new.spare ≡ star.old.spare + 1 }
    ensures place { SamePlace star.old star.new }
    ensures order { IsStar star.new }
{
    let w = other_end(star, e);
    star.remove(points, w);
}

fn put_in_end(points: &Points, star: &mut Star, f: Pair)
    requires points { points.now ≡ star.old.points }
    requires end { is_end f star.old.centre ≡ true }
    requires within { f.hi < length points.now }
    requires room { 0 < star.old.spare }
    requires free { (w : ℕ) → HasEnds f star.old.centre w → IsFree star.old w }
    ensures list { (w : ℕ) × HasEnds f star.old.centre w × Gains star.old star.new w }
    ensures spare { star.new.spare + 1 ≡ star.old.spare }
    ensures place { SamePlace star.old star.new }
    ensures order { IsStar star.new }
{
    let w = other_end(star, f);
    star.insert(points, w);
}

fn follow_drop(points: &Points, star: &mut Star, e: Pair)
    requires points { points.now ≡ star.old.points }
    requires end { is_end e star.old.centre ≡ true }
    requires legal { IsBefore points.now (Edit.Drop e) star.old }
    ensures { IsAfter points.now (Edit.Drop e) star.old star.new }
{
    let _count = points.len();
    drop_end(points, star, e);
}

fn follow_keep(points: &Points, star: &mut Star, e: Pair)
    requires points { points.now ≡ star.old.points }
    requires end { is_end e star.old.centre ≡ true }
    requires legal { IsBefore points.now (Edit.Keep e) star.old }
    ensures { IsAfter points.now (Edit.Keep e) star.old star.new }
{
    let _count = points.len();
    keep_end(points, star, e);
}

fn follow_flip(points: &Points, star: &mut Star, from: Pair, to: Pair)
    requires points { points.now ≡ star.old.points }
    requires end { is_end from star.old.centre ≡ false → is_end to star.old.centre ≡ true }
    requires legal { IsBefore points.now (Edit.Flip from to) star.old }
    requires room { is_end to star.old.centre ≡ true → 0 < star.old.spare }
    ensures { IsAfter points.now (Edit.Flip from to) star.old star.new }
{
    let _count = points.len();
    if is_at_end(star, from) {
        take_out_end(points, star, from);
    } else {
        put_in_end(points, star, to);
    }
}

/// Takes the star of a vertex that the edit touches from the state before the edit to the state after it. The edit is legal
/// before, and where it puts a neighbour in there is room for it.
pub fn follow(points: &Points, star: &mut Star, edit: &Edit)
    requires points { points.now ≡ star.old.points }
    requires touched { touches edit.now star.old.centre ≡ true }
    requires legal { IsBefore points.now edit.now star.old }
    requires room { puts_in edit.now star.old.centre ≡ true → 0 < star.old.spare }
    ensures { IsAfter points.now edit.now star.old star.new }
{
    match *edit {
        Edit::Drop(e) => follow_drop(points, star, e),
        Edit::Keep(e) => follow_keep(points, star, e),
        Edit::Flip { from, to } => follow_flip(points, star, from, to),
    }
}
