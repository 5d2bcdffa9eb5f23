// A plain slow program for the definitions: legality by all pairs and all points, replay over lists.
ghost use Rattle.std.specs.Prelude.{◌≡◌, ◌≢◌, ◌<◌, ◌+◌, ◌^◌, ℕ, ◌↔◌, ◌++◌, ◌∷◌, length, filter, IfOk, OnOk, IsTrue, MatchOption};
ghost use Rattle.std.specs.List.{Contains, All};
ghost use Rattle.plane.specs.declared.segment.Pair.{Pair as ThePair};
ghost use Rattle.plane.specs.Geometry.{AreCrossing};
ghost use Rattle.partition_defs.specs.Partition.{AreWithin};
ghost use Rattle.partition_defs.specs.Sets.{is_same, precedes, without as without_spec, with_one as with_spec};
ghost use Rattle.journal_defs.specs.Edits.{after as after_spec, IsLegalDrop, IsSpare, IsLegalFlip, IsLegal};
ghost use Rattle.journal_defs.specs.Journal.{AreLegal, IsFirstIllegal, after_all as all_spec, opening as opening_spec};
ghost use Rattle.journal_defs.specs.Journal.{replay as replay_spec};

use crate::commit::Commit;
use crate::edit::Edit;
use crate::state::Lists;
use mcp_outside::NoMemory;
use partition_defs::{are_within, is_convex_partition_plain, joins};
use plane::{Pair, Points};
use std::alloc::Global;

fn same(e: Pair, f: Pair) -> bool
    ensures { result ≡ is_same e f }
{
    e.lo() == f.lo() && e.hi() == f.hi()
}

fn comes_first(e: Pair, f: Pair) -> bool
    ensures { result ≡ precedes e f }
{
    e.lo() < f.lo() || (e.lo() == f.lo() && e.hi() < f.hi())
}

// The list without a pair.
#[tactic(auto, unfolding(partition_defs::specs::Sets::without))]
fn without(alloc: Global, list: &[Pair], e: Pair) -> Result<Vec<Pair>, NoMemory>
    ensures { IfOk result (λ v. v.items ≡ without_spec e list.now) }
{
    let mut rest = Vec::new(alloc);
    for f in list {
        if !same(*f, e) {
            rest.push(*f)?;
        }
    }
    Ok(rest)
}

// Adds the pairs before e.
fn push_before(list: &[Pair], e: Pair, out: &mut Vec<Pair>) -> Result<(), NoMemory>
    ensures { OnOk result (out.new.items ≡ out.old.items ++ filter (λ f. precedes f e) list.now) }
{
    for f in list {
        if comes_first(*f, e) {
            out.push(*f)?;
        }
    }
    Ok(())
}

// Adds the pairs after e.
fn push_after(list: &[Pair], e: Pair, out: &mut Vec<Pair>) -> Result<(), NoMemory>
    ensures { OnOk result (out.new.items ≡ out.old.items ++ filter (λ f. precedes e f) list.now) }
{
    for f in list {
        if comes_first(e, *f) {
            out.push(*f)?;
        }
    }
    Ok(())
}

// The list with a pair at its place.
#[tactic(auto, unfolding(partition_defs::specs::Sets::with_one))]
fn with_one(alloc: Global, list: &[Pair], e: Pair) -> Result<Vec<Pair>, NoMemory>
    ensures { IfOk result (λ v. v.items ≡ with_spec e list.now) }
{
    let mut more = Vec::new(alloc);
    push_before(list, e, &mut more)?;
    more.push(e)?;
    push_after(list, e, &mut more)?;
    Ok(more)
}

fn copied(alloc: Global, list: &[Pair]) -> Result<Vec<Pair>, NoMemory>
    ensures { IfOk result (λ v. v.items ≡ list.now) }
{
    Ok(list.to_vec(alloc)?)
}

/// The state after an edit, whether it is legal or not.
pub fn after(alloc: Global, edit: Edit, state: &Lists) -> Result<Lists, NoMemory>
    ensures { IfOk result (λ t. t ≡ after_spec edit state.now) }
{
    match edit {
        Edit::Drop(e) => {
            let kept = without(alloc, state.kept(), e)?;
            Ok(Lists::make(copied(alloc, state.all())?, kept))
        }
        Edit::Keep(e) => {
            let kept = with_one(alloc, state.kept(), e)?;
            Ok(Lists::make(copied(alloc, state.all())?, kept))
        }
        Edit::Flip { from, to } => {
            let rest = without(alloc, state.all(), from)?;
            let all = with_one(alloc, rest.as_slice(), to)?;
            Ok(Lists::make(all, copied(alloc, state.kept())?))
        }
    }
}

/// The state after edits in turn.
pub fn after_all(alloc: Global, edits: &[Edit], state: Lists) -> Result<Lists, NoMemory>
    ensures { IfOk result (λ t. t ≡ all_spec edits.now state) }
{
    let mut now = state;
    for e in edits {
        now = after(alloc, *e, &now)?;
    }
    Ok(now)
}

/// The state in which all pairs of a start are kept.
pub fn opening(alloc: Global, start: &[Pair]) -> Result<Lists, NoMemory>
    ensures { IfOk result (λ t. t ≡ opening_spec start.now) }
{
    Ok(Lists::make(copied(alloc, start)?, copied(alloc, start)?))
}

/// The state after all commits of a journal.
pub fn replay(alloc: Global, start: &[Pair], journal: &[Commit]) -> Result<Lists, NoMemory>
    ensures { IfOk result (λ t. t ≡ replay_spec start.now journal.now) }
{
    let mut now = opening(alloc, start)?;
    for c in journal {
        now = after_all(alloc, c.edits.as_slice(), now)?;
    }
    Ok(now)
}

fn has(list: &[Pair], e: Pair) -> bool
    ensures { IsTrue result ↔ Contains list.now e }
{
    joins(list, e.lo(), e.hi())
}

// Whether g is another pair than e, and crosses f.
#[tactic(auto, using(partition_defs::proofs::laws::Sets::same_pairs))]
fn crosses_other(points: &Points, f: Pair, g: Pair, e: Pair) -> bool
    requires f_in { f.hi < length points.now }
    requires g_in { g.hi < length points.now }
    ensures { IsTrue result ↔ ((g ≢ e) × AreCrossing points.now f.lo f.hi g.lo g.hi) }
{
    !same(g, e) && points.cross(f, g)
}

// Whether a pair crosses none of the list but e.
fn crosses_alone(points: &Points, list: &[Pair], f: Pair, e: Pair) -> bool
    requires within { AreWithin points.now list.now }
    requires end { f.hi < length points.now }
    ensures { IsTrue result ↔ ((g : ThePair) → Contains list.now g → g ≢ e → ¬ AreCrossing points.now f.lo f.hi g.lo g.hi) }
{
    for g in list {
        if crosses_other(points, f, *g, e) {
            return false;
        }
    }
    true
}

fn can_drop(alloc: Global, points: &Points, state: &Lists, e: Pair) -> Result<bool, NoMemory>
    ensures { IfOk result (λ b. IsTrue b ↔ IsLegalDrop points.now state.now e) }
{
    let rest = without(alloc, state.kept(), e)?;
    Ok(has(state.kept(), e) && is_convex_partition_plain(points, rest.as_slice()))
}

fn is_spare(state: &Lists, e: Pair) -> bool
    ensures { IsTrue result ↔ IsSpare state.now e }
{
    has(state.all(), e) && !has(state.kept(), e)
}

fn can_flip(points: &Points, state: &Lists, e: Pair, f: Pair) -> bool
    requires { AreWithin points.now state.now.all }
    ensures { IsTrue result ↔ IsLegalFlip points.now state.now e f }
{
    if !is_spare(state, e) {
        return false;
    }
    if has(state.all(), f) {
        return false;
    }
    if f.hi() >= points.len() {
        return false;
    }
    if e.hi() >= points.len() {
        return false;
    }
    if !points.is_clear(f) {
        return false;
    }
    if !points.cross(f, e) {
        return false;
    }
    crosses_alone(points, state.all(), f, e)
}

/// Whether all ends of pairs are indices of points.
pub fn is_within(points: &Points, state: &Lists) -> bool
    ensures { IsTrue result ↔ AreWithin points.now state.now.all }
{
    are_within(points, state.all())
}

/// Whether an edit is legal, by all pairs and all points.
pub fn is_legal(alloc: Global, points: &Points, state: &Lists, edit: Edit) -> Result<bool, NoMemory>
    requires { AreWithin points.now state.now.all }
    ensures { IfOk result (λ b. IsTrue b ↔ IsLegal points.now state.now edit) }
{
    match edit {
        Edit::Drop(e) => can_drop(alloc, points, state, e),
        Edit::Keep(e) => Ok(is_spare(state, e)),
        Edit::Flip { from, to } => Ok(can_flip(points, state, from, to)),
    }
}

// The same state again.
fn again(alloc: Global, state: &Lists) -> Result<Lists, NoMemory>
    ensures { IfOk result (λ t. t ≡ state.now) }
{
    Ok(Lists::make(copied(alloc, state.all())?, copied(alloc, state.kept())?))
}

// The state after an edit, or none where it isn't legal.
fn step(alloc: Global, points: &Points, state: &Lists, e: Edit) -> Result<Option<Lists>, NoMemory>
    requires { AreWithin points.now state.now.all }
    ensures { IfOk result (λ o. MatchOption o (¬ IsLegal points.now state.now e)
        (λ t. IsLegal points.now state.now e × (t ≡ after_spec e state.now))) }
{
    if is_legal(alloc, points, state, e)? {
        Ok(Some(after(alloc, e, state)?))
    } else {
        Ok(None)
    }
}

/// The position of the first edit that isn't legal in its turn, or none where all are legal.
pub fn first_illegal(
    alloc: Global,
    points: &Points,
    state: &Lists,
    edits: &[Edit],
) -> Result<Option<u32>, NoMemory>
    requires within { AreWithin points.now state.now.all }
    requires few { length edits.now < 2 ^ 32 }
    ensures { IfOk result (λ o. MatchOption o (AreLegal points.now state.now edits.now)
        (λ k. IsFirstIllegal points.now state.now edits.now k)) }
{
    let mut now = again(alloc, state)?;
    for k in 0..edits.len() {
        match step(alloc, points, &now, edits[k])? {
            Some(next) => now = next,
            None => return Ok(Some(k as u32)),
        }
    }
    Ok(None)
}
