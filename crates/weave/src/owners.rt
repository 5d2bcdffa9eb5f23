// The owners of all places.
ghost use Rattle.std.specs.Prelude.{◌≡◌, ◌↔◌, ℕ, ◌<◌, Bool, ◌||◌, IfOk, IsTrue, Option, Some, None, nat_eq, length};
ghost use Rattle.journal_defs.specs.Edits.{is_end, touches};
ghost use Rattle.edit.specs.Plans.{are_touching};
ghost use Rattle.replay.specs.Applied.{AreWithin, IsWithin};
ghost use Rattle.weave.specs.Owned.{owner_in, IsLeastLacking, IsTake, IsReturn};

use crate::step::StepAnswer;
use journal_defs::Edit;
use mcp_outside::NoMemory;
use plane::Pair;
use std::alloc::Global;

/// So many places, all free.
pub fn free_places(alloc: Global, count: usize) -> Result<Vec<Option<u32>>, NoMemory>
    ensures count { IfOk result (λ owners. length owners.items ≡ count) }
    ensures free { IfOk result (λ owners. (v : ℕ) → owner_in owners.items v ≡ None) }
{
    Ok(vec![in alloc; None; count]?)
}

/// Takes the place, where it is free.
pub fn take(owners: &mut [Option<u32>], caller: u32, place: u32) -> StepAnswer
    requires { place < length owners.old }
    ensures { IsTake owners.old owners.new caller place result }
{
    match owners[place as usize] {
        Some(owner) => StepAnswer::Held(owner),
        None => {
            owners[place as usize] = Some(caller);
            StepAnswer::Won
        }
    }
}

/// Whether the place is the caller's.
pub fn is_owner(owners: &[Option<u32>], caller: u32, place: u32) -> bool
    requires { place < length owners.now }
    ensures { IsTrue result ↔ (owner_in owners.now place ≡ Some caller) }
{
    match owners[place as usize] {
        Some(owner) => owner == caller,
        None => false,
    }
}

/// Gives the place back, where it is the caller's.
pub fn give_back(owners: &mut [Option<u32>], caller: u32, place: u32) -> StepAnswer
    requires { place < length owners.old }
    ensures { IsReturn owners.old owners.new caller place result }
{
    if !is_owner(owners, caller, place) {
        return StepAnswer::NotOwned(place);
    }
    owners[place as usize] = None;
    StepAnswer::Returned
}

fn lesser(a: Option<u32>, b: Option<u32>) -> Option<u32>
    ensures { (owner : ℕ → Option ℕ) (c : ℕ) (p q : ℕ → Bool) → IsLeastLacking owner c p a → IsLeastLacking owner c q b
        → IsLeastLacking owner c (λ v. p v || q v) result }
{
    match (a, b) {
        (None, b) => b,
        (Some(m), None) => Some(m),
        (Some(m), Some(n)) => { if n < m { Some(n) } else { Some(m) } }
    }
}

// The vertex, unless it is the caller's.
fn lacking(owners: &[Option<u32>], caller: u32, v: u32) -> Option<u32>
    requires { v < length owners.now }
    ensures { IsLeastLacking (owner_in owners.now) caller (λ w. nat_eq v w) result }
{
    if is_owner(owners, caller, v) {
        None
    } else {
        Some(v)
    }
}

// The least end of the pair that isn't the caller's, or none.
fn lacking_end(owners: &[Option<u32>], caller: u32, e: Pair) -> Option<u32>
    requires { e.hi < length owners.now }
    ensures { IsLeastLacking (owner_in owners.now) caller (is_end e) result }
{
    lesser(
        lacking(owners, caller, e.lo()),
        lacking(owners, caller, e.hi()),
    )
}

// The least vertex that the edit touches and that isn't the caller's, or none.
fn lacking_of(owners: &[Option<u32>], caller: u32, edit: &Edit) -> Option<u32>
    requires { IsWithin (length owners.now) edit.now }
    ensures { IsLeastLacking (owner_in owners.now) caller (touches edit.now) result }
{
    match *edit {
        Edit::Drop(e) => lacking_end(owners, caller, e),
        Edit::Keep(e) => lacking_end(owners, caller, e),
        Edit::Flip { from, to } => {
            lesser(
                lacking_end(owners, caller, from),
                lacking_end(owners, caller, to),
            )
        }
    }
}

/// The least vertex that the edits touch and that isn't the caller's, or none.
pub fn least_lacking(owners: &[Option<u32>], caller: u32, edits: &[Edit]) -> Option<u32>
    requires { AreWithin (length owners.now) edits.now }
    ensures { IsLeastLacking (owner_in owners.now) caller (are_touching edits.now) result }
{
    let Some((first, rest)) = edits.split_first() else {
        return None;
    };
    lesser(
        lacking_of(owners, caller, first),
        least_lacking(owners, caller, rest),
    )
}
