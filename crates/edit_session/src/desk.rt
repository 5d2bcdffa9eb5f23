// What a session keeps beside its core, so that no command goes through the journal.
ghost use Rattle.std.specs.Prelude.{◌≡◌, ◌+◌, ◌-◌, ◌∷◌, [], ◌++◌, ◌<◌, ◌≤◌, ℕ, List, length, take, slice_index_or};
ghost use Rattle.std.specs.Prelude.{vec_len, vec_capacity, nat_eq, IfOk, MatchOption, None};
ghost use Rattle.std.specs.List.{list_any};
ghost use Rattle.journal_defs.specs.Edits.{is_end, touches};
ghost use Rattle.replay.specs.Applied.{AreWithin, IsWithin};
ghost use Rattle.replay.specs.Replayed.{IsCore};
ghost use Rattle.edit_session.specs.Desks.{AreStamped, AreStamps};

use journal_defs::Edit;
use mcp_outside::NoMemory;
use plane::Pair;
use replay::Core;
use std::alloc::Global;

/// The numbers of the commits that undo can take back, the last one at the end; for each vertex the number of the last
/// commit that touched it; and the lower bound, once it was asked for.
#[derive(Drop)]
pub struct Desk {
    pub undoable: Vec<u64>,
    pub stamps: Vec<u64>,
    pub value: Option<u64>,
}

/// A desk for so many points before the first command.
pub fn clear_desk(alloc: Global, count: usize) -> Result<Desk, NoMemory>
    ensures undoable { IfOk result (λ desk. desk.undoable.items ≡ []) }
    ensures stamps { IfOk result (λ desk. AreStamps count [] desk.stamps.items) }
    ensures value { IfOk result (λ desk. desk.value ≡ None) }
{
    Ok(Desk {
        undoable: Vec::new(alloc),
        stamps: vec![in alloc; 0; count]?,
        value: None,
    })
}

/// Puts a number at the end of a list that has room for it.
pub fn put_last(list: &mut Vec<u64>, number: u64)
    requires { vec_len list.old + 1 ≤ vec_capacity list.old }
    ensures { list.new.items ≡ list.old.items ++ number ∷ [] }
{
    let Ok(()) = list.push(number) else {
        unreachable!()
    };
}

/// The last of some numbers.
pub fn last_of(list: &[u64]) -> Option<u64>
    ensures { MatchOption result (list.now ≡ []) (λ number. (rest : List ℕ) × (list.now ≡ rest ++ number ∷ [])) }
{
    let count = list.len();
    if count == 0 {
        return None;
    }
    Some(list[count - 1])
}

/// Takes the last number off.
pub fn take_off(list: &mut Vec<u64>, number: u64)
    requires { (rest : List ℕ) × (list.old.items ≡ rest ++ number ∷ []) }
    ensures { list.old.items ≡ list.new.items ++ number ∷ [] }
{
    let _ = number;
    list.pop();
}

/// The stamp of a vertex.
pub fn stamp_of(stamps: &[u64], v: u32) -> u64
    requires { v < length stamps.now }
    ensures { result ≡ slice_index_or stamps.now v 0 }
{
    stamps[v as usize]
}

fn stamp_at(stamps: &mut [u64], v: u32, number: u64)
    requires { v < length stamps.old }
    ensures { AreStamped (λ w. nat_eq v w) number stamps.old stamps.new }
{
    stamps[v as usize] = number;
}

fn stamp_ends(stamps: &mut [u64], e: Pair, number: u64)
    requires { e.hi < length stamps.old }
    ensures { AreStamped (is_end e) number stamps.old stamps.new }
{
    stamp_at(stamps, e.lo(), number);
    stamp_at(stamps, e.hi(), number);
}

fn stamp_touched(stamps: &mut [u64], edit: &Edit, number: u64)
    requires { IsWithin (length stamps.old) edit.now }
    ensures { AreStamped (touches edit.now) number stamps.old stamps.new }
{
    match *edit {
        Edit::Drop(e) => stamp_ends(stamps, e, number),
        Edit::Keep(e) => stamp_ends(stamps, e, number),
        Edit::Flip { from, to } => {
            stamp_ends(stamps, from, number);
            stamp_ends(stamps, to, number);
        }
    }
}

fn stamp_all(stamps: &mut [u64], edits: &[Edit], number: u64)
    requires { AreWithin (length stamps.old) edits.now }
    ensures { AreStamped (λ v. list_any (λ e. touches e v) edits.now) number stamps.old stamps.new }
{
    for edit in edits {
        stamp_touched(stamps, edit, number);
    }
}

/// Stamps what the last commit of the core touches.
pub fn stamp_last(core: &Core, stamps: &mut [u64])
    requires some { 1 ≤ length core.now.journal }
    requires stamps { AreStamps (length core.now.points) (take (length core.now.journal - 1) core.now.journal) stamps.old }
    ensures stamps { AreStamps (length core.now.points) core.now.journal stamps.new }
    ensures core { IsCore core.now }
{
    let _count = core.points().len();
    let journal = core.journal();
    let number = journal.len();
    stamp_all(stamps, journal[number - 1].edits.as_slice(), number as u64);
}
