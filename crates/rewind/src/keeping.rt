// The kept segments as they were.
ghost use Rattle.std.specs.Prelude.{◌≡◌, ◌≤◌, length, take, IfOk, OnOk};
ghost use Rattle.partition_defs.specs.Ascending.{IsAscending};
ghost use Rattle.partition_defs.specs.Sets.{with_one, without};
ghost use Rattle.journal_defs.specs.Edits.{after};
ghost use Rattle.journal_defs.specs.Journal.{after_all};
ghost use Rattle.replay.specs.Replayed.{IsCore, state_of};
ghost use Rattle.rewind.specs.Kept.{AreKept};
ghost use Rattle.rewind.specs.Marks.{HaveMarked};

use crate::inverting::inverses;
use journal_defs::Edit;
use mcp_outside::NoMemory;
use plane::Pair;
use replay::Core;
use std::alloc::Global;
use std::collections::BTreeSet;

// The pairs of an ascending list.
fn set_of(alloc: Global, list: &[Pair]) -> Result<BTreeSet<Pair, Global>, NoMemory>
    requires { IsAscending list.now }
    ensures { IfOk result (λ kept. kept.keys ≡ list.now) }
{
    let mut kept = BTreeSet::new(alloc);
    for e in list {
        kept.insert(*e)?;
    }
    Ok(kept)
}

// The pairs of a set, ascending.
fn listed(alloc: Global, kept: &BTreeSet<Pair, Global>) -> Result<Vec<Pair>, NoMemory>
    ensures { IfOk result (λ list. list.items ≡ kept.now.keys) }
{
    let mut list = Vec::with_capacity(alloc, kept.len())?;
    for e in kept {
        list.push(*e)?;
    }
    Ok(list)
}

// Takes a pair out.
fn take_out(kept: &mut BTreeSet<Pair, Global>, e: Pair)
    ensures { kept.new.keys ≡ without e kept.old.keys }
{
    let _count = kept.len();
    kept.remove(&e);
}

// Puts a pair in.
fn put_in(kept: &mut BTreeSet<Pair, Global>, e: Pair) -> Result<(), NoMemory>
    ensures { OnOk result (kept.new.keys ≡ with_one e kept.old.keys) }
{
    let _count = kept.len();
    kept.insert(e)?;
    Ok(())
}

// What an edit does to the kept pairs.
fn mark(kept: &mut BTreeSet<Pair, Global>, edit: &Edit) -> Result<(), NoMemory>
    ensures { OnOk result (HaveMarked kept.old.keys kept.new.keys (after edit.now)) }
{
    match *edit {
        Edit::Drop(e) => {
            take_out(kept, e);
            Ok(())
        }
        Edit::Keep(e) => put_in(kept, e),
        Edit::Flip { from: _, to: _ } => Ok(()),
    }
}

// What edits do to the kept pairs, in their turn.
fn mark_all(kept: &mut BTreeSet<Pair, Global>, edits: &[Edit]) -> Result<(), NoMemory>
    ensures { OnOk result (HaveMarked kept.old.keys kept.new.keys (after_all edits.now)) }
{
    for edit in edits {
        mark(kept, edit)?;
    }
    Ok(())
}

// Takes the kept pairs back from the end of the journal to its first k commits.
fn take_back(kept: &mut BTreeSet<Pair, Global>, core: &Core, k: usize) -> Result<(), NoMemory>
    requires now { kept.old.keys ≡ (state_of core.now).kept }
    requires within { k ≤ length core.now.journal }
    ensures { OnOk result (AreKept core.now k kept.new.keys) }
{
    let _count = core.points().len();
    let journal = core.journal();
    let mut left = journal.len();
    while left > k {
        left -= 1;
        mark_all(kept, inverses(&journal[left].edits).as_slice())?;
    }
    Ok(())
}

/// The kept segments after the first k commits, ascending. It goes back from what is kept now, commit by commit.
pub fn kept_after(alloc: Global, core: &Core, k: u64) -> Result<Vec<Pair>, NoMemory>
    requires { k ≤ length core.now.journal }
    ensures kept { IfOk result (λ list. AreKept core.now k list.items) }
    ensures ascending { IfOk result (λ list. IsAscending list.items) }
    ensures core { IsCore core.now }
{
    let _count = core.points().len();
    let now = core.kept()?;
    let mut kept = set_of(alloc, &now)?;
    take_back(&mut kept, core, k as usize)?;
    listed(alloc, &kept)
}
