// The stamps of all vertices after a journal.
ghost use Rattle.std.specs.Prelude.{nat_eq, IfOk};
ghost use Rattle.journal_defs.specs.Edits.{touches, is_end};
ghost use Rattle.journal_defs.specs.Journal.{commit_touches};
ghost use Rattle.board.specs.Stamping.{AreMarked, AreStampsOf};

use journal_defs::{Commit, Edit};
use mcp_outside::NoMemory;
use plane::Pair;
use std::alloc::Global;

// A vertex gets the number as its stamp.
fn mark(stamps: &mut [u64], v: u32, number: u64)
    ensures { AreMarked (λ u. nat_eq v u) number stamps.old stamps.new }
{
    if (v as usize) < stamps.len() {
        stamps[v as usize] = number;
    }
}

// The ends of a pair get it.
fn mark_pair(stamps: &mut [u64], e: Pair, number: u64)
    ensures { AreMarked (is_end e) number stamps.old stamps.new }
{
    mark(stamps, e.lo(), number);
    mark(stamps, e.hi(), number);
}

// What an edit touches gets it.
fn mark_edit(stamps: &mut [u64], edit: &Edit, number: u64)
    ensures { AreMarked (touches edit.now) number stamps.old stamps.new }
{
    match *edit {
        Edit::Drop(e) => mark_pair(stamps, e, number),
        Edit::Keep(e) => mark_pair(stamps, e, number),
        Edit::Flip { from, to } => {
            mark_pair(stamps, from, number);
            mark_pair(stamps, to, number);
        }
    }
}

// What a commit touches gets it.
fn mark_commit(stamps: &mut [u64], commit: &Commit, number: u64)
    ensures { AreMarked (commit_touches commit.now) number stamps.old stamps.new }
{
    let edits = commit.edits.as_slice();
    for k in 0..edits.len() {
        mark_edit(stamps, &edits[k], number);
    }
}

/// For each vertex the number of the last commit that touches it.
pub fn stamps_of(alloc: Global, journal: &[Commit], count: u32) -> Result<Vec<u64>, NoMemory>
    ensures { IfOk result (λ stamps. AreStampsOf journal.now count stamps.items) }
{
    let mut stamps = vec![in alloc; 0u64; count as usize]?;
    for k in 0..journal.len() {
        mark_commit(&mut stamps, &journal[k], k as u64 + 1);
    }
    Ok(stamps)
}
