// The journal of a report, replayed commit by commit, and what it leads to.
ghost use Rattle.std.specs.Prelude.{◌≡◌, ◌+◌, ◌≤◌, [], length, IfOk, MatchOption};
ghost use Rattle.std.specs.List.{All};
ghost use Rattle.partition_defs.specs.Sets.{IsMinimal};
ghost use Rattle.replay.specs.Replayed.{IsCore, state_of};
ghost use Rattle.report_io.specs.Limits.{AreLaterWithin, IsCommitWithin};
ghost use Rattle.report_defs.specs.Relation.{HasHead, IsRight, IsStartInOrder};
ghost use Rattle.report_defs.specs.Verdicts.{IsVerdict, HasSolved, IsFirstBadCommit, IsFirstToGo};
ghost use Rattle.report_check.specs.Replays.{IsOf, IsReplayOf, drop_of};

use crate::opening::opening;
use crate::result::has_result;
use journal_defs::{Commit, Edit, EditList};
use mcp_outside::NoMemory;
use plane::Pair;
use replay::{ApplyFault, Core};
use report_defs::Verdict;
use report_io::Report;
use std::alloc::Global;

// The same commit again.
fn copy_commit(commit: &Commit) -> Commit
    ensures { result ≡ commit.now }
{
    Commit {
        caller: commit.caller,
        seq: commit.seq,
        edits: EditList::make(commit.edits.as_slice()),
    }
}

// Takes the commits in their order. It answers the number, from 1, of the first one that is refused, or none.
fn replayed(core: &mut Core, commits: &[Commit]) -> Result<Option<u32>, NoMemory>
    requires core { IsCore core.old }
    requires fresh { core.old.journal ≡ [] }
    requires few { length commits.now ≤ 200000 }
    requires within { All (IsCommitWithin (length core.old.points)) commits.now }
    ensures of { IsOf core.old core.new }
    ensures core { IsCore core.new }
    ensures answer { IfOk result (λ bad. MatchOption bad (core.new.journal ≡ commits.now)
        (IsFirstBadCommit core.old.points core.old.start commits.now)) }
{
    core.room(commits.len() as u32)?;
    for k in 0..commits.len() {
        match core.apply(copy_commit(&commits[k])) {
            Ok(_) => {}
            Err(ApplyFault::NoMemory) => return Err(NoMemory),
            Err(ApplyFault::WrongSeq { .. }) => return Ok(Some(k as u32 + 1)),
            Err(ApplyFault::Illegal { .. }) => return Ok(Some(k as u32 + 1)),
        }
    }
    Ok(None)
}

// The pair that an edit drops, or none.
fn dropped(edit: &Edit) -> Option<Pair>
    ensures { result ≡ drop_of edit.now }
{
    match *edit {
        Edit::Drop(e) => Some(e),
        _ => None,
    }
}

// The least kept pair without which the kept pairs are a convex partition still, or none: the first that a sweep drops.
fn first_to_go(core: &mut Core) -> Result<Option<Pair>, NoMemory>
    requires few { length (state_of core.old).kept + length core.old.journal ≤ 4000000000 }
    ensures { IfOk result (λ gone. MatchOption gone (IsMinimal core.old.points (state_of core.old).kept)
        (IsFirstToGo core.old.points (state_of core.old).kept)) }
{
    let before = core.journal().len();
    if core.sweep()? == 0 {
        return Ok(None);
    }
    let edit = core.journal()[before].edits.as_slice()[0];
    match dropped(&edit) {
        Some(e) => Ok(Some(e)),
        None => unreachable!(),
    }
}

// What fails first of what the journal leads to, and that no pair of the solution can go; or none.
fn end_fault(alloc: Global, core: &mut Core, report: &Report) -> Result<Option<Verdict>, NoMemory>
    requires within { AreLaterWithin report.now }
    requires head { HasHead report.now }
    requires replayed { IsReplayOf report.now core.old }
    ensures { IfOk result (λ fault. MatchOption fault (HasSolved report.now) (IsVerdict report.now)) }
{
    if !has_result(alloc, core, report.solution.as_slice())? {
        return Ok(Some(Verdict::NoResult));
    }
    match first_to_go(core)? {
        Some(e) => Ok(Some(Verdict::NoLeast(e))),
        None => Ok(None),
    }
}

/// What fails first of the journal, what it leads to, and that no pair of the solution can go; or none.
pub fn history_fault(alloc: Global, report: &Report) -> Result<Option<Verdict>, NoMemory>
    requires within { AreLaterWithin report.now }
    requires head { HasHead report.now }
    ensures { IfOk result (λ fault. MatchOption fault (HasSolved report.now) (IsVerdict report.now)) }
{
    let mut core = opening(alloc, report)?;
    match replayed(&mut core, report.commits.as_slice())? {
        Some(k) => Ok(Some(Verdict::NoJournal(k))),
        None => end_fault(alloc, &mut core, report),
    }
}

/// The core of a right report: its start, its journal, and the state that the journal leads to.
pub fn core_of(alloc: Global, report: &Report) -> Result<Core, NoMemory>
    requires within { AreLaterWithin report.now }
    requires right { IsRight report.now }
    ensures points { IfOk result (λ c. c.points ≡ report.now.instance.points) }
    ensures start { IfOk result (λ c. IsStartInOrder report.now c.start) }
    ensures journal { IfOk result (λ c. c.journal ≡ report.now.commits) }
    ensures core { IfOk result IsCore }
{
    let mut core = opening(alloc, report)?;
    let bad = replayed(&mut core, report.commits.as_slice())?;
    match bad {
        Some(_) => unreachable!(),
        None => Ok(core),
    }
}
