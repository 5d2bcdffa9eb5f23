// The fourth line: a journal with its start.
ghost use Rattle.std.specs.Prelude.{◌≡◌, ◌≤◌, map, length, option_map};
ghost use Rattle.serde_json.specs.View.{view};
ghost use Rattle.text_defs.specs.Steps.{or_fault};
ghost use Rattle.text_defs.specs.Fields.{array_at};
ghost use Rattle.instance_io.specs.Refusal.{ends};
ghost use Rattle.report_io.specs.Answers.{Answers, IsOr, tell_pairs, tell_commits, tell_journal};
ghost use Rattle.report_io.specs.Reading.{journal_in, journal_from, start_of, start_pairs, commit_items, most_start, most_commits};

use crate::commits::commit_of;
use crate::edits::pair_in;
use crate::faults::{JournalLine, ReportFault};
use crate::lines::line_value;
use crate::lists::CommitList;
use journal_defs::Commit;
use json_text::{array_at, array_of};
use plane::{Pair, PairList};
use serde_json::Value;
use std::alloc::Global;

const MOST_START: usize = 20_000;

const MOST_COMMITS: usize = 200_000;

// A journal with its start.
#[derive(Drop)]
pub(crate) struct StartedJournal {
    pub(crate) start: PairList,
    pub(crate) commits: CommitList,
}

// The journal of a line, over n points.
pub(crate) fn read_journal(
    alloc: Global,
    bytes: &[u8],
    n: u32,
) -> Result<StartedJournal, ReportFault>
    ensures { Answers tell_journal (journal_from n bytes.now) result }
{
    match line_value(alloc, bytes, ReportFault::Journal(JournalLine::NotJson)) {
        Ok(value) => journal_of(alloc, &value, n),
        Err(fault) => Err(fault),
    }
}

// The journal that a value is.
fn journal_of(alloc: Global, value: &Value, n: u32) -> Result<StartedJournal, ReportFault>
    ensures { Answers tell_journal (journal_in n (view value.now)) result }
{
    let Some(items) = array_at(value, "start") else {
        return Err(ReportFault::Journal(JournalLine::NoStart));
    };
    let start = match start_in(alloc, items, n) {
        Ok(start) => start,
        Err(fault) => return Err(fault),
    };
    let Some(items) = array_at(value, "commits") else {
        return Err(ReportFault::Journal(JournalLine::NoCommits));
    };
    match commits_in(alloc, items, n) {
        Ok(commits) => Ok(StartedJournal {
            start: PairList::make(start),
            commits: CommitList::make(commits),
        }),
        Err(fault) => Err(fault),
    }
}

// The pairs of the items of a start, or their first fault.
fn start_in(alloc: Global, items: &[Value], n: u32) -> Result<Vec<Pair>, ReportFault>
    ensures { Answers tell_pairs (start_pairs n (map view items.now)) result }
{
    if items.len() > MOST_START {
        return Err(too_many_start(items.len()));
    }
    pairs_of(alloc, items, n)
}

// The fault of a start of so many pairs; a number past 32 bits is taken as a want of memory.
fn too_many_start(count: usize) -> ReportFault
    ensures { IsOr (ReportFault.Journal (JournalLine.TooManyStart count)) result }
{
    match u32::try_from(count) {
        Ok(count) => ReportFault::Journal(JournalLine::TooManyStart(count)),
        Err(_) => ReportFault::NoMemory,
    }
}

// The pair that an item of a start is.
fn start_of(item: &Value, n: u32) -> Option<Pair>
    ensures { option_map ends result ≡ start_of n (view item.now) }
{
    let items = array_of(item)?;
    if items.len() == 2 {
        pair_in(&items[0], &items[1], n)
    } else {
        None
    }
}

// The pairs of at most 20,000 items in their order, or the fault of the first that is no pair.
fn pairs_of(alloc: Global, items: &[Value], n: u32) -> Result<Vec<Pair>, ReportFault>
    requires { length items.now ≤ most_start }
    ensures { Answers tell_pairs (start_pairs n (map view items.now)) result }
{
    let Ok(mut pairs) = Vec::with_capacity(alloc, items.len()) else {
        return Err(ReportFault::NoMemory);
    };
    for (place, item) in items.iter().enumerate() {
        let Some(pair) = start_of(item, n) else {
            return Err(ReportFault::Journal(JournalLine::BadStart(place as u32)));
        };
        let Ok(_) = pairs.push(pair) else {
            return Err(ReportFault::NoMemory);
        };
    }
    Ok(pairs)
}

// The commits of the items of a journal, or their first fault.
fn commits_in(alloc: Global, items: &[Value], n: u32) -> Result<Vec<Commit>, ReportFault>
    ensures { Answers tell_commits (commit_items n (map view items.now)) result }
{
    if items.len() > MOST_COMMITS {
        return Err(too_many_commits(items.len()));
    }
    commits_of(alloc, items, n)
}

// The fault of so many commits; a number past 32 bits is taken as a want of memory.
fn too_many_commits(count: usize) -> ReportFault
    ensures { IsOr (ReportFault.Journal (JournalLine.TooManyCommits count)) result }
{
    match u32::try_from(count) {
        Ok(count) => ReportFault::Journal(JournalLine::TooManyCommits(count)),
        Err(_) => ReportFault::NoMemory,
    }
}

// The commits of at most 200,000 items in their order, or the fault of the first that is no commit.
fn commits_of(alloc: Global, items: &[Value], n: u32) -> Result<Vec<Commit>, ReportFault>
    requires { length items.now ≤ most_commits }
    ensures { Answers tell_commits (commit_items n (map view items.now)) result }
{
    let Ok(mut commits) = Vec::with_capacity(alloc, items.len()) else {
        return Err(ReportFault::NoMemory);
    };
    for (place, item) in items.iter().enumerate() {
        let Some(commit) = commit_of(item, n) else {
            return Err(ReportFault::Journal(JournalLine::BadCommit(place as u32)));
        };
        let Ok(_) = commits.push(commit) else {
            return Err(ReportFault::NoMemory);
        };
    }
    Ok(commits)
}
