ghost use Rattle.std.specs.Prelude.{◌≡◌, ◌+◌, ◌-◌, ◌<◌, ◌≤◌, ◌↔◌, [], ◌∷◌, ◌++◌, length, vec_len, vec_capacity};
ghost use Rattle.std.specs.Prelude.{IfOk, IfErr, OnOk, OnErr, IsSome, IsTrue};
ghost use Rattle.partition_defs.specs.Ascending.{IsAscending};
ghost use Rattle.partition_defs.specs.Triangulation.{IsTriangulation};
ghost use Rattle.partition_defs.specs.Sets.{IsMinimal};
ghost use Rattle.star.specs.StarOf.{IsStarOf};
ghost use Rattle.subdivision.specs.Layout.{IsSubdivision, star_or_none};
ghost use Rattle.journal_defs.specs.Edits.{IsLegalDrop};
ghost use Rattle.journal_defs.specs.Journal.{IsLegalJournal, drops, made, replay};
ghost use Rattle.journal_defs.specs.Table.{seen_of};
ghost use Rattle.replay.specs.Replayed.{Replayed, state_of, IsCore, GrowsBy, IsAsBefore};
ghost use Rattle.replay.specs.Applied.{AreWithin, IsInSequence, IsNext, IsRefused};
ghost use Rattle.replay.specs.Machine.{AreCounts};
ghost use Rattle.replay.specs.Swept.{IsSweptOut, IsSweptInPart};
ghost use Rattle.replay.specs.Tried.{HasTried};

use crate::changing::change;
use crate::counts::Counts;
use crate::editing::{can_make, perform};
use crate::fault::ApplyFault;
use journal_defs::{Commit, Edit, EditList};
use mcp_outside::NoMemory;
use plane::{Pair, Points};
use star::{Star, Stars};
use std::marker::Model;
use subdivision::Subdivision;

/// The most commits of a journal.
pub const MOST_COMMITS: usize = 4_294_967_295;

/// The greatest number of a caller that may append to a core. Caller 0 is the core's own sweep.
pub const MOST_CALLER: u32 = 16;

/// A journal from a start, with the subdivision that is its replay. Contracts see the points, the start, the journal and
/// for how many more commits there is room; the segments and the kept ones are those of the replay.
#[derive(Drop)]
pub struct Core {
    points: Points,
    start: Vec<Pair>,
    all: Subdivision,
    journal: Vec<Commit>,
    counts: Counts,
}

impl Model for Core {
    ghost use Rattle.std.specs.Prelude.{◌-◌, vec_len, vec_capacity};
    ghost use Rattle.replay.specs.Replayed.{Replayed};
    ghost use Rattle.replay.specs.Machine.{IsMachine};

    ghost Value = { Replayed };

    ghost view = { λ a. record {
      points = a.points;
      start = a.start.items;
      journal = a.journal.items;
      spare = vec_capacity a.journal - vec_len a.journal;
    } };

    ghost invariant = { λ a. IsMachine a.points a.start.items a.journal.items a.all a.counts };
}

impl Core {
    /// The core of a subdivision whose segments are all kept: they are its start, and its journal is empty. Without memory
    /// all is handed back.
    pub fn make(points: Points, all: Subdivision) -> Result<Core, (Points, Subdivision, NoMemory)>
        requires points { all.points ≡ points }
        requires kept { all.kept ≡ all.all }
        ensures points { IfOk result (λ c. c.points ≡ points) }
        ensures start { IfOk result (λ c. c.start ≡ all.all) }
        ensures journal { IfOk result (λ c. c.journal ≡ []) }
        ensures core { IfOk result IsCore }
        ensures refused { IfErr result (λ back. (back.0 ≡ points) × (back.1 ≡ all)) }
    {
        let _count = points.len();
        let start = match all.pairs() {
            Ok(start) => start,
            Err(fault) => return Err((points, all, fault)),
        };
        let journal = Vec::new(*start.allocator());
        Ok(Core {
            points,
            start,
            all,
            journal,
            counts: Counts::none(),
        })
    }

    /// The core of these points, this start, this journal and the subdivision that is its replay.
    pub fn from_parts(
        points: Points,
        start: Vec<Pair>,
        journal: Vec<Commit>,
        all: Subdivision,
    ) -> Core
        requires ascending { IsAscending start.items }
        requires triangulation { IsTriangulation points start.items }
        requires legal { IsLegalJournal points start.items journal.items }
        requires few { length journal.items ≤ MOST_COMMITS }
        requires points { all.points ≡ points }
        requires all { all.all ≡ (replay start.items journal.items).all }
        requires kept { all.kept ≡ (replay start.items journal.items).kept }
        ensures points { result.points ≡ points }
        ensures start { result.start ≡ start.items }
        ensures journal { result.journal ≡ journal.items }
        ensures room { result.spare ≡ vec_capacity journal - vec_len journal }
        ensures core { IsCore result }
    {
        let _count = points.len();
        let all = again(&points, all);
        let counts = Counts::of(&journal);
        Core {
            points,
            start,
            all,
            journal,
            counts,
        }
    }

    /// The points, the start, the journal, and the subdivision that is its replay.
    pub fn into_parts(self) -> (Points, Vec<Pair>, Vec<Commit>, Subdivision)
        ensures points { result.0 ≡ self.points }
        ensures start { result.1.items ≡ self.start }
        ensures journal { result.2.items ≡ self.journal }
        ensures room { vec_len result.2 + self.spare ≤ vec_capacity result.2 }
        ensures of { result.3.points ≡ self.points }
        ensures all { result.3.all ≡ (state_of self).all }
        ensures kept { result.3.kept ≡ (state_of self).kept }
        ensures core { IsCore self }
    {
        let _count = self.points.len();
        (self.points, self.start, self.journal, self.all)
    }

    /// The points.
    pub fn points(&self) -> &Points
        ensures points { result.now ≡ self.now.points }
        ensures core { IsCore self.now }
    {
        let _count = self.points.len();
        &self.points
    }

    /// The segments at the start, ascending.
    pub fn start(&self) -> &[Pair]
        ensures start { result.now ≡ self.now.start }
        ensures core { IsCore self.now }
    {
        let _count = self.points.len();
        self.start.as_slice()
    }

    /// The star of a vertex now.
    pub fn star(&self, v: u32) -> &Star
        requires { v < length self.now.points }
        ensures star { IsStarOf self.now.points (state_of self.now).all (state_of self.now).kept v result.now }
        ensures core { IsCore self.now }
    {
        let _count = self.points.len();
        star_in(&self.all, v)
    }

    /// The commits so far, in their order.
    pub fn journal(&self) -> &[Commit]
        ensures journal { result.now ≡ self.now.journal }
        ensures core { IsCore self.now }
    {
        let _count = self.points.len();
        self.journal.as_slice()
    }

    /// How many commits the caller has made.
    pub fn count(&self, caller: u32) -> u32
        ensures count { result ≡ made caller self.now.journal }
        ensures core { IsCore self.now }
    {
        let _count = self.points.len();
        self.counts.count(&self.journal, caller)
    }

    /// The kept segments, ascending.
    pub fn kept(&self) -> Result<Vec<Pair>, NoMemory>
        ensures kept { IfOk result (λ list. list.items ≡ (state_of self.now).kept) }
        ensures core { IsCore self.now }
    {
        let _count = self.points.len();
        self.all.kept_pairs()
    }

    /// Makes room for so many more commits.
    pub fn room(&mut self, more: u32) -> Result<(), NoMemory>
        ensures room { OnOk result (more ≤ self.new.spare) }
        ensures only { OnErr result (self.old.spare < more) }
        ensures unchanged { IsAsBefore self.old self.new }
        ensures core { IsCore self.new }
    {
        let _count = self.points.len();
        self.journal.reserve(more as usize)?;
        Ok(())
    }

    /// Takes a commit whose number is its caller's next one and whose edits are legal in their turn, and answers its number
    /// in the journal. Where the commit is refused, all is as it was: edits that were made already are undone. With room for
    /// it, a commit without a flip takes no memory.
    pub fn apply(&mut self, commit: Commit) -> Result<u64, ApplyFault>
        requires caller { commit.caller ≤ MOST_CALLER }
        requires within { AreWithin (length self.old.points) commit.edits }
        requires few { length self.old.journal < MOST_COMMITS }

        ensures accepted { OnOk result (IsNext self.old commit) }
        ensures entered { OnOk result (GrowsBy self.old self.new (commit ∷ [])) }
        ensures number { IfOk result (λ number. number ≡ length self.new.journal) }

        ensures refused { IfErr result (IsRefused self.old commit) }
        ensures unchanged { OnErr result (IsAsBefore self.old self.new) }

        ensures core { IsCore self.new }
    {
        let _count = self.points.len();
        let wanted = self.count(commit.caller) + 1;
        if commit.seq != wanted {
            return Err(ApplyFault::WrongSeq { wanted });
        }
        if let Err(_) = self.room(1) {
            return Err(ApplyFault::NoMemory);
        }
        self.take(commit)
    }

    // Takes the next commit of its caller, if its edits are legal.
    fn take(&mut self, commit: Commit) -> Result<u64, ApplyFault>
        requires sequence { IsInSequence self.old commit }
        requires within { AreWithin (length self.old.points) commit.edits }
        requires few { length self.old.journal < MOST_COMMITS }
        requires room { 1 ≤ self.old.spare }
        ensures accepted { OnOk result (IsNext self.old commit) }
        ensures entered { OnOk result (GrowsBy self.old self.new (commit ∷ [])) }
        ensures number { IfOk result (λ number. number ≡ length self.new.journal) }
        ensures refused { IfErr result (IsRefused self.old commit) }
        ensures unchanged { OnErr result (IsAsBefore self.old self.new) }
        ensures core { IsCore self.new }
    {
        let _count = self.points.len();
        perform(&mut self.all, &self.points, &commit.edits)?;
        enter(&mut self.journal, &mut self.counts, commit);
        Ok(self.journal.len() as u64)
    }

    /// Goes through the kept segments in ascending order, and drops each that can go at its moment, in a commit of caller 0.
    /// It answers how many went; then none can go. Without memory the commits so far stand.
    pub fn sweep(&mut self) -> Result<u32, NoMemory>
        requires few { length self.old.journal + length (state_of self.old).kept ≤ MOST_COMMITS }
        ensures swept { IfOk result (IsSweptOut self.old self.new) }
        ensures minimal { OnOk result (IsMinimal self.new.points (state_of self.new).kept) }
        ensures stopped { OnErr result (IsSweptInPart self.old self.new) }
        ensures core { IsCore self.new }
    {
        let kept = self.kept()?;
        self.drop_all(&kept)
    }

    // Goes through the kept segments.
    fn drop_all(&mut self, kept: &[Pair]) -> Result<u32, NoMemory>
        requires core { IsCore self.old }
        requires kept { kept.now ≡ (state_of self.old).kept }
        requires few { length self.old.journal + length kept.now ≤ MOST_COMMITS }
        ensures swept { IfOk result (IsSweptOut self.old self.new) }
        ensures minimal { OnOk result (IsMinimal self.new.points (state_of self.new).kept) }
        ensures stopped { OnErr result (IsSweptInPart self.old self.new) }
        ensures core { IsCore self.new }
    {
        let mut dropped = 0;
        for e in kept {
            dropped += self.try_drop(*e)?;
        }
        Ok(dropped)
    }

    // Drops the pair in a commit of caller 0, where that is legal. It answers how many commits that were.
    fn try_drop(&mut self, e: Pair) -> Result<u32, NoMemory>
        requires within { e.hi < length self.old.points }
        requires few { length self.old.journal < MOST_COMMITS }
        ensures dropped { IfOk result (HasTried self.old self.new e) }
        ensures one { IfOk result (λ count. count ≤ 1) }
        ensures unchanged { OnErr result (IsAsBefore self.old self.new) }
        ensures core { IsCore self.new }
    {
        if !self.can_drop(e) {
            return Ok(0);
        }
        self.room(1)?;
        self.drop_pair(e);
        Ok(1)
    }

    // Whether the drop of the pair is legal.
    fn can_drop(&self, e: Pair) -> bool
        requires { e.hi < length self.now.points }
        ensures legal { IsTrue result ↔ IsLegalDrop self.now.points (state_of self.now) e }
        ensures core { IsCore self.now }
    {
        let _count = self.points.len();
        can_make(&self.all, &self.points, &Edit::Drop(e))
    }

    // Drops the pair in a commit of caller 0.
    fn drop_pair(&mut self, e: Pair)
        requires legal { IsLegalDrop self.old.points (state_of self.old) e }
        requires within { e.hi < length self.old.points }
        requires few { length self.old.journal < MOST_COMMITS }
        requires room { 1 ≤ self.old.spare }
        ensures grows { GrowsBy self.old self.new (drops (made 0 self.old.journal) (e ∷ [])) }
        ensures core { IsCore self.new }
    {
        let _count = self.points.len();
        change(&mut self.all, &self.points, &Edit::Drop(e));
        let seq = self.counts.count(&self.journal, 0) + 1;
        enter(&mut self.journal, &mut self.counts, drop_commit(seq, e));
    }
}

// The commit of caller 0 that drops a pair.
fn drop_commit(seq: u32, e: Pair) -> Commit
    ensures { result ≡ record { caller = 0; seq = seq; edits = Edit.Drop e ∷ [] } }
{
    Commit {
        caller: 0,
        seq,
        edits: EditList::make(&[Edit::Drop(e)]),
    }
}

// The same subdivision again, of which then is known what is true of every subdivision.
fn again(points: &Points, all: Subdivision) -> Subdivision
    requires { all.points ≡ points.now }
    ensures points { result.points ≡ points.now }
    ensures all { result.all ≡ all.all }
    ensures kept { result.kept ≡ all.kept }
    ensures subdivision { IsSubdivision result }
{
    let stars = all.into_stars();
    Subdivision::from_stars(points, stars)
}

// The star that a subdivision has for a vertex.
fn star_in(all: &Subdivision, v: u32) -> &Star
    requires { IsSome (star_or_none all.now.stars v) }
    ensures { result.now ≡ seen_of (λ u. star_or_none all.now.stars u) v }
{
    all.star(v).unwrap()
}

// Puts a commit at the end of a journal that has room for it, and counts it.
fn enter(journal: &mut Vec<Commit>, counts: &mut Counts, commit: Commit)
    requires room { vec_len journal.old + 1 ≤ vec_capacity journal.old }
    requires few { length journal.old.items < MOST_COMMITS }
    requires counts { AreCounts journal.old.items counts.old }
    ensures journal { journal.new.items ≡ journal.old.items ++ commit ∷ [] }
    ensures counts { AreCounts journal.new.items counts.new }
{
    counts.add(commit.caller);
    let Ok(()) = journal.push(commit) else {
        unreachable!()
    };
}
