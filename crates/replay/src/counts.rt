// How many commits each caller has made.
ghost use Rattle.std.specs.Prelude.{◌≡◌, ◌<◌, ◌≤◌, ◌++◌, [], ◌∷◌, length, List};
ghost use Rattle.journal_defs.specs.declared.commit.Commit.{Commit as TheCommit};
ghost use Rattle.journal_defs.specs.Journal.{made};
ghost use Rattle.replay.specs.Machine.{AreCounts};

use crate::machine::{MOST_CALLER, MOST_COMMITS};
use journal_defs::Commit;

const CALLERS: usize = 17;

/// The numbers of commits of the callers 0 to 16.
#[derive(Drop)]
pub struct Counts {
    counts: [u32; CALLERS],
}

impl Counts {
    /// Those of no commits.
    pub fn none() -> Counts
        ensures { AreCounts [] result }
    {
        Counts {
            counts: [0; CALLERS],
        }
    }

    /// Those of a journal.
    pub fn of(journal: &[Commit]) -> Counts
        requires { length journal.now ≤ MOST_COMMITS }
        ensures { AreCounts journal.now result }
    {
        let mut counts = Counts::none();
        for commit in journal {
            counts.add(commit.caller);
        }
        counts
    }

    /// Counts one more commit of the caller.
    pub fn add(&mut self, caller: u32)
        requires { (J : List TheCommit) × (length J < MOST_COMMITS) × AreCounts J self.old }
        ensures { (J : List TheCommit) (c : TheCommit) → c.caller ≡ caller
            → AreCounts J self.old → AreCounts (J ++ c ∷ []) self.new }
    {
        if caller <= MOST_CALLER {
            self.counts[caller as usize] += 1;
        }
    }

    /// How many of the journal's commits are the caller's. For callers above 16 it goes through the journal.
    pub fn count(&self, journal: &[Commit], caller: u32) -> u32
        requires few { length journal.now ≤ MOST_COMMITS }
        requires counts { AreCounts journal.now self.now }
        ensures { result ≡ made caller journal.now }
    {
        if caller <= MOST_CALLER {
            self.counts[caller as usize]
        } else {
            journal.iter().filter(|c| c.caller == caller).count() as u32
        }
    }
}
