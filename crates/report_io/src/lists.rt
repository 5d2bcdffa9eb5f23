// Lists of commits and of numbers.
ghost use Rattle.std.specs.Prelude.{◌≡◌};

use journal_defs::Commit;
use std::marker::Model;

/// A list of commits, as it was made. Contracts see the list.
#[derive(Drop)]
pub struct CommitList {
    list: Vec<Commit>,
}

impl Model for CommitList {
    ghost use Rattle.std.specs.Prelude.{List};
    ghost use Rattle.journal_defs.specs.declared.commit.Commit.{Commit};

    ghost Value = { List Commit };

    ghost view = { λ a. a.list.items };
}

impl CommitList {
    /// The list as it is handed in.
    pub fn make(list: Vec<Commit>) -> CommitList
        ensures { result ≡ list.items }
    {
        CommitList { list }
    }

    /// The commits in their order.
    pub fn as_slice(&self) -> &[Commit]
        ensures { result.now ≡ self.now }
    {
        self.list.as_slice()
    }
}

/// A list of numbers of 32 bits, as it was made. Contracts see the list.
#[derive(Drop)]
pub struct Counts {
    list: Vec<u32>,
}

impl Model for Counts {
    ghost use Rattle.std.specs.Prelude.{ℕ, List};

    ghost Value = { List ℕ };

    ghost view = { λ a. a.list.items };
}

impl Counts {
    /// The list as it is handed in.
    pub fn make(list: Vec<u32>) -> Counts
        ensures { result ≡ list.items }
    {
        Counts { list }
    }

    /// The numbers in their order.
    pub fn as_slice(&self) -> &[u32]
        ensures { result.now ≡ self.now }
    {
        self.list.as_slice()
    }
}
