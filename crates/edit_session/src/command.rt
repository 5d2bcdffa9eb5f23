// Commands of a session, and what they are replied.
ghost use Rattle.std.specs.Prelude.{◌≡◌};

use journal_defs::{EditList, Why};
use replay::Core;
use star::Star;
use std::marker::Model;

/// A command of a session. (This project's own.)
#[derive(Drop)]
pub enum EditCommand {
    /// Shows the star of a vertex.
    Look(u32),
    /// Commits edits.
    Commit(EditList),
    /// Takes the last commit back that isn't taken back yet.
    Undo,
    /// Shows a lower bound, and what the kept segments cost.
    Bound,
}

/// What a command is replied.
#[derive(Drop)]
pub enum Reply {
    /// The star of the vertex, and the number of the last commit that touched it.
    Seen { star: Star, stamp: u64 },
    /// The commit stands in the journal at this position, counted from 1.
    Commit(u64),
    /// The edit at this position is the first that isn't legal in its turn, and why.
    Illegal { at: u32, why: Why },
    /// There is no commit to take back.
    Nothing,
    /// No convex partition costs less than the value; the kept segments cost so much.
    Bound { value: u64, cost: u64 },
}

/// A list of replies, as it was made. Contracts see the list.
#[derive(Drop)]
pub struct ReplyList {
    list: Vec<Reply>,
}

impl Model for ReplyList {
    ghost use Rattle.std.specs.Prelude.{List};
    ghost use Rattle.edit_session.specs.declared.command.Reply.{Reply};

    ghost Value = { List Reply };

    ghost view = { λ a. a.list.items };
}

impl ReplyList {
    /// The list as it is handed in.
    pub fn make(list: Vec<Reply>) -> ReplyList
        ensures { result ≡ list.items }
    {
        ReplyList { list }
    }

    /// The replies in their order.
    pub fn as_slice(&self) -> &[Reply]
        ensures { result.now ≡ self.now }
    {
        self.list.as_slice()
    }
}

/// A session that was played: the core after its commands, and their replies.
#[derive(Drop)]
pub struct Played {
    pub core: Core,
    pub replies: ReplyList,
}
