// Commands on a core, one after the other.
ghost use Rattle.std.specs.Prelude.{◌≡◌, ◌≤◌, [], All, IfOk, IfErr, OnErr, length};
ghost use Rattle.replay.specs.Replayed.{IsCore};
ghost use Rattle.edit_session.specs.Sessions.{IsCommandOf, HasPlayed, HasPlayedInPart};

use crate::answering::answer;
use crate::command::{EditCommand, Played, Reply, ReplyList};
use crate::desk::clear_desk;
use dual_prices::Costs;
use mcp_outside::NoMemory;
use replay::{Core, MOST_COMMITS};
use std::alloc::Global;

fn play(
    alloc: Global,
    core: &mut Core,
    costs: &Costs,
    commands: &[EditCommand],
) -> Result<Vec<Reply>, NoMemory>
    requires empty { core.old.journal ≡ [] }
    requires commands { All (IsCommandOf (length core.old.points)) commands.now }
    requires few { length commands.now ≤ MOST_COMMITS }
    ensures played { IfOk result (λ replies. HasPlayed core.old core.new costs.now commands.now replies.items) }
    ensures stopped { OnErr result (HasPlayedInPart core.old core.new costs.now commands.now) }
    ensures core { IsCore core.new }
{
    let count = core.points().len() as usize;
    let mut desk = clear_desk(alloc, count)?;
    let mut replies = Vec::with_capacity(alloc, commands.len())?;
    for command in commands {
        let reply = answer(alloc, core, &mut desk, costs, command)?;
        replies.push(reply)?;
    }
    Ok(replies)
}

/// Plays the commands in their order on a core with an empty journal. A look is replied with the star of its vertex now
/// and the number of the last commit that touched it. A commit is refused with the first edit that isn't legal in its
/// turn, and then nothing changes; else it is caller 1's next one, and its number is replied. An undo takes the last
/// commit back that isn't taken back yet, by a commit of caller 1, whose number is replied, or there is nothing to take
/// back. A bound is replied with the value of the raised floor certificate and the cost of the kept segments. Without
/// memory the core is that after the first commands, and is handed back.
pub fn session(
    alloc: Global,
    core: Core,
    costs: &Costs,
    commands: &[EditCommand],
) -> Result<Played, (Core, NoMemory)>
    requires empty { core.journal ≡ [] }
    requires commands { All (IsCommandOf (length core.points)) commands.now }
    requires few { length commands.now ≤ MOST_COMMITS }
    ensures played { IfOk result (λ played. HasPlayed core played.core costs.now commands.now played.replies) }
    ensures core { IfOk result (λ played. IsCore played.core) }
    ensures stopped { IfErr result (λ back. HasPlayedInPart core back.0 costs.now commands.now) }
    ensures back { IfErr result (λ back. IsCore back.0) }
{
    let mut core = core;
    match play(alloc, &mut core, costs, commands) {
        Ok(replies) => Ok(Played {
            core,
            replies: ReplyList::make(replies),
        }),
        Err(fault) => Err((core, fault)),
    }
}
