// The lines that are printed of a session.
ghost use Rattle.std.specs.Prelude.{◌≡◌, ◌++◌, string_bytes, IfOk, OnOk};
ghost use Rattle.session_script.specs.Lines.{neighbour_text, neighbours_text, star_text, reply_line};
ghost use Rattle.session_script.specs.Lines.{session_fault_text, refused_line};

use crate::script::SessionFault;
use edit_session::Reply;
use fault_texts::instance_fault_text;
use star::Star;
use std::alloc::{AllocError, Global};
use weave_script::why_text;

// A neighbour, with an asterisk where it is kept.
fn neighbour_text(alloc: Global, w: u32, kept: bool) -> Result<String, AllocError>
    ensures { IfOk result (λ text. string_bytes text ≡ neighbour_text (w, kept)) }
{
    if kept {
        format!(in alloc; " {w}*")
    } else {
        format!(in alloc; " {w}")
    }
}

// The neighbours of a star in their order.
fn neighbours_text(alloc: Global, star: &Star) -> Result<String, AllocError>
    ensures { IfOk result (λ text. string_bytes text ≡ neighbours_text star.now.list) }
{
    let mut text = String::new(alloc);
    for k in 0..star.degree() {
        let (w, kept) = star.at(k);
        let neighbour = neighbour_text(alloc, w, kept)?;
        text.push_str(&neighbour)?;
    }
    Ok(text)
}

fn star_line(alloc: Global, star: &Star, stamp: u64) -> Result<String, AllocError>
    ensures { IfOk result (λ line. string_bytes line ≡ star_text star.now stamp) }
{
    let v = star.centre();
    let neighbours = neighbours_text(alloc, star)?;
    format!(in alloc; "star {v} stamp {stamp}{neighbours}\n")
}

/// The line of what a command is replied.
pub fn reply_line(alloc: Global, reply: &Reply) -> Result<String, AllocError>
    ensures { IfOk result (λ line. string_bytes line ≡ reply_line reply.now) }
{
    match reply {
        Reply::Seen { star, stamp } => star_line(alloc, star, *stamp),
        Reply::Commit(number) => format!(in alloc; "commit {number}\n"),
        Reply::Illegal { at, why } => {
            let why = why_text(alloc, *why)?;
            format!(in alloc; "illegal {at} {why}\n")
        }
        Reply::Nothing => format!(in alloc; "nothing\n"),
        Reply::Bound { value, cost } => format!(in alloc; "bound {value} cost {cost}\n"),
    }
}

fn session_fault_text(alloc: Global, fault: SessionFault) -> Result<String, AllocError>
    ensures { IfOk result (λ text. string_bytes text ≡ session_fault_text fault) }
{
    match fault {
        SessionFault::NotJson => format!(in alloc; "session NotJson"),
        SessionFault::NoInstance => format!(in alloc; "session NoInstance"),
        SessionFault::NoCommands => format!(in alloc; "session NoCommands"),
        SessionFault::Instance(fault) => {
            let text = instance_fault_text(alloc, fault)?;
            format!(in alloc; "instance {text}")
        }
        SessionFault::TooManyCommands(count) => {
            format!(in alloc; "session TooManyCommands {count}")
        }
        SessionFault::BadCommand(place) => format!(in alloc; "session BadCommand {place}"),
        SessionFault::NoMemory => format!(in alloc; "NoMemory"),
    }
}

/// The line of a text that is no session.
pub fn refused_line(alloc: Global, fault: SessionFault) -> Result<String, AllocError>
    ensures { IfOk result (λ line. string_bytes line ≡ refused_line fault) }
{
    let text = session_fault_text(alloc, fault)?;
    format!(in alloc; "refused {text}\n")
}
