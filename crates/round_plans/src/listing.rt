// The neighbours of a star, by their marks and in the order in which a round goes through them.
ghost use Rattle.std.specs.Prelude.{◌≡◌, ◌≢◌, ◌≤◌, ◌++◌, [], ◌∷◌, length, slice_range, OnOk};
ghost use Rattle.std.specs.List.{AllByRecursion};
ghost use Rattle.round_defs.specs.Candidates.{turned, pairs_at};
ghost use Rattle.round_plans.specs.Listed.{marked, names};

use crate::walking::pair_to;
use mcp_outside::NoMemory;
use plane::Pair;
use star::Star;

// Adds a neighbour, where it has this mark.
fn push_one(neighbour: (u32, bool), kept: bool, out: &mut Vec<u32>) -> Result<(), NoMemory>
    ensures { OnOk result (out.new.items ≡ out.old.items ++ names (marked kept (neighbour ∷ []))) }
{
    let (q, is_kept) = neighbour;
    if kept != is_kept {
        return Ok(());
    }
    out.push(q)?;
    Ok(())
}

// Adds the pair to a neighbour, where it has this mark.
fn push_pair(
    centre: u32,
    neighbour: (u32, bool),
    kept: bool,
    out: &mut Vec<Pair>,
) -> Result<(), NoMemory>
    requires { centre ≢ neighbour.0 }
    ensures { OnOk result (out.new.items ≡ out.old.items ++ pairs_at centre (marked kept (neighbour ∷ []))) }
{
    let (q, is_kept) = neighbour;
    if kept != is_kept {
        return Ok(());
    }
    out.push(pair_to(centre, q))?;
    Ok(())
}

// Adds the neighbours with this mark from the position k on and before the end.
fn push_between(
    star: &Star,
    k: u32,
    end: u32,
    kept: bool,
    out: &mut Vec<u32>,
) -> Result<(), NoMemory>
    requires order { k ≤ end }
    requires end { end ≤ length star.now.list }
    requires apart { AllByRecursion (λ q. star.now.centre ≢ q) out.old.items }
    ensures names { OnOk result (out.new.items ≡ out.old.items ++ names (marked kept (slice_range star.now.list k end))) }
    ensures apart { OnOk result (AllByRecursion (λ q. star.now.centre ≢ q) out.new.items) }
{
    for j in k..end {
        push_one(star.at(j), kept, out)?;
    }
    Ok(())
}

/// The neighbours with this mark, cyclically from the position k on.
pub fn list_turned(star: &Star, k: u32, kept: bool, out: &mut Vec<u32>) -> Result<(), NoMemory>
    requires { k ≤ length star.now.list }
    ensures names { OnOk result (out.new.items ≡ names (marked kept (turned k star.now.list))) }
    ensures apart { OnOk result (AllByRecursion (λ q. star.now.centre ≢ q) out.new.items) }
{
    out.clear();
    let end = star.degree();
    push_between(star, k, end, kept, out)?;
    push_between(star, 0, k, kept, out)
}

/// Adds the pairs from the centre to the neighbours with this mark.
pub fn push_pairs(star: &Star, kept: bool, out: &mut Vec<Pair>) -> Result<(), NoMemory>
    ensures { OnOk result (out.new.items ≡ out.old.items ++ pairs_at star.now.centre (marked kept star.now.list)) }
{
    for j in 0..star.degree() {
        push_pair(star.centre(), star.at(j), kept, out)?;
    }
    Ok(())
}
