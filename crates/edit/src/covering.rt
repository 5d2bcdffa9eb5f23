// Whether claims ascend and cover what edits touch.
ghost use Rattle.std.specs.Prelude.{◌≡◌, ◌<◌, ◌^◌, nat_eq, length, MatchOption};
ghost use Rattle.journal_defs.specs.Edits.{is_end, touches};
ghost use Rattle.edit.specs.Plans.{RisesBelow, IsFirstFall, IsLeastUnclaimed, is_claimed as is_claimed_spec, are_touching};
ghost use Rattle.edit.specs.Lesser.{lesser as lesser_spec};

use journal_defs::{Claim, Edit};
use plane::Pair;

/// The least position of a claim whose vertex isn't greater than the one before, or none.
pub fn first_fall(claims: &[Claim]) -> Option<u32>
    requires { length claims.now < 2 ^ 32 }
    ensures { MatchOption result (RisesBelow claims.now (length claims.now)) (λ k. IsFirstFall claims.now k) }
{
    for k in 1..claims.len() {
        if claims[k].vertex <= claims[k - 1].vertex {
            return Some(k as u32);
        }
    }
    None
}

fn is_claimed(claims: &[Claim], v: u32) -> bool
    ensures { result ≡ is_claimed_spec claims.now v }
{
    claims.iter().any(|c| c.vertex == v)
}

fn lesser(a: Option<u32>, b: Option<u32>) -> Option<u32>
    ensures { result ≡ lesser_spec a b }
{
    match (a, b) {
        (None, b) => b,
        (Some(m), None) => Some(m),
        (Some(m), Some(n)) => { if n < m { Some(n) } else { Some(m) } }
    }
}

// The vertex, unless it has a claim.
fn unclaimed(claims: &[Claim], v: u32) -> Option<u32>
    ensures { IsLeastUnclaimed (λ w. nat_eq v w) claims.now result }
{
    if is_claimed(claims, v) { None } else { Some(v) }
}

// The least end of the pair without a claim, or none.
fn unclaimed_end(claims: &[Claim], e: Pair) -> Option<u32>
    ensures { IsLeastUnclaimed (is_end e) claims.now result }
{
    lesser(unclaimed(claims, e.lo()), unclaimed(claims, e.hi()))
}

// The least vertex that the edit touches and that has no claim, or none.
fn unclaimed_of(claims: &[Claim], edit: &Edit) -> Option<u32>
    ensures { IsLeastUnclaimed (touches edit.now) claims.now result }
{
    match edit {
        Edit::Drop(e) => unclaimed_end(claims, *e),
        Edit::Keep(e) => unclaimed_end(claims, *e),
        Edit::Flip { from, to } => lesser(unclaimed_end(claims, *from), unclaimed_end(claims, *to)),
    }
}

/// The least vertex that the edits touch and that has no claim, or none.
pub fn least_unclaimed(edits: &[Edit], claims: &[Claim]) -> Option<u32>
    ensures { IsLeastUnclaimed (are_touching edits.now) claims.now result }
{
    let mut least = None;
    for e in edits {
        least = lesser(least, unclaimed_of(claims, e));
    }
    least
}
