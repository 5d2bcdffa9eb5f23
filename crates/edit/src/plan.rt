ghost use Rattle.std.specs.Prelude.{◌≡◌, ◌<◌, ◌≤◌, ◌^◌, length, MatchResult};

use crate::covering::{first_fall, least_unclaimed};
use arrayvec::ArrayVec;
use journal_defs::{Claim, Edit};
use std::marker::Model;

/// Why edits and claims are no plan.
#[derive(Clone, Copy, Debug, PartialEq, Eq)]
pub enum BadPlan {
    /// There is no edit.
    Empty,
    /// There are more than 8 edits or 16 claims.
    TooLong,
    /// The least position of a claim whose vertex isn't greater than the one before.
    NotAscending(u32),
    /// The least touched vertex without a claim.
    NotCovered(u32),
}

/// 1 to 8 edits to be made at once, with at most 16 claims on vertices, which ascend and among which are all that the edits
/// touch. Contracts see the two lists.
#[derive(Drop)]
pub struct Plan {
    edits: ArrayVec<Edit, 8>,
    claims: ArrayVec<Claim, 16>,
}

impl Model for Plan {
    ghost use Rattle.edit.specs.Plans.{Planned, IsPlan};

    ghost Value = { Planned };

    ghost view = { λ a. record { edits = a.edits.items; claims = a.claims.items } };

    ghost invariant = { λ a. IsPlan a.edits.items a.claims.items };
}

fn edits_of(edits: &[Edit]) -> ArrayVec<Edit, 8>
    requires { length edits.now ≤ 8 }
    ensures { result.items ≡ edits.now }
{
    let mut list = ArrayVec::new();
    for e in edits {
        list.push(*e);
    }
    list
}

fn claims_of(claims: &[Claim]) -> ArrayVec<Claim, 16>
    requires { length claims.now ≤ 16 }
    ensures { result.items ≡ claims.now }
{
    let mut list = ArrayVec::new();
    for c in claims {
        list.push(*c);
    }
    list
}

impl Plan {
    ghost use Rattle.edit.specs.Plans.{IsPlan};
    ghost use Rattle.edit.specs.BadPlans.{IsBadPlan};

    /// The plan with these edits and claims, or its first fault. (This project's own.)
    pub fn make(edits: &[Edit], claims: &[Claim]) -> Result<Plan, BadPlan>
        requires few_edits { length edits.now < 2 ^ 32 }
        requires few_claims { length claims.now < 2 ^ 32 }
        ensures plan { MatchResult result
            (λ plan. (plan.edits ≡ edits.now) × (plan.claims ≡ claims.now) × IsPlan edits.now claims.now)
            (λ bad. IsBadPlan edits.now claims.now bad) }
    {
        if edits.is_empty() {
            return Err(BadPlan::Empty);
        }
        if edits.len() > 8 || claims.len() > 16 {
            return Err(BadPlan::TooLong);
        }
        if let Some(k) = first_fall(claims) {
            return Err(BadPlan::NotAscending(k));
        }
        if let Some(v) = least_unclaimed(edits, claims) {
            return Err(BadPlan::NotCovered(v));
        }
        Ok(Plan {
            edits: edits_of(edits),
            claims: claims_of(claims),
        })
    }

    /// The edits in their order.
    pub fn edits(&self) -> &[Edit]
        ensures edits { result.now ≡ self.now.edits }
        ensures plan { IsPlan self.now.edits self.now.claims }
    {
        self.edits.as_slice()
    }

    /// The claims in their order, by vertex.
    pub fn claims(&self) -> &[Claim]
        ensures claims { result.now ≡ self.now.claims }
        ensures plan { IsPlan self.now.edits self.now.claims }
    {
        self.claims.as_slice()
    }
}
