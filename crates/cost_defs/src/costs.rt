// The costs of an instance's pairs.
ghost use Rattle.std.specs.Prelude.{◌≡◌, ◌≢◌, ◌≤◌, ◌↔◌, [], length, IsTrue, All, AllPairs};
ghost use Rattle.cost_defs.specs.Costs.{cost, total, AreCosts, IsCostedBefore};

use plane::Pair;
use std::marker::Model;

/// The greatest cost of a pair. (This project's own limit.)
pub const MOST_COST: u32 = 1_000;

/// Whether a list may be the costs of an instance: ascending by pair, with no pair twice, each cost at most 1,000 and
/// not 1.
pub fn are_costs(list: &[(Pair, u32)]) -> bool
    ensures { IsTrue result ↔ AreCosts list.now }
{
    are_ascending(list) && are_listed(list)
}

fn are_ascending(list: &[(Pair, u32)]) -> bool
    ensures { IsTrue result ↔ AllPairs IsCostedBefore list.now }
{
    list.is_sorted_by(|x, y| x.0 < y.0)
}

// Whether each cost is one that is listed.
fn are_listed(list: &[(Pair, u32)]) -> bool
    ensures { IsTrue result ↔ All (λ x. (x.1 ≤ 1000) × (x.1 ≢ 1)) list.now }
{
    list.iter().all(|x| x.1 <= MOST_COST && x.1 != 1)
}

/// The costs of the pairs of an instance: 1 for each pair that isn't listed. Contracts see the list of the pairs whose
/// cost isn't 1, ascending, each with its cost, which is at most 1,000. (This project's own.)
#[derive(Drop)]
pub struct Costs {
    // None where no memory is held
    list: Option<Vec<(Pair, u32)>>,
}

impl Model for Costs {
    ghost use Rattle.std.specs.Prelude.{[], List};
    ghost use Rattle.std.specs.Option.{option_map_or};
    ghost use Rattle.cost_defs.specs.Costs.{Costed, AreCosts};

    ghost Value = { List Costed };

    ghost view = { λ a. option_map_or (λ v. v.items) a.list [] };

    ghost invariant = { λ a. AreCosts (option_map_or (λ v. v.items) a.list []) };
}

impl Costs {
    /// The costs of a list.
    pub fn make(list: Vec<(Pair, u32)>) -> Costs
        requires { AreCosts list.items }
        ensures { result ≡ list.items }
    {
        Costs { list: Some(list) }
    }

    /// Cost 1 for each pair.
    pub fn unit() -> Costs
        ensures { result ≡ [] }
    {
        Costs { list: None }
    }

    /// The cost of a pair.
    pub fn of(&self, e: Pair) -> u32
        ensures cost { result ≡ cost self.now e.lo e.hi }
        ensures within { result ≤ 1000 }
    {
        let list = self.list();
        match list.binary_search_by_key(&e, |x| x.0) {
            Ok(k) => list[k].1,
            Err(_) => 1,
        }
    }

    /// The sum of the costs of the listed pairs, a pair that stands twice counting twice.
    pub fn total(&self, pairs: &[Pair]) -> u64
        requires { length pairs.now ≤ 13000000 }
        ensures { result ≡ total self.now pairs.now }
    {
        let mut sum = 0;
        for e in pairs {
            sum += u64::from(self.of(*e));
        }
        sum
    }

    /// The pairs whose cost isn't 1, ascending, each with its cost.
    pub fn list(&self) -> &[(Pair, u32)]
        ensures list { result.now ≡ self.now }
        ensures costs { AreCosts self.now }
    {
        match &self.list {
            Some(list) => list.as_slice(),
            None => &[],
        }
    }
}
