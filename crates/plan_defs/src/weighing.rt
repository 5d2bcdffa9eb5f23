// What edits keep and drop, by cost.
ghost use Rattle.std.specs.Prelude.{◌≡◌, ◌<◌, ◌≤◌, ◌*◌, ◌^◌, ◌↔◌, IsTrue, length};
ghost use Rattle.std.specs.List.{sum_by};
ghost use Rattle.plan_defs.specs.Plans.{kept_cost as kept_spec, dropped_cost as dropped_spec, IsNoDearer};

use cost_defs::Costs;
use journal_defs::Edit;

fn kept_cost(costs: &Costs, edit: &Edit) -> u32
    ensures cost { result ≡ kept_spec costs.now edit.now }
    ensures small { result ≤ 1000 }
{
    match *edit {
        Edit::Drop(_) => 0,
        Edit::Keep(e) => costs.of(e),
        Edit::Flip { from: _, to: _ } => 0,
    }
}

fn dropped_cost(costs: &Costs, edit: &Edit) -> u32
    ensures cost { result ≡ dropped_spec costs.now edit.now }
    ensures small { result ≤ 1000 }
{
    match *edit {
        Edit::Drop(e) => costs.of(e),
        Edit::Keep(_) => 0,
        Edit::Flip { from: _, to: _ } => 0,
    }
}

fn kept_total(costs: &Costs, edits: &[Edit]) -> u64
    requires { length edits.now < 2 ^ 32 }
    ensures { result ≡ sum_by (kept_spec costs.now) edits.now }
{
    let mut sum = 0;
    for e in edits {
        sum += u64::from(kept_cost(costs, e));
    }
    sum
}

fn dropped_total(costs: &Costs, edits: &[Edit]) -> u64
    requires { length edits.now < 2 ^ 32 }
    ensures { result ≡ sum_by (dropped_spec costs.now) edits.now }
{
    let mut sum = 0;
    for e in edits {
        sum += u64::from(dropped_cost(costs, e));
    }
    sum
}

/// Whether the pairs that the edits keep don't cost more than those that they drop.
pub fn is_no_dearer(costs: &Costs, edits: &[Edit]) -> bool
    requires { length edits.now < 2 ^ 32 }
    ensures { IsTrue result ↔ IsNoDearer costs.now edits.now }
{
    kept_total(costs, edits) <= dropped_total(costs, edits)
}
