//! A law of the plans of a round. It is a function that does nothing; its contract is the law.
ghost use Rattle.std.specs.Prelude.{ℕ, List};
ghost use Rattle.plane.specs.declared.coordinates.Point.{Point as ThePoint};
ghost use Rattle.cost_defs.specs.Costs.{Costed};
ghost use Rattle.plan_defs.specs.Plans.{Sight};
ghost use Rattle.round_defs.specs.Rounds.{ArePlans};
ghost use Rattle.round_plans.specs.declared.found.RoundPlans.{RoundPlans as ThePlans};
ghost use Rattle.round_plans.specs.Found.{AreRoundPlans, first_four};

/// The first four that there are are the plans of the round.
pub fn first_four_are_the_plans()
    ensures { (S : List ThePoint) (D : List Costed) (R : List Sight) (v k : ℕ) (p : ThePlans) → AreRoundPlans S D R v k p
        → ArePlans S D R v k (first_four p) }
{}
