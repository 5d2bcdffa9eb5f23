use edit::Plan;

/// The first plan of each kind, where there is one. Only the first four that there are, in this order, are handed in.
#[derive(Drop)]
pub struct RoundPlans {
    pub drop: Option<Plan>,
    pub swap: Option<Plan>,
    pub trade: Option<Plan>,
    pub flip_swap: Option<Plan>,
    pub flip: Option<Plan>,
}
