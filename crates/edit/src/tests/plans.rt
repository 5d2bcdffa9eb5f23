use crate::{BadPlan, Claim, Edit, Plan};
use plane::Pair;

const NO_CLAIM: Claim = Claim {
    vertex: 0,
    stamp: 0,
};

fn claim(vertex: u32) -> Claim {
    Claim { vertex, stamp: 0 }
}

// The faults are tried in their order; the first one, with its place, is answered.
#[test]
fn a_plan_is_covered_and_ascending(rt: HostRuntime) {
    let drop = Edit::Drop(Pair::of(1, 3));
    assert_eq!(rt; Plan::make(&[], &[]).err(), Some(BadPlan::Empty));
    assert_eq!(rt;
        Plan::make(&[drop], &[NO_CLAIM; 17]).err(),
        Some(BadPlan::TooLong)
    );
    assert_eq!(rt;
        Plan::make(&[drop; 9], &[claim(1), claim(3)]).err(),
        Some(BadPlan::TooLong)
    );
    assert_eq!(rt;
        Plan::make(&[drop], &[claim(2), claim(1)]).err(),
        Some(BadPlan::NotAscending(1))
    );
    assert_eq!(rt;
        Plan::make(&[drop], &[claim(1), claim(1)]).err(),
        Some(BadPlan::NotAscending(1))
    );
    assert_eq!(rt;
        Plan::make(&[drop], &[claim(1)]).err(),
        Some(BadPlan::NotCovered(3))
    );
    assert_eq!(rt;
        Plan::make(&[drop], &[claim(3)]).err(),
        Some(BadPlan::NotCovered(1))
    );
    let flip = Edit::Flip {
        from: Pair::of(1, 3),
        to: Pair::of(0, 4),
    };
    let ends = [claim(1), claim(3), claim(4)];
    assert_eq!(rt;
        Plan::make(&[drop, flip], &ends).err(),
        Some(BadPlan::NotCovered(0))
    );
}

#[test]
fn a_plan_keeps_its_edits_and_claims(rt: HostRuntime) {
    let edits = [Edit::Drop(Pair::of(1, 3)), Edit::Keep(Pair::of(1, 3))];
    let claims = [claim(0), claim(1), claim(3)];
    match Plan::make(&edits, &claims) {
        Ok(plan) => {
            assert_eq!(rt; plan.edits(), edits.as_slice());
            assert_eq!(rt; plan.claims(), claims.as_slice());
        }
        Err(_) => assert!(rt; false),
    }
}
