ghost use Rattle.std.specs.Prelude.{◌≡◌, ◌≢◌, ◌^◌, ◌-◌, ◌<◌, ◌++◌, [], ◌∷◌, length, map};
ghost use Rattle.index_sets.specs.Indices.{numbers_from};
ghost use Rattle.chronicle.specs.History.{whole_share, caller_share};

use crate::{Chronicle, Entry, Share};
use std::test::Fail;

#[derive(Clone, Copy)]
struct Visit {
    caller: u32,
    place: u32,
}

impl Entry for Visit {
    ghost use Rattle.std.specs.Prelude.{nat_eq};

    ghost caller = { λ v. v.caller };

    ghost touches = { λ v place. nat_eq v.place place };

    fn caller(&self) -> u32 {
        self.caller
    }

    fn touches(&self, place: u32) -> bool {
        self.place == place
    }
}

// Takes all parts of a history of two over, enters a visit of place 0, and gives the parts away again.
fn enter(
    chronicle: &Chronicle<Visit>,
    parts: Share<Visit>,
    mine: &mut Share<Visit>,
    caller: u32,
) -> (Share<Visit>, u64)
    requires of { (parts.of ≡ chronicle.now) × (mine.old.of ≡ chronicle.now) }
    requires last { chronicle.now.last ≡ 1 }
    requires parts { (parts.caller ≡ 0) × (parts.parts ≡ 0 ∷ 1 ∷ []) }
    requires mine { (mine.old.caller ≡ caller) × (caller ≢ 0) × (mine.old.parts ≡ []) }
    requires room { (length parts.seen < 2 ^ 64 - 1) × (length mine.old.seen < 2 ^ 64 - 1) }
    ensures of { (result.0.of ≡ chronicle.now) × (mine.new.of ≡ chronicle.now) }
    ensures parts { (result.0.caller ≡ 0) × (result.0.parts ≡ 0 ∷ 1 ∷ []) }
    ensures mine { (mine.new.caller ≡ caller) × (mine.new.parts ≡ []) }
    ensures grown { mine.new.mine ≡ mine.old.mine ++ record { caller = caller; place = 0 } ∷ [] }
    ensures number { (result.1 ≡ length mine.new.seen) × (mine.new.seen ≡ result.0.seen) }
{
    chronicle.join_parts(mine, parts);
    let number = chronicle.append(mine, &Visit { caller, place: 0 });
    let last = chronicle.split_parts(mine, 1);
    let mut parts = chronicle.split_parts(mine, 0);
    chronicle.join_parts(&mut parts, last);
    (parts, number)
}

// Callers 1 and 2 enter visits by turns, and look.
fn enter_by_turns(
    chronicle: &Chronicle<Visit>,
    whole: Share<Visit>,
    mut shares: Vec<Share<Visit>>,
) -> [u64; 5]
    requires last { chronicle.now.last ≡ 1 }
    requires callers { chronicle.now.callers ≡ 2 }
    requires first { length chronicle.now.first < 9 }
    requires whole { whole ≡ whole_share chronicle.now }
    requires shares { shares.items ≡ map (caller_share ⟦<Visit as Entry>⟧.caller chronicle.now) (numbers_from 1 2) }
{
    let last = shares.pop();
    let Some(mut two) = last else { unreachable!() };
    let last = shares.pop();
    let Some(mut one) = last else { unreachable!() };
    let (mut parts, first) = enter(chronicle, whole, &mut one, 1);
    if chronicle.look_count(&mut parts) > 10 {
        return [0; 5];
    }
    let seen_by_two = chronicle.look_count(&mut two);
    let (mut parts, second) = enter(chronicle, parts, &mut two, 2);
    let seen_by_one = chronicle.look_count(&mut one);
    let seen_by_all = chronicle.look_count(&mut parts);
    [first, seen_by_two, second, seen_by_one, seen_by_all]
}

#[test]
fn entries_are_numbered_and_counted(rt: HostRuntime) -> Result<(), Fail> {
    let first = [Visit {
        caller: 2,
        place: 1,
    }];
    let (chronicle, whole, shares) = Chronicle::make(rt.alloc(), 2, 2, &first)?;
    assert_eq!(rt; enter_by_turns(&chronicle, whole, shares), [2, 2, 3, 3, 3]);
    Ok(())
}

#[test]
fn a_history_may_begin_with_nothing(rt: HostRuntime) -> Result<(), Fail> {
    let first: [Visit; 0] = [];
    let (chronicle, whole, shares) = Chronicle::make(rt.alloc(), 2, 2, &first)?;
    assert_eq!(rt; enter_by_turns(&chronicle, whole, shares), [1, 1, 2, 2, 2]);
    Ok(())
}
