// Costs in small.
use super::*;
use plane::Pair;
use std::alloc::Global;
use std::process::Abort;
use std::test::Fail;

// A list of pairs with costs.
fn listed(
    rt: &impl Abort,
    alloc: Global,
    items: &[(u32, u32, u32)],
) -> Result<Vec<(Pair, u32)>, Fail> {
    let mut list = Vec::new(alloc);
    for (i, j, c) in items {
        assert!(rt; *i != *j);
        list.push((Pair::of(*i, *j), *c))?;
    }
    Ok(list)
}

#[test]
fn a_pair_costs_what_is_listed_and_else_1(rt: HostRuntime) -> Result<(), Fail> {
    let list = listed(&rt, rt.alloc(), &[(0, 1, 0), (0, 4, 1_000), (2, 3, 7)])?;
    assert!(rt; are_costs(list.as_slice()));
    let costs = Costs::make(list);
    let rows = listed(
        &rt,
        rt.alloc(),
        &[
            (1, 0, 0),
            (0, 2, 1),
            (4, 0, 1_000),
            (3, 2, 7),
            (3, 4, 1),
            (8, 9, 1),
        ],
    )?;
    let mut pairs = Vec::new(rt.alloc());
    for (e, c) in rows.as_slice() {
        assert_eq!(rt; costs.of(*e), *c);
        pairs.push(*e)?;
    }
    assert!(rt; pairs.len() <= 13_000_000);
    assert_eq!(rt; costs.total(pairs.as_slice()), 1_010);
    assert_eq!(rt; costs.list().len(), 3);
    Ok(())
}

#[test]
fn each_pair_costs_1_where_none_is_listed(rt: HostRuntime) -> Result<(), Fail> {
    let costs = Costs::unit();
    assert_eq!(rt; costs.of(Pair::of(3, 2)), 1);
    assert_eq!(rt; costs.total(&[Pair::of(3, 2), Pair::of(0, 2)]), 2);
    assert_eq!(rt; costs.list().len(), 0);
    Ok(())
}

#[test]
fn a_list_of_costs_is_ascending_and_within_the_limit(rt: HostRuntime) -> Result<(), Fail> {
    let rows: [(&[(u32, u32, u32)], bool); 7] = [
        (&[], true),
        (&[(0, 1, 1_000), (1, 2, 0)], true),
        (&[(0, 1, 1_001)], false),
        (&[(0, 1, 1)], false),
        (&[(0, 1, 2), (0, 1, 3)], false),
        (&[(0, 1, 2), (1, 0, 2)], false),
        (&[(0, 2, 2), (0, 1, 3)], false),
    ];
    for (items, right) in rows {
        let list = listed(&rt, rt.alloc(), items)?;
        assert_eq!(rt; are_costs(list.as_slice()), right);
    }
    Ok(())
}
