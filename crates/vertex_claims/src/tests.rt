ghost use Rattle.std.specs.Prelude.{◌≡◌, ◌<◌, ◌≤◌, ◌+◌, [], All, length, map, IfOk, vec_len};
ghost use Rattle.index_sets.specs.Indices.{numbers_from};
ghost use Rattle.vertex_claims.specs.Holding.{new_holder, IsIdle, AreFitting};
ghost use Rattle.vertex_claims.specs.Trial.{IsAtWork};

use crate::{Claims, CloseFault, Held, Holder};
use std::alloc::{AllocError, Global};
use std::test::Fail;
use std::thread;
use std::thread::Threads;

const TURNS: u64 = 20_000;

// A cell that counts how often it was taken out. Its fact is that it knows its place.
#[derive(Drop)]
struct Counter {
    place: u32,
    count: u64,
}

impl Held for Counter {
    type Root = u32;

    ghost use Rattle.std.specs.Prelude.{◌≡◌};

    ghost fits = { λ _ place counter. counter.place ≡ place };
}

// What one thread works with: two places, and the numbers of tries that it won and lost.
#[derive(Drop)]
struct Worker {
    holder: Holder<Counter>,
    low: u32,
    high: u32,
    wins: u64,
    misses: u64,
}

// One turn: the lower place, and while it is held the higher one.
fn take_both(claims: &Claims<Counter>, worker: &mut Worker)
    requires { IsAtWork claims.now worker.old.holder worker.old.low worker.old.high worker.old.wins worker.old.misses }
    ensures { IsAtWork claims.now worker.new.holder worker.new.low worker.new.high worker.new.wins worker.new.misses }
{
    if worker.wins > 1_000_000 || worker.misses > 1_000_000 {
        return;
    }
    let low = worker.low;
    let high = worker.high;
    let Ok(mut counter) = claims.take(&mut worker.holder, low) else {
        worker.misses += 1;
        return;
    };
    worker.wins += 1;
    counter.count = counter.count.wrapping_add(1);
    if let Ok(mut other) = claims.take(&mut worker.holder, high) {
        worker.wins += 1;
        other.count = other.count.wrapping_add(1);
        claims.give_back(&mut worker.holder, high, other);
    } else {
        worker.misses += 1;
    }
    claims.give_back(&mut worker.holder, low, counter);
}

fn work(claims: &Claims<Counter>, worker: &mut Worker)
    requires { IsAtWork claims.now worker.old.holder worker.old.low worker.old.high worker.old.wins worker.old.misses }
    ensures { IsAtWork claims.now worker.new.holder worker.new.low worker.new.high worker.new.wins worker.new.misses }
{
    for _turn in 0..TURNS {
        take_both(claims, worker);
    }
}

// Each worker in a thread of its own.
fn work_all<R: Threads + Sync>(rt: &R, claims: &Claims<Counter>, workers: &mut [Worker])
    requires { All (λ w. IsAtWork claims.now w.holder w.low w.high w.wins w.misses) workers.old }
    ensures { All (λ w. IsAtWork claims.now w.holder w.low w.high w.wins w.misses) workers.new }
{
    thread::for_each_mut(
        rt,
        workers,
        4,
        &|_, worker: &mut Worker|
            requires { IsAtWork claims.now worker.old.holder worker.old.low worker.old.high worker.old.wins worker.old.misses }
            ensures { IsAtWork claims.entry.now worker.new.holder worker.new.low worker.new.high worker.new.wins worker.new.misses }
        { work(claims, worker) },
    );
}

// The workers have the places 0 and 1, 1 and 2, 2 and 3, and so on round.
fn workers_of(
    alloc: Global,
    claims: &Claims<Counter>,
    mut holders: Vec<Holder<Counter>>,
) -> Result<Vec<Worker>, AllocError>
    requires places { 4 ≤ claims.now.places }
    requires holders { All (IsIdle claims.now) holders.items }
    requires fresh { All (λ h. (h.wins ≡ []) × (h.misses ≡ [])) holders.items }
    ensures { IfOk result (λ v. All (λ w. IsAtWork claims.now w.holder w.low w.high w.wins w.misses) v.items) }
{
    let mut workers = Vec::new(alloc);
    let mut low = 0;
    while let Some(holder) = holders.pop() {
        workers.push(Worker {
            holder,
            low,
            high: low + 1,
            wins: 0,
            misses: 0,
        })?;
        low = (low + 1) % 3;
    }
    Ok(workers)
}

// The holders, and how many tries were won.
fn holders_of(
    alloc: Global,
    claims: &Claims<Counter>,
    mut workers: Vec<Worker>,
) -> Result<(Vec<Holder<Counter>>, u64), AllocError>
    requires { All (λ w. IsAtWork claims.now w.holder w.low w.high w.wins w.misses) workers.items }
    ensures holders { IfOk result (λ r. All (IsIdle claims.now) r.0.items) }
{
    let mut holders = Vec::new(alloc);
    let mut wins = 0u64;
    while let Some(worker) = workers.pop() {
        holders.push(worker.holder)?;
        wins = wins.wrapping_add(worker.wins);
    }
    Ok((holders, wins))
}

// Four counters, each with its place.
fn counters(alloc: Global) -> Result<Vec<Counter>, AllocError>
    ensures { IfOk result (λ v. (vec_len v ≡ 4) × AreFitting ⟦<Counter as Held>⟧.fits 0 v.items) }
{
    let cells = vec![in alloc;
        Counter { place: 0, count: 0 },
        Counter { place: 1, count: 0 },
        Counter { place: 2, count: 0 },
        Counter { place: 3, count: 0 },
    ]?;
    Ok(cells)
}

#[test]
fn four_threads_count_what_they_take(rt: HostRuntime) -> Result<(), Fail> {
    let cells = counters(rt.alloc())?;
    let Ok((claims, holders)) = Claims::make(rt.alloc(), cells, 4, &0) else {
        return Err(Fail::from("no memory"));
    };
    let mut workers = workers_of(rt.alloc(), &claims, holders)?;
    work_all(&rt, &claims, workers.as_mut_slice());
    let (holders, wins) = holders_of(rt.alloc(), &claims, workers)?;
    let Ok(cells) = claims.close(holders) else {
        return Err(Fail::from("not all holders came back"));
    };
    let mut sum = 0u64;
    for (place, counter) in cells.iter().enumerate() {
        assert_eq!(rt; counter.place as usize, place);
        sum = sum.wrapping_add(counter.count);
    }
    assert_eq!(rt; cells.len(), 4);
    assert_eq!(rt; sum, wins);
    Ok(())
}

// The first takes a place, the second tries it, and the first gives it back: whom the second found there.
fn contend(
    claims: &Claims<Counter>,
    first: &mut Holder<Counter>,
    second: &mut Holder<Counter>,
) -> Option<u32>
    requires idle { IsIdle claims.now first.old × IsIdle claims.now second.old }
    requires places { 1 ≤ claims.now.places }
    ensures idle { IsIdle claims.now first.new × IsIdle claims.now second.new }
{
    let Ok(counter) = claims.take(first, 0) else {
        return None;
    };
    let found = match claims.take(second, 0) {
        Ok(other) => {
            claims.give_back(second, 0, other);
            None
        }
        Err(taken) => Some(taken.holder),
    };
    claims.give_back(first, 0, counter);
    found
}

#[test]
fn the_second_is_told_who_has_the_place(rt: HostRuntime) -> Result<(), Fail> {
    let cells = counters(rt.alloc())?;
    let Ok((claims, mut holders)) = Claims::make(rt.alloc(), cells, 2, &0) else {
        return Err(Fail::from("no memory"));
    };
    let last = holders.pop();
    let Some(mut second) = last else {
        return Err(Fail::from("no second holder"));
    };
    let last = holders.pop();
    let Some(mut first) = last else {
        return Err(Fail::from("no first holder"));
    };
    assert_eq!(rt; contend(&claims, &mut first, &mut second), Some(1));
    assert_eq!(rt; contend(&claims, &mut second, &mut first), Some(2));
    Ok(())
}

#[test]
fn a_missing_holder_is_missed(rt: HostRuntime) -> Result<(), Fail> {
    let cells = counters(rt.alloc())?;
    let Ok((claims, mut holders)) = Claims::make(rt.alloc(), cells, 2, &0) else {
        return Err(Fail::from("no memory"));
    };
    let last = holders.pop();
    let Some(second) = last else {
        return Err(Fail::from("no second holder"));
    };
    let Err((claims, mut holders, fault)) = claims.close(holders) else {
        return Err(Fail::from("closed without a holder"));
    };
    assert_eq!(rt; fault, CloseFault::Missing { made: 2, given: 1 });
    holders.push(second)?;
    let Ok(cells) = claims.close(holders) else {
        return Err(Fail::from("not closed"));
    };
    assert_eq!(rt; cells.len(), 4);
    Ok(())
}
