ghost use Rattle.std.specs.Prelude.{◌≡◌, ◌<◌, ◌≤◌, [], ◌∷◌, All, length, map, IfOk, IfSome, vec_len};
ghost use Rattle.index_sets.specs.Indices.{numbers_from};
ghost use Rattle.index_sets.specs.Entries.{entries_of};
ghost use Rattle.vertex_claims.specs.Holding.{AreFitting, new_holder};
ghost use Rattle.chronicle.specs.History.{caller_share, whole_share};
ghost use Rattle.table_tests.specs.Work.{IsReady, IsOwning, IsHolding, IsWriting};

use chronicle::{Chronicle, Entry, Share};
use std::alloc::{AllocError, Global};
use std::test::Fail;
use std::thread;
use std::thread::Threads;
use vertex_claims::{Claims, Held, Holder};

const TURNS: u64 = 5_000;

// The place of the cell with the history's last part.
const JOURNAL: u32 = 3;

#[derive(Clone, Copy)]
struct Visit {
    caller: u32,
    place: u32,
}

impl Entry for Visit {
    ghost use Rattle.std.specs.Prelude.{nat_eq};

    ghost caller = { λ v. v.caller };

    ghost touches = { λ v place. nat_eq v.place place };

    fn caller(&self) -> u32 {
        self.caller
    }

    fn touches(&self, place: u32) -> bool {
        self.place == place
    }
}

// The cell of a place. Its fact is that its share owns the part of that place, and no other.
#[derive(Drop)]
struct Cell {
    share: Share<Visit>,
}

impl Held for Cell {
    type Root = Chronicle<Visit>;

    ghost use Rattle.table_tests.specs.Work.{IsOwning};

    ghost fits = { λ root place cell. IsOwning root place cell.share };
}

// Who enters visits, and the numbers of those that it entered.
#[derive(Drop)]
struct Writer {
    share: Share<Visit>,
    caller: u32,
    numbers: Vec<u64>,
}

// What one thread works with, and the place that it tries next.
#[derive(Drop)]
struct Worker {
    holder: Holder<Cell>,
    writer: Writer,
    place: u32,
}

// Enters a visit of the place, where there is room for its number and the history isn't very long.
fn enter(chronicle: &Chronicle<Visit>, writer: &mut Writer, place: u32)
    requires last { chronicle.now.last ≡ 3 }
    requires writer { IsWriting chronicle.now (place ∷ 3 ∷ []) writer.old.share writer.old.caller (vec_len writer.old.numbers) }
    ensures writer { IsWriting chronicle.now (place ∷ 3 ∷ []) writer.new.share writer.new.caller (vec_len writer.new.numbers) }
{
    if writer.numbers.len() == writer.numbers.capacity() {
        return;
    }
    if chronicle.look_count(&mut writer.share) > 1_000_000 {
        return;
    }
    let caller = writer.caller;
    let number = chronicle.append(&mut writer.share, &Visit { caller, place });
    let pushed = writer.numbers.push(number);
    let Ok(()) = pushed else { unreachable!() };
}

// Tries the place with the last part, for who holds another place, and enters a visit of that one.
fn try_to_enter(
    claims: &Claims<Cell>,
    chronicle: &Chronicle<Visit>,
    holder: &mut Holder<Cell>,
    writer: &mut Writer,
    place: u32,
)
    requires tables { IsReady claims.now chronicle.now }
    requires place { place < 3 }
    requires holder { IsHolding claims.now (place ∷ []) holder.old }
    requires writer { IsWriting chronicle.now (place ∷ []) writer.old.share writer.old.caller (vec_len writer.old.numbers) }
    ensures holder { IsHolding claims.now (place ∷ []) holder.new }
    ensures writer { IsWriting chronicle.now (place ∷ []) writer.new.share writer.new.caller (vec_len writer.new.numbers) }
{
    let Ok(cell) = claims.take(holder, JOURNAL) else {
        return;
    };
    let Cell { share } = cell;
    chronicle.join_parts(&mut writer.share, share);
    enter(chronicle, writer, place);
    let share = chronicle.split_parts(&mut writer.share, JOURNAL);
    claims.give_back(holder, JOURNAL, Cell { share });
}

// One turn: a place, and then the one with the last part.
fn take_turn(
    claims: &Claims<Cell>,
    chronicle: &Chronicle<Visit>,
    holder: &mut Holder<Cell>,
    writer: &mut Writer,
    place: u32,
)
    requires tables { IsReady claims.now chronicle.now }
    requires place { place < 3 }
    requires holder { IsHolding claims.now [] holder.old }
    requires writer { IsWriting chronicle.now [] writer.old.share writer.old.caller (vec_len writer.old.numbers) }
    ensures holder { IsHolding claims.now [] holder.new }
    ensures writer { IsWriting chronicle.now [] writer.new.share writer.new.caller (vec_len writer.new.numbers) }
{
    let Ok(cell) = claims.take(holder, place) else {
        return;
    };
    let Cell { share } = cell;
    chronicle.join_parts(&mut writer.share, share);
    try_to_enter(claims, chronicle, holder, writer, place);
    let share = chronicle.split_parts(&mut writer.share, place);
    claims.give_back(holder, place, Cell { share });
}

fn work(claims: &Claims<Cell>, chronicle: &Chronicle<Visit>, worker: &mut Worker)
    requires tables { IsReady claims.now chronicle.now }
    requires holder { IsHolding claims.now [] worker.old.holder }
    requires writer { IsWriting chronicle.now [] worker.old.writer.share worker.old.writer.caller (vec_len worker.old.writer.numbers) }
    ensures holder { IsHolding claims.now [] worker.new.holder }
    ensures writer { IsWriting chronicle.now [] worker.new.writer.share worker.new.writer.caller (vec_len worker.new.writer.numbers) }
{
    for _turn in 0..TURNS {
        let place = worker.place % 3;
        worker.place = place + 1;
        take_turn(
            claims,
            chronicle,
            &mut worker.holder,
            &mut worker.writer,
            place,
        );
    }
}

// Each worker in a thread of its own.
fn work_all<R: Threads + Sync>(
    rt: &R,
    claims: &Claims<Cell>,
    chronicle: &Chronicle<Visit>,
    workers: &mut [Worker],
)
    requires tables { IsReady claims.now chronicle.now }
    requires holders { All (λ w. IsHolding claims.now [] w.holder) workers.old }
    requires writers { All (λ w. IsWriting chronicle.now [] w.writer.share w.writer.caller (vec_len w.writer.numbers)) workers.old }
    ensures holders { All (λ w. IsHolding claims.now [] w.holder) workers.new }
    ensures writers { All (λ w. IsWriting chronicle.now [] w.writer.share w.writer.caller (vec_len w.writer.numbers)) workers.new }
{
    thread::for_each_mut(
        rt,
        workers,
        4,
        &|_, worker: &mut Worker|
            requires tables { IsReady claims.now chronicle.now }
            requires holder { IsHolding claims.now [] worker.old.holder }
            requires writer { IsWriting chronicle.now [] worker.old.writer.share worker.old.writer.caller (vec_len worker.old.writer.numbers) }
            ensures holder { IsHolding claims.entry.now [] worker.new.holder }
            ensures writer { IsWriting chronicle.entry.now [] worker.new.writer.share worker.new.writer.caller (vec_len worker.new.writer.numbers) }
        { work(claims, chronicle, worker) },
    );
}

// The history's parts, each in the cell of its place.
fn cells_of(
    alloc: Global,
    chronicle: &Chronicle<Visit>,
    mut whole: Share<Visit>,
) -> Result<Vec<Cell>, AllocError>
    requires whole { (whole.of ≡ chronicle.now) × (whole.caller ≡ 0) × (whole.parts ≡ 0 ∷ 1 ∷ 2 ∷ 3 ∷ []) }
    ensures { IfOk result (λ v. (vec_len v ≡ 4) × AreFitting ⟦<Cell as Held>⟧.fits chronicle.now v.items) }
{
    let three = chronicle.split_parts(&mut whole, 3);
    let two = chronicle.split_parts(&mut whole, 2);
    let one = chronicle.split_parts(&mut whole, 1);
    let cells = vec![in alloc;
        Cell { share: whole },
        Cell { share: one },
        Cell { share: two },
        Cell { share: three },
    ]?;
    Ok(cells)
}

// One worker, where there are a holder and a share.
fn worker_of(
    alloc: Global,
    claims: &Claims<Cell>,
    chronicle: &Chronicle<Visit>,
    holder: Option<Holder<Cell>>,
    share: Option<Share<Visit>>,
    caller: u32,
) -> Result<Worker, Fail>
    requires holder { IfSome holder (IsHolding claims.now []) }
    requires share { IfSome share (λ s. IsWriting chronicle.now [] s caller 0) }
    ensures holder { IfOk result (λ w. IsHolding claims.now [] w.holder) }
    ensures writer { IfOk result
        (λ w. IsWriting chronicle.now [] w.writer.share w.writer.caller (vec_len w.writer.numbers)) }
{
    let Some(holder) = holder else {
        return Err(Fail::from("no holder"));
    };
    let Some(share) = share else {
        return Err(Fail::from("no share"));
    };
    let numbers = Vec::with_capacity(alloc, TURNS as usize)?;
    let writer = Writer {
        share,
        caller,
        numbers,
    };
    Ok(Worker {
        holder,
        writer,
        place: caller,
    })
}

// Four workers, from the last.
fn workers_of(
    alloc: Global,
    claims: &Claims<Cell>,
    chronicle: &Chronicle<Visit>,
    mut holders: Vec<Holder<Cell>>,
    mut shares: Vec<Share<Visit>>,
) -> Result<Vec<Worker>, Fail>
    requires first { chronicle.now.first ≡ [] }
    requires holders { holders.items ≡ map (new_holder claims.now) (numbers_from 1 4) }
    requires shares { shares.items ≡ map (caller_share ⟦<Visit as Entry>⟧.caller chronicle.now) (numbers_from 1 4) }
    ensures holders { IfOk result (λ v. All (λ w. IsHolding claims.now [] w.holder) v.items) }
    ensures writers { IfOk result (λ v. All
        (λ w. IsWriting chronicle.now [] w.writer.share w.writer.caller (vec_len w.writer.numbers)) v.items) }
{
    let four = worker_of(alloc, claims, chronicle, holders.pop(), shares.pop(), 4)?;
    let three = worker_of(alloc, claims, chronicle, holders.pop(), shares.pop(), 3)?;
    let two = worker_of(alloc, claims, chronicle, holders.pop(), shares.pop(), 2)?;
    let one = worker_of(alloc, claims, chronicle, holders.pop(), shares.pop(), 1)?;
    let workers = vec![in alloc; four, three, two, one]?;
    Ok(workers)
}

// The holders and the writers apart.
fn apart(
    alloc: Global,
    claims: &Claims<Cell>,
    chronicle: &Chronicle<Visit>,
    mut workers: Vec<Worker>,
) -> Result<(Vec<Holder<Cell>>, Vec<Writer>), AllocError>
    requires holders { All (λ w. IsHolding claims.now [] w.holder) workers.items }
    requires writers { All (λ w. IsWriting chronicle.now [] w.writer.share w.writer.caller (vec_len w.writer.numbers)) workers.items }
    ensures holders { IfOk result (λ r. All (IsHolding claims.now []) r.0.items) }
    ensures writers { IfOk result (λ r. All (λ w. IsWriting chronicle.now [] w.share w.caller (vec_len w.numbers)) r.1.items) }
{
    let mut holders = Vec::new(alloc);
    let mut writers = Vec::new(alloc);
    while let Some(worker) = workers.pop() {
        holders.push(worker.holder)?;
        writers.push(worker.writer)?;
    }
    Ok((holders, writers))
}

// The caller's share learns the whole history. So many of its entries are the caller's as the caller entered.
fn learn(chronicle: &Chronicle<Visit>, writer: &mut Writer, last: Share<Visit>) -> Share<Visit>
    requires last { (chronicle.now.last ≡ 3) × IsOwning chronicle.now 3 last }
    requires writer { IsWriting chronicle.now [] writer.old.share writer.old.caller (vec_len writer.old.numbers) }
    ensures last { IsOwning chronicle.now 3 result × (result.seen ≡ last.seen) }
    ensures numbers { writer.new.numbers ≡ writer.old.numbers }
    ensures count { vec_len writer.new.numbers
        ≡ length (entries_of ⟦<Visit as Entry>⟧.caller writer.new.caller last.seen) }
{
    chronicle.join_parts(&mut writer.share, last);
    chronicle.split_parts(&mut writer.share, JOURNAL)
}

// All numbers of entries, and how many entries the history has.
fn numbers_of(
    alloc: Global,
    chronicle: &Chronicle<Visit>,
    mut writers: Vec<Writer>,
    mut last: Share<Visit>,
) -> Result<(Vec<u64>, u64), AllocError>
    requires last { (chronicle.now.last ≡ 3) × IsOwning chronicle.now 3 last }
    requires writers { All (λ w. IsWriting chronicle.now [] w.share w.caller (vec_len w.numbers)) writers.items }
    ensures { IfOk result (λ r. r.1 ≡ length last.seen) }
{
    let mut numbers = Vec::new(alloc);
    while let Some(mut writer) = writers.pop() {
        last = learn(chronicle, &mut writer, last);
        for number in writer.numbers.iter() {
            numbers.push(*number)?;
        }
    }
    let count = chronicle.look_count(&mut last);
    Ok((numbers, count))
}

// The share with the last part, from the cell of the last place.
fn last_of(chronicle: &Chronicle<Visit>, mut cells: Vec<Cell>) -> Option<Share<Visit>>
    requires count { vec_len cells ≡ 4 }
    requires cells { AreFitting ⟦<Cell as Held>⟧.fits chronicle.now cells.items }
    ensures { IfSome result (IsOwning chronicle.now 3) }
{
    let last = cells.pop();
    let Some(cell) = last else {
        return None;
    };
    Some(cell.share)
}

// The numbers of all entries that four callers enter in four threads, in order, and the length of the history.
fn enter_in_threads<R: Threads + Sync>(
    rt: &R,
    alloc: Global,
    chronicle: &Chronicle<Visit>,
    whole: Share<Visit>,
    shares: Vec<Share<Visit>>,
) -> Result<(Vec<u64>, u64), Fail>
    requires last { (chronicle.now.last ≡ 3) × (chronicle.now.first ≡ []) }
    requires whole { whole ≡ whole_share chronicle.now }
    requires shares { shares.items ≡ map (caller_share ⟦<Visit as Entry>⟧.caller chronicle.now) (numbers_from 1 4) }
{
    let cells = cells_of(alloc, chronicle, whole)?;
    let Ok((claims, holders)) = Claims::make(alloc, cells, 4, chronicle) else {
        return Err(Fail::from("no memory"));
    };
    let mut workers = workers_of(alloc, &claims, chronicle, holders, shares)?;
    work_all(rt, &claims, chronicle, workers.as_mut_slice());
    let (holders, writers) = apart(alloc, &claims, chronicle, workers)?;
    let Ok(cells) = claims.close(holders) else {
        return Err(Fail::from("not all holders came back"));
    };
    let Some(last) = last_of(chronicle, cells) else {
        return Err(Fail::from("no cells"));
    };
    let (mut numbers, count) = numbers_of(alloc, chronicle, writers, last)?;
    numbers.sort()?;
    Ok((numbers, count))
}

#[test]
fn four_callers_number_each_entry_once(rt: HostRuntime) -> Result<(), Fail> {
    let first: [Visit; 0] = [];
    let (chronicle, whole, shares) = Chronicle::make(rt.alloc(), 4, 4, &first)?;
    let (numbers, count) = enter_in_threads(&rt, rt.alloc(), &chronicle, whole, shares)?;
    assert!(rt; count > 0);
    assert_eq!(rt; numbers.len() as u64, count);
    for (i, number) in numbers.iter().enumerate() {
        assert_eq!(rt; *number, i as u64 + 1);
    }
    Ok(())
}
