// What bound workers find from a certificate, and the best of it.
ghost use Rattle.std.specs.Prelude.{◌≡◌, ◌≤◌, ◌<◌, ◌+◌, ℕ, length, map, Ok, IfOk, slice_index_or, vec_len};
ghost use Rattle.std.specs.List.{All, IsFirstMaxByKey};
ghost use Rattle.price_defs.specs.Loads.{value};
ghost use Rattle.search_defs.specs.Best.{IsBest};
ghost use Rattle.price_defs.specs.declared.row.Certificate.{Certificate};
ghost use Rattle.lower_bounds.specs.Found.{IsFirst, IsWithin, IsFoundBy, AreFound};
ghost use Rattle.lower_bounds.specs.Prices.{AreTried, CanBeValued};

use bound_worker::price;
use cost_defs::Costs;
use dual_prices::{Certificate, value};
use mcp_outside::NoMemory;
use plane::Points;
use std::alloc::Global;
use std::thread::{Threads, map_indices};

/// How bound workers go on from a certificate.
#[derive(Clone, Copy, Debug, PartialEq, Eq)]
pub struct Search {
    /// How many workers there are, at most 16. Worker b, from 1, has the words of the stream 100 + b.
    pub workers: u32,
    /// How many rounds each makes.
    pub rounds: u32,
    /// The seed of the words, the same for all.
    pub seed: u64,
}

// The words of bound worker b, from 1, have this stream.
const FIRST_STREAM: u64 = 100;

// What the bound worker after so many finds from the first certificate.
fn found_by(
    alloc: Global,
    points: &Points,
    costs: &Costs,
    first: &Certificate,
    search: Search,
    k: usize,
) -> Result<Certificate, NoMemory>
    requires few { k < 16 }
    requires first { IsFirst points.now costs.now first.now }
    ensures { IfOk result (IsFoundBy points.now costs.now first.now search (1 + k)) }
{
    let stream = FIRST_STREAM + (1 + k as u64);
    let certificate = price(
        alloc,
        points,
        costs,
        first,
        search.rounds,
        search.seed,
        stream,
    )?;
    Ok(certificate)
}

// What each bound worker finds, in their order: each in a thread of its own where one can be made, else one after another.
fn found<R: Threads + Sync>(
    rt: &R,
    alloc: Global,
    points: &Points,
    costs: &Costs,
    first: &Certificate,
    search: Search,
) -> Result<Vec<Result<Certificate, NoMemory>>, NoMemory>
    requires few { search.workers ≤ 16 }
    requires first { IsFirst points.now costs.now first.now }
    ensures { IfOk result (λ list. AreTried points.now costs.now first.now search list.items) }
{
    let list = map_indices(
        rt,
        alloc,
        search.workers as usize,
        &|k| { found_by(alloc, points, costs, first, search, k) },
    )?;
    Ok(list)
}

// What they found, where all found memory.
fn taken(
    alloc: Global,
    found: Vec<Result<Certificate, NoMemory>>,
) -> Result<Vec<Certificate>, NoMemory>
    ensures { IfOk result (λ list. map Ok list.items ≡ found.items) }
{
    let mut list = Vec::with_capacity(alloc, found.len())?;
    for item in found {
        list.push(item?)?;
    }
    Ok(list)
}

// The place of the first certificate of the greatest value.
fn best_place(list: &[Certificate]) -> usize
    requires some { 0 < length list.now }
    requires fit { All CanBeValued list.now }
    ensures { IsFirstMaxByKey (λ c. value 0 c.q c.rows) list.now (length list.now) result }
{
    let mut best = 0;
    for k in 1..list.len() {
        if value(&list[best], 0) < value(&list[k], 0) {
            best = k;
        }
    }
    best
}

/// What so many bound workers, at most 16, find from the first certificate, in their order.
pub fn all_found<R: Threads + Sync>(
    rt: &R,
    alloc: Global,
    points: &Points,
    costs: &Costs,
    first: &Certificate,
    search: Search,
) -> Result<Vec<Certificate>, NoMemory>
    requires few { search.workers ≤ 16 }
    requires first { IsFirst points.now costs.now first.now }
    ensures { IfOk result (λ list. AreFound points.now costs.now first.now search list.items) }
{
    let found = found(rt, alloc, points, costs, first, search)?;
    taken(alloc, found)
}

/// The best of the first certificate and of what bound workers found from it: of the greatest value, and of those the
/// first one, then the one of the least worker.
pub fn best(
    points: &Points,
    costs: &Costs,
    first: Certificate,
    found: Vec<Certificate>,
    search: Search,
) -> Result<Certificate, NoMemory>
    requires first { IsFirst points.now costs.now first }
    requires found { AreFound points.now costs.now first search found.items }
    ensures best { IfOk result (λ c. IsBest points.now costs.now search.workers search.rounds search.seed c) }
    ensures valued { IfOk result CanBeValued }
    ensures within { IfOk result IsWithin }
{
    let _count = points.len();
    let _listed = costs.list();
    let mut list = found;
    list.insert(0, first)?;
    let place = best_place(&list);
    Ok(list.swap_remove(place))
}
