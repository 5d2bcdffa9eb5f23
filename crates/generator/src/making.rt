// An instance of a kind.
ghost use Rattle.std.specs.Prelude.{◌≡◌, ◌≤◌, [], vec_len, IfOk};
ghost use Rattle.generator.specs.Kinds.{AreMade};
ghost use Rattle.generator.specs.Names.{kind_word, made_name};
ghost use Rattle.plane.specs.Accepted.{AreAccepted};

use crate::kinds::Kind;
use crate::lists::{grid, ring, scatter, wide};
use instance_io::{Costs, Instance, Name};
use mcp_outside::NoMemory;
use plane::{Point, Points};
use std::alloc::{AllocError, Global};

/// The instance of this kind with `n` points, under the name that the kind, `n` and `seed` give, each pair of cost 1. The
/// words of a scatter are those of `Pcg32::new(seed, 1)`; the other kinds draw none. (This project's own.)
pub fn generate(alloc: Global, kind: Kind, n: u32, seed: u64) -> Result<Instance, NoMemory>
    requires least { 3 ≤ n }
    requires most { n ≤ 5000 }
    ensures name { IfOk result (λ instance. instance.name ≡ made_name kind n seed) }
    ensures points { IfOk result (λ instance. AreMade kind n seed instance.points) }
    ensures costs { IfOk result (λ instance. instance.costs ≡ []) }
{
    let name = name_of(alloc, kind, n, seed)?;
    let list = list_of(alloc, kind, n, seed)?;
    match Points::make(list) {
        Ok(points) => Ok(Instance {
            name,
            points,
            costs: Costs::unit(),
        }),
        Err(_) => unreachable!(),
    }
}

// The points of a kind, which are accepted.
fn list_of(alloc: Global, kind: Kind, n: u32, seed: u64) -> Result<Vec<Point>, AllocError>
    requires least { 3 ≤ n }
    requires most { n ≤ 5000 }
    ensures made { IfOk result (λ list. AreMade kind n seed list.items) }
    ensures accepted { IfOk result (λ list. AreAccepted list.items) }
    ensures short { IfOk result (λ list. vec_len list ≡ n) }
{
    match kind {
        Kind::Scatter => scatter(alloc, n, seed),
        Kind::Grid => grid(alloc, n),
        Kind::Ring => ring(alloc, n),
        Kind::Wide => wide(alloc, n),
    }
}

// The word of a kind.
fn word_of(kind: Kind) -> &'static str
    ensures { result.now ≡ kind_word kind }
{
    match kind {
        Kind::Scatter => "scatter",
        Kind::Grid => "grid",
        Kind::Ring => "ring",
        Kind::Wide => "wide",
    }
}

// The name of an instance: its kind, its count and its seed.
fn name_of(alloc: Global, kind: Kind, n: u32, seed: u64) -> Result<Name, AllocError>
    ensures { IfOk result (λ name. name ≡ made_name kind n seed) }
{
    let word = word_of(kind);
    let text = format!(in alloc; "{word}-{n}-{seed}")?;
    Ok(Name::make(text))
}
