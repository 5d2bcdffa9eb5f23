// The two points of a round, by its words.
ghost use Rattle.std.specs.Prelude.{◌≡◌, ◌≢◌, ◌<◌, ◌-◌, ◌%◌, length, slice_index, IfOk};
ghost use Rattle.price_defs.specs.Floor.{IsInnerList};
ghost use Rattle.search_defs.specs.Priced.{other_than};

use mcp_outside::NoMemory;
use plane::Points;
use std::alloc::Global;

// The inner points, ascending.
pub fn inner_points(alloc: Global, points: &Points) -> Result<Vec<u32>, NoMemory>
    ensures { IfOk result (λ v. IsInnerList points.now v.items) }
{
    let mut list = Vec::new(alloc);
    for p in 0..points.len() {
        if points.is_inner(p) {
            list.push(p)?;
        }
    }
    Ok(list)
}

// The inner point of a word.
pub fn inner_of(inner: &[u32], word: u32) -> u32
    requires { 0 < length inner.now }
    ensures { result ≡ slice_index inner.now (word % length inner.now) }
{
    inner[word as usize % inner.len()]
}

// The point of a word among those other than p.
pub fn other_of(points: &Points, p: u32, word: u32) -> u32
    requires { p < length points.now }
    ensures { result ≡ other_than p (word % (length points.now - 1)) }
{
    let count = points.len();
    let k = word % (count - 1);
    if k < p { k } else { k + 1 }
}
