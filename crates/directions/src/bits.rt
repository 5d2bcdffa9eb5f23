// A table with a bit for each pair of points.
ghost use Rattle.std.specs.Prelude.{◌≡◌, ℕ, ◌/◌, ◌<◌, ◌↔◌, length, IfOk, IsTrue};
ghost use Rattle.directions.specs.Bits.{count_of_pairs, number_of, HasBit, HasRoom, AddsBit};

use mcp_outside::NoMemory;
use plane::Pair;
use std::alloc::Global;

// How many pairs so many points have.
fn count_of(n: u32) -> u64
    ensures { result ≡ count_of_pairs n }
{
    if n == 0 {
        return 0;
    }
    let n = u64::from(n);
    n * (n - 1) / 2
}

// The number of a pair.
fn number(e: Pair) -> u64
    requires { e.hi < 5000 }
    ensures { result ≡ number_of e.lo e.hi }
{
    count_of(e.hi()) + u64::from(e.lo())
}

// A table for so many points, with no bit set.
pub fn empty_table(alloc: Global, n: u32) -> Result<Vec<u64>, NoMemory>
    requires { n < 5001 }
    ensures room { IfOk result (λ v. HasRoom n v.items) }
    ensures empty { IfOk result (λ v. (k : ℕ) → ¬ HasBit v.items k) }
{
    Ok(vec![in alloc; 0u64; (count_of(n) / 64) as usize + 1]?)
}

// Whether the bit is set.
#[tactic(auto, unfolding(crate::specs::Bits::HasBit))]
fn has_bit(table: &[u64], k: u64) -> bool
    requires { k / 64 < length table.now }
    ensures { IsTrue result ↔ HasBit table.now k }
{
    (table[(k / 64) as usize] >> (k % 64)) & 1 == 1
}

// Sets the bit.
fn set_bit(table: &mut Vec<u64>, k: u64)
    requires { k / 64 < length table.old.items }
    ensures adds { AddsBit table.old.items k table.new.items }
    ensures length { length table.new.items ≡ length table.old.items }
{
    let i = (k / 64) as usize;
    let word = table[i];
    table[i] = word | 1 << (k % 64);
}

// Whether the pair's bit is set.
pub fn has_pair(table: &[u64], e: Pair) -> bool
    requires within { e.hi < 5000 }
    requires room { number_of e.lo e.hi / 64 < length table.now }
    ensures { IsTrue result ↔ HasBit table.now (number_of e.lo e.hi) }
{
    has_bit(table, number(e))
}

// Sets the pair's bit.
pub fn set_pair(table: &mut Vec<u64>, e: Pair)
    requires within { e.hi < 5000 }
    requires room { number_of e.lo e.hi / 64 < length table.old.items }
    ensures adds { AddsBit table.old.items (number_of e.lo e.hi) table.new.items }
    ensures length { length table.new.items ≡ length table.old.items }
{
    let k = number(e);
    set_bit(table, k);
}
