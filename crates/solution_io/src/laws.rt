//! Laws of reading and writing solutions. Each is a function that does nothing: its contract is the law.
ghost use Rattle.std.specs.Prelude.{◌≡◌, ◌≤◌, ◌<◌, List, map, length, All, Ok};
ghost use Rattle.plane.specs.declared.segment.Pair.{Pair};
ghost use Rattle.text_defs.specs.Solutions.{edges_from};
ghost use Rattle.text_defs.specs.Texts.{solution_text};
ghost use Rattle.instance_io.specs.Refusal.{ends};

use instance_io::Name;
use plane::Pair;

/// The reading of a written solution over `n` points is its list of pairs and no other, where there are at most 20,000 of
/// them, with ends below `n`.
pub fn solution_reads_back(name: &Name, pairs: &[Pair], n: u32)
    requires few { length pairs.now ≤ 20000 }
    requires below { All (λ e. e.hi < n) pairs.now }
    ensures read { edges_from n (solution_text name.now (map ends pairs.now)) ≡ Ok (map ends pairs.now) }
    ensures once { (other : List Pair)
        → edges_from n (solution_text name.now (map ends pairs.now)) ≡ Ok (map ends other) → other ≡ pairs.now }
{
    let _name = name.as_str();
}
