// The ends of the segments, by the point that they are at.
ghost use Rattle.std.specs.Prelude.{◌≡◌, ◌<◌, ◌*◌, ◌^◌, length, IsTrue};
ghost use Rattle.std.specs.List.Sorted.{IsNonDecreasingBy};
ghost use Rattle.triangulation_check.specs.Ends.{HasEndsOf, AreEndsOf, IsRunOf, LeadsTo};

use plane::Pair;

// One end of a segment: at this point, with its other end there.
#[derive(Clone, Copy)]
pub struct End {
    pub at: u32,
    pub to: u32,
}

/// Puts both ends of each segment in order.
pub fn set_ends(list: &[Pair], ends: &mut [End])
    requires few { length list.now < 2 ^ 32 }
    requires room { length ends.old ≡ 2 * length list.now }
    ensures { AreEndsOf list.now ends.new }
{
    copy_ends(list, ends);
    ends.sort_unstable_by_key(|end| end.at);
}

fn copy_ends(list: &[Pair], ends: &mut [End])
    requires few { length list.now < 2 ^ 32 }
    requires room { length ends.old ≡ 2 * length list.now }
    ensures { HasEndsOf list.now ends.new }
{
    for k in 0..list.len() {
        let e = list[k];
        let (i, j) = (e.lo(), e.hi());
        ends[2 * k] = End { at: i, to: j };
        ends[2 * k + 1] = End { at: j, to: i };
    }
}

/// The ends at this point.
pub fn run_of(ends: &[End], p: u32) -> &[End]
    requires { IsNonDecreasingBy (λ (z : End). z.at) ends.now }
    ensures { IsRunOf ends.now result.now p }
{
    let first = ends.partition_point(|end| end.at < p);
    let rest = &ends[first..];
    let count = rest.partition_point(|end| end.at <= p);
    &rest[..count]
}

/// Whether some end leads to this point.
pub fn leads_to(run: &[End], r: u32) -> bool
    ensures { IsTrue result → LeadsTo run.now r }
{
    for end in run {
        if end.to == r {
            return true;
        }
    }
    false
}
