// Finding a neighbour by halving the list in turning order.
ghost use Rattle.std.specs.Prelude.{◌≡◌, ◌≢◌, ◌<◌, ℕ, length};
ghost use Rattle.star.specs.Stars.{entry, IsOrderly};
ghost use Rattle.star.specs.Links.{IsSeat, IsFound};

use crate::turn::is_before;
use plane::Points;

/// The first position whose neighbour doesn't come before `q`.
pub fn seat(points: &Points, centre: u32, list: &[(u32, bool)], q: u32) -> u32
    requires order { IsOrderly points.now centre list.now }
    requires within { q < length points.now }
    requires apart { q ≢ centre }
    ensures { IsSeat points.now centre list.now q result }
{
    let mut low = 0;
    let mut high = list.len() as u32;
    while low < high {
        let middle = low + (high - low) / 2;
        if is_before(points, centre, list[middle as usize].0, q) {
            low = middle + 1;
        } else {
            high = middle;
        }
    }
    low
}

/// The position of `q`, or none where it isn't there.
pub fn find(points: &Points, centre: u32, list: &[(u32, bool)], q: u32) -> Option<u32>
    requires { IsOrderly points.now centre list.now }
    ensures { IsFound list.now q result }
{
    if q >= points.len() || q == centre {
        return None;
    }
    let k = seat(points, centre, list, q);
    if (k as usize) < list.len() && list[k as usize].0 == q {
        Some(k)
    } else {
        None
    }
}

/// The position of a neighbour.
pub fn position(points: &Points, centre: u32, list: &[(u32, bool)], q: u32) -> u32
    requires order { IsOrderly points.now centre list.now }
    requires there { (k : ℕ) × (k < length list.now) × ((entry list.now k).0 ≡ q) }
    ensures within { result < length list.now }
    ensures name { (entry list.now result).0 ≡ q }
{
    find(points, centre, list, q).unwrap()
}
