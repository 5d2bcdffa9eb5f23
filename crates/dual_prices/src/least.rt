// The least number so far.
ghost use Rattle.dual_prices.specs.Rooms.{IsBelow};

/// Whether a number is below the least so far, or the first one.
pub fn is_below(x: u64, least: Option<u64>) -> bool
    ensures { IsBelow x least result }
{
    match least {
        Some(m) => x < m,
        None => true,
    }
}
