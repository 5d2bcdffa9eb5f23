ghost use Rattle.std.specs.Prelude.{◌≡◌, ℕ, Option, IfSome};
ghost use Rattle.std.specs.Option.{option_copied};
ghost use Rattle.star.specs.Stars.{Seen, IsStar};

use crate::star::Star;

/// A value that has stars for some vertices.
pub trait Stars {
    /// The star that it has for a vertex, or none.
    ghost star_of: { Self → ℕ → Option Seen };

    /// The star for `v`, whose centre is `v`, or none.
    fn star(&self, v: u32) -> Option<&Star>
        ensures star { option_copied result ≡ star_of self.now v }
        ensures centre { IfSome result (λ s. s.now.centre ≡ v) }
        ensures order { IfSome result (λ s. IsStar s.now) };
}
