ghost use Rattle.std.specs.Prelude.{◌≡◌, ℕ, Bool};

/// An entry of a history that several callers write to. A caller is a number; 0 is nobody's. A place is an index, and
/// who touches one has to own it. (This project's own.)
pub trait Entry {
    /// Whose entry it is.
    ghost caller: { Self → ℕ };

    /// Whether it touches the place.
    ghost touches: { Self → ℕ → Bool };

    /// Whose entry it is.
    fn caller(&self) -> u32
        ensures { result ≡ caller self.now };

    /// Whether it touches the place.
    fn touches(&self, place: u32) -> bool
        ensures { result ≡ touches self.now place };
}
