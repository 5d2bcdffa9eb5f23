// The kinds of instances.

/// How the points of a generated instance lie. (This project's own.)
#[derive(Clone, Copy, Debug, PartialEq, Eq, Hash)]
pub enum Kind {
    /// Three corners and points in strips, by words of a random generator.
    Scatter,
    /// Rows of points 10 apart.
    Grid,
    /// Points on a parabola, all of them on the hull's border.
    Ring,
    /// Points on a parabola, all of them on the hull's border, whose coordinates go far beyond 32 bits.
    Wide,
}
