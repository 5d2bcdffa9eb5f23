// Laying all stars to their places, and taking them up at the end.
ghost use Rattle.std.specs.Prelude.{◌≡◌, ◌+◌, ◌≤◌, List, [], ◌∷◌, ◌++◌, length, vec_capacity};
ghost use Rattle.subdivision.specs.Layout.{AreStarsOf};
ghost use Rattle.vertex_claims.specs.Holding.{AreFitting};
ghost use Rattle.chronicle.specs.History.{ShareSeen, whole_share};
ghost use Rattle.journal_defs.specs.declared.commit.Commit.{Commit as TheCommit};
ghost use Rattle.journal_defs.specs.Journal.{replay, IsLegalJournal};
ghost use Rattle.seats.specs.declared.cells.Cell.{Cell as CellSeen};
ghost use Rattle.seats.specs.declared.cells.Cell.TheVariants.{Journal};
ghost use Rattle.seats.specs.Cells.{CellFits};
ghost use Rattle.board.specs.Stamping.{AreStampsOf};
ghost use Rattle.board.specs.Laying.{IsBase, IsTakenUp};

use chronicle::{Chronicle, Share};
use edit::Look;
use journal_defs::Commit;
use seats::{Cell, Root};
use star::Star;

/// Lays each star to its place, with its stamp and the part of the place.
pub fn lay_stars(
    root: &Root,
    whole: &mut Share<Commit>,
    stars: Vec<Star>,
    stamps: &[u64],
    cells: &mut Vec<Cell>,
)
    requires base { IsBase root.now }
    requires whole { whole.old ≡ whole_share root.now.chronicle }
    requires legal { IsLegalJournal root.now.points root.now.start.items root.now.chronicle.first }
    requires stars { AreStarsOf root.now.points (replay root.now.start.items root.now.chronicle.first).all
        (replay root.now.start.items root.now.chronicle.first).kept stars.items }
    requires stamps { AreStampsOf root.now.chronicle.first (length root.now.points) stamps.now }
    requires empty { cells.old.items ≡ [] }
    requires room { length root.now.points + 1 ≤ vec_capacity cells.old }
    ensures whole { whole.new ≡ record whole.old { parts = length root.now.points ∷ [] } }
    ensures count { length cells.new.items ≡ length root.now.points }
    ensures fitting { AreFitting CellFits root.now cells.new.items }
    ensures room { length root.now.points + 1 ≤ vec_capacity cells.new }
{
    let mut stars = stars.into_iter();
    while let Some(star) = stars.next() {
        let v = cells.len();
        let look = Look {
            star,
            stamp: stamps[v],
        };
        let share = root.chronicle.split_parts(whole, v as u32);
        let pushed = cells.push(Cell::Vertex { look, share });
        let Ok(()) = pushed else { unreachable!() };
    }
    stars.destroy_empty();
}

/// Takes all up: the stars by vertex, the journal, and a share that has seen all of it and owns its part.
pub fn take_up(
    root: &Root,
    cells: Vec<Cell>,
    stars: Vec<Star>,
) -> (Vec<Star>, Vec<Commit>, Share<Commit>)
    requires base { IsBase root.now }
    requires fitting { AreFitting CellFits root.now cells.items }
    requires count { length cells.items ≡ length root.now.points + 1 }
    requires empty { stars.items ≡ [] }
    requires room { length root.now.points ≤ vec_capacity stars }
    ensures taken { IsTakenUp root.now result.0.items result.1.items result.2 }
    ensures journal { (others : List CellSeen) × (part : ShareSeen TheCommit)
        × (cells.items ≡ others ++ Journal result.1 part ∷ []) }
{
    let mut cells = cells;
    let mut stars = stars;
    let last = cells.pop();
    let Some(cell) = last else { unreachable!() };
    let Cell::Journal { commits, share } = cell else {
        unreachable!()
    };
    let mut whole = share;
    let _count = root.chronicle.look_count(&mut whole);
    let mut rest = cells.into_iter();
    while let Some(cell) = rest.next() {
        let Cell::Vertex { look, share } = cell else {
            unreachable!()
        };
        root.chronicle.join_parts(&mut whole, share);
        let pushed = stars.push(look.star);
        let Ok(()) = pushed else { unreachable!() };
    }
    rest.destroy_empty();
    (stars, commits, whole)
}
