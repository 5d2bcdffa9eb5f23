//! Laws of sessions. Each is a function that does nothing; its contract is the law.
ghost use Rattle.partition_defs.specs.Ascending.{IsAscending};
ghost use Rattle.partition_defs.specs.Triangulation.{IsTriangulation};
ghost use Rattle.edit_session.specs.Laws.{RepliesBegin};

use plane::{Pair, Points};

/// The replies to the first commands of a session are the first of its replies. Of stars the centre, the points and the
/// neighbours are meant; the room that a star has is its owner's.
pub fn replies_begin(points: &Points, start: &[Pair])
    requires ascending { IsAscending start.now }
    requires triangulation { IsTriangulation points.now start.now }
    ensures { RepliesBegin points.now start.now }
{
    let _count = points.len();
}
