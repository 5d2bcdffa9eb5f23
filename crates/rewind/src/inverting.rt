// The edits that lead back.
ghost use Rattle.std.specs.Prelude.{◌≡◌, List};
ghost use Rattle.plane.specs.declared.coordinates.Point.{Point};
ghost use Rattle.journal_defs.specs.Edits.{State, after, inverse as inverse_spec, inverse_all, IsLegal, IsSound};

use arrayvec::ArrayVec;
use journal_defs::{Edit, EditList};

fn turned(edit: &Edit) -> Edit
    ensures { result ≡ inverse_spec edit.now }
{
    match *edit {
        Edit::Drop(e) => Edit::Keep(e),
        Edit::Keep(e) => Edit::Drop(e),
        Edit::Flip { from, to } => Edit::Flip { from: to, to: from },
    }
}

/// The edit that leads back: after a legal edit it is legal, and gives the state before.
pub fn inverse(edit: &Edit) -> Edit
    ensures inverse { result ≡ inverse_spec edit.now }
    ensures legal { (S : List Point) (s : State) → IsSound S s → IsLegal S s edit.now → IsLegal S (after edit.now s) result }
    ensures back { (S : List Point) (s : State) → IsSound S s → IsLegal S s edit.now → after result (after edit.now s) ≡ s }
{
    turned(edit)
}

/// The inverses of the edits, in reverse order.
pub fn inverses(edits: &EditList) -> EditList
    ensures { result ≡ inverse_all edits.now }
{
    let edits = edits.as_slice();
    let mut list: ArrayVec<Edit, 8> = ArrayVec::new();
    for done in 0..edits.len() {
        list.push(turned(&edits[edits.len() - 1 - done]));
    }
    EditList::make(list.as_slice())
}
