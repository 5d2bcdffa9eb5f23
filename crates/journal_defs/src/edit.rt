ghost use Rattle.std.specs.Prelude.{◌≡◌, ◌≤◌, length};

use arrayvec::ArrayVec;
use plane::Pair;
use std::marker::Model;

/// One change of a triangulation of which some pairs are kept. (This project's own; the flip is a textbook's.)
#[derive(Clone, Copy, Debug, PartialEq, Eq)]
pub enum Edit {
    /// A kept pair isn't kept any more.
    Drop(Pair),
    /// A pair of the triangulation that isn't kept is kept from now on.
    Keep(Pair),
    /// A pair that isn't kept gives way to the other diagonal of its two triangles.
    Flip { from: Pair, to: Pair },
}

impl Default for Edit {
    fn default() -> Edit {
        Edit::Drop(Pair::of(0, 1))
    }
}

/// Why an edit doesn't fit.
#[derive(Clone, Copy, Debug, PartialEq, Eq)]
pub enum Why {
    /// The pair that is dropped, kept or flipped isn't in the triangulation.
    NotThere,
    /// The pair that is dropped isn't kept.
    NotKept,
    /// The pair that is kept or flipped is kept already.
    NotSpare,
    /// The pair that is dropped is a border pair.
    Border,
    /// The least inner end of the dropped pair with a need that the other kept pairs don't meet.
    Opens(u32),
    /// The new pair of a flip is in the triangulation.
    AlreadyThere,
    /// The least end of the new pair that is no apex of the old one.
    NotApex(u32),
    /// The least end of the old pair that isn't strictly on its own side of the new one.
    Bent(u32),
}

/// A vertex and the number of the last commit that touched it.
#[derive(Clone, Copy, Debug, PartialEq, Eq, Default)]
pub struct Claim {
    pub vertex: u32,
    pub stamp: u64,
}

/// From 1 to 8 edits.
#[derive(Drop)]
pub struct EditList {
    list: ArrayVec<Edit, 8>,
}

impl Model for EditList {
    ghost use Rattle.std.specs.Prelude.{List, ◌≤◌, length};
    ghost use Rattle.journal_defs.specs.declared.edit.Edit.{Edit};

    ghost Value = { List Edit };

    ghost view = { λ a. a.list.items };

    ghost invariant = { λ a. (1 ≤ length a.list.items) × (length a.list.items ≤ 8) };
}

impl EditList {
    /// The list of these edits.
    pub fn make(edits: &[Edit]) -> EditList
        requires some { 1 ≤ length edits.now }
        requires few { length edits.now ≤ 8 }
        ensures { result ≡ edits.now }
    {
        let mut list = ArrayVec::new();
        for e in edits {
            list.push(*e);
        }
        EditList { list }
    }

    /// The edits in their order.
    pub fn as_slice(&self) -> &[Edit]
        ensures edits { result.now ≡ self.now }
        ensures some { 1 ≤ length self.now }
        ensures few { length self.now ≤ 8 }
    {
        self.list.as_slice()
    }
}
