// The edits of one commit, in their turn.
ghost use Rattle.std.specs.Prelude.{◌≡◌, ◌*◌, ◌≤◌, ℕ, length, ◌↔◌, OnOk, OnErr, IfErr, IsTrue};
ghost use Rattle.std.specs.List.{Any};
ghost use Rattle.journal_defs.specs.Edits.{after, inverse, IsLegal};
ghost use Rattle.journal_defs.specs.Journal.{after_all, AreLegal};
ghost use Rattle.replay.specs.Applied.{AreWithin, IsFlip, IsWithin, IsFirstFault};
ghost use Rattle.replay.specs.Edited.{IsSoundLayout, HasBecome, HasTurned, IsFault, IsEditFault};
ghost use Rattle.replay.specs.Machine.{layers};
ghost use Rattle.replay.specs.Room.{HasRoomFor, HasRoomForAll, IsSameSubdivision};

use crate::changing::change;
use crate::fault::ApplyFault;
use crate::reserving::reserve;
use edit::fits_on_true_stars;
use journal_defs::{Edit, EditList, Why};
use plane::Points;
use subdivision::Subdivision;

/// The first of some edits that isn't legal in its turn, and why.
#[derive(Clone, Copy)]
pub struct Misfit {
    pub at: u32,
    pub why: Why,
}

// The edit that leads back.
fn inverse_of(edit: &Edit) -> Edit
    ensures { result ≡ inverse edit.now }
{
    match *edit {
        Edit::Drop(e) => Edit::Keep(e),
        Edit::Keep(e) => Edit::Drop(e),
        Edit::Flip { from, to } => Edit::Flip { from: to, to: from },
    }
}

/// Makes the edit where it is legal.
pub fn make_edit(all: &mut Subdivision, points: &Points, edit: &Edit) -> Result<(), Why>
    requires sound { IsSoundLayout points.now all.old }
    requires within { IsWithin (length points.now) edit.now }
    requires room { HasRoomFor 1 all.old.stars edit.now }
    ensures legal { OnOk result (IsLegal points.now (layers all.old) edit.now) }
    ensures made { OnOk result (HasBecome 1 (after edit.now (layers all.old)) all.old all.new) }
    ensures refused { IfErr result (IsFault points.now (layers all.old) edit.now) }
    ensures unchanged { OnErr result (all.new ≡ all.old) }
{
    is_legal(all, points, edit)?;
    change(all, points, edit);
    Ok(())
}

/// Whether the edit is legal, or why not.
pub fn is_legal(all: &Subdivision, points: &Points, edit: &Edit) -> Result<(), Why>
    requires sound { IsSoundLayout points.now all.now }
    requires within { IsWithin (length points.now) edit.now }
    ensures legal { OnOk result (IsLegal points.now (layers all.now) edit.now) }
    ensures refused { IfErr result (IsFault points.now (layers all.now) edit.now) }
{
    let _count = points.len();
    fits_on_true_stars(points, all, edit)
}

/// Whether the edit is legal.
pub fn can_make(all: &Subdivision, points: &Points, edit: &Edit) -> bool
    requires sound { IsSoundLayout points.now all.now }
    requires within { IsWithin (length points.now) edit.now }
    ensures legal { IsTrue result ↔ IsLegal points.now (layers all.now) edit.now }
{
    match is_legal(all, points, edit) {
        Ok(()) => true,
        Err(_) => false,
    }
}

// Undoes an edit.
fn undo(all: &mut Subdivision, points: &Points, edit: &Edit)
    requires sound { IsSoundLayout points.now all.old }
    requires legal { IsLegal points.now (layers all.old) (inverse edit.now) }
    requires within { IsWithin (length points.now) edit.now }
    requires room { HasRoomFor 1 all.old.stars edit.now }
    ensures { HasBecome 1 (after (inverse edit.now) (layers all.old)) all.old all.new }
{
    change(all, points, &inverse_of(edit));
}

/// Makes the edits where each is legal in its turn. Where one isn't, those before it are undone.
pub fn make_edits(all: &mut Subdivision, points: &Points, edits: &[Edit]) -> Result<(), Misfit>
    requires sound { IsSoundLayout points.now all.old }
    requires within { AreWithin (length points.now) edits.now }
    requires few { length edits.now ≤ 8 }
    requires room { HasRoomForAll (2 * length edits.now) all.old.stars edits.now }
    ensures legal { OnOk result (AreLegal points.now (layers all.old) edits.now) }
    ensures made { OnOk result (HasBecome (2 * length edits.now) (after_all edits.now (layers all.old)) all.old all.new) }
    ensures refused { IfErr result (λ m. IsFirstFault points.now (layers all.old) edits.now m.at m.why) }
    ensures undone { OnErr result (HasBecome (2 * length edits.now) (layers all.old) all.old all.new) }
{
    let Some((first, rest)) = edits.split_first() else {
        return Ok(());
    };
    if let Err(why) = make_edit(all, points, first) {
        return Err(Misfit { at: 0, why });
    }
    match make_edits(all, points, rest) {
        Ok(()) => Ok(()),
        Err(misfit) => {
            undo(all, points, first);
            Err(Misfit {
                at: misfit.at + 1,
                why: misfit.why,
            })
        }
    }
}

/// The edits of a commit: room for them first, then each in its turn.
pub fn perform(all: &mut Subdivision, points: &Points, edits: &EditList) -> Result<(), ApplyFault>
    requires sound { IsSoundLayout points.now all.old }
    requires within { AreWithin (length points.now) edits.now }
    ensures legal { OnOk result (AreLegal points.now (layers all.old) edits.now) }
    ensures made { OnOk result (HasTurned (after_all edits.now (layers all.old)) all.old all.new) }
    ensures refused { IfErr result (IsEditFault points.now (layers all.old) edits.now) }
    ensures undone { OnErr result (IsSameSubdivision all.old all.new) }
    ensures some { 1 ≤ length edits.now }
    ensures few { length edits.now ≤ 8 }
{
    let edits = edits.as_slice();
    if let Err(_) = reserve(all, points, edits) {
        return Err(ApplyFault::NoMemory);
    }
    match make_edits(all, points, edits) {
        Ok(()) => Ok(()),
        Err(misfit) => Err(ApplyFault::Illegal {
            at: misfit.at,
            why: misfit.why,
        }),
    }
}
