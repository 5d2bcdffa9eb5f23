use crate::edit::EditList;
use crate::touch::is_touched;
use index_sets::Entry;

/// Edits that one caller made at once, as the caller's commit of this number.
#[derive(Drop)]
pub struct Commit {
    pub caller: u32,
    pub seq: u32,
    pub edits: EditList,
}

impl Entry for Commit {
    ghost use Rattle.journal_defs.specs.Journal.{commit_touches};

    ghost caller = { λ c. c.caller };

    ghost touches = { λ c place. commit_touches c place };

    fn caller(&self) -> u32 {
        self.caller
    }

    fn touches(&self, place: u32) -> bool {
        self.edits.as_slice().iter().any(|e| is_touched(e, place))
    }
}
