// A count of calls that only contracts see.
ghost use Rattle.std.specs.Prelude.{◌≡◌, ◌+◌, ◌<◌, OnOk};
ghost use Rattle.std.specs.Io.{ReadsAtMost};
ghost use Rattle.mcp_outside.specs.Causes.{HasCause};
ghost use Rattle.mcp_outside.specs.Bytes.{Takes};

use crate::{Failed, Source};
use std::marker::Model;
use std::sync::ledger::{Blank, Book, Ledger, Share};

/// How many calls were made. Contracts see the number; it takes no bytes, and only the calls that it is lent
/// to change it.
#[derive(Drop)]
pub struct Steps<L: Ledger> {
    book: Book<L>,
    share: Share<L>,
}

impl<L: Ledger> Model for Steps<L> {
    ghost use Rattle.std.specs.Prelude.{ℕ, ◌<◌};

    ghost Value = { ℕ };

    ghost view = { λ s. s.book.total };

    ghost invariant = { λ s. 0 < s.share.parts };
}

impl<L: Ledger> Steps<L> {
    /// No call yet. The blank is `Blank::new(1)`, of which the caller's ledger has its name.
    pub fn make(blank: Blank) -> Steps<L>
        requires name { blank.name ≡ L.name }
        requires parts { blank.parts ≡ L.parts }
        requires some { 0 < blank.parts }
        ensures { result ≡ 0 }
    {
        let (book, share) = blank.open();
        Steps { book, share }
    }

    // One call more.
    fn tick(&mut self)
        ensures { self.new ≡ self.old + 1 }
    {
        self.book.add(&mut self.share, 1);
    }
}

// A source and the counter of its calls, as they are lent to a reading: `take` is the only way on, and counts.
#[derive(Drop)]
pub(crate) struct Counted<'a, S: Source, L: Ledger> {
    source: &'a mut S,
    steps: &'a mut Steps<L>,
}

impl<'a, S: Source, L: Ledger> Counted<'a, S, L> {
    pub(crate) fn make(source: &'a mut S, steps: &'a mut Steps<L>) -> Counted<'a, S, L>
        ensures same_source { result.source.ghost_name ≡ source.entry.ghost_name }
        ensures same_steps { result.steps.ghost_name ≡ steps.entry.ghost_name }
        ensures source { result.source.now ≡ source.old }
        ensures steps { result.steps.now ≡ steps.old }
    {
        Counted { source, steps }
    }

    // One call of the source's `take`.
    pub(crate) fn take(&mut self, room: &mut [u8]) -> Result<usize, Failed>
        ensures same_source { self.new.source.ghost_name ≡ self.old.source.ghost_name }
        ensures same_steps { self.new.steps.ghost_name ≡ self.old.steps.ghost_name }
        ensures call { self.new.steps.now ≡ self.old.steps.now + 1 }
        ensures bound { ReadsAtMost result room.new }
        ensures bytes { Takes (S.left self.old.source.now) (S.left self.new.source.now) result room.new }
        ensures cause { HasCause (S.faults self.old.source.now) (S.faults self.new.source.now) result }
        ensures kept { OnOk result (S.faults self.new.source.now ≡ S.faults self.old.source.now) }
    {
        self.steps.tick();
        self.source.take(room)
    }
}
