// How the program ends.
ghost use Rattle.std.specs.Prelude.{◌≡◌};
ghost use Rattle.solver_top.specs.Statuses.{status_of, number_of};

/// The number with which the program ends where the machine gives no words. (This project's own.)
pub const NO_WORDS: u8 = 7;

/// How the program ends, by the number of its exit status. (This project's own.)
#[derive(Clone, Copy, Debug, PartialEq, Eq)]
pub enum Status {
    /// 0: the command's text was written whole.
    Done,
    /// 1: the judge says no.
    No,
    /// 2: the words are no line of the program; nothing was read.
    Usage,
    /// 3: the input has no reading for the command, or is too long.
    Refused,
    /// 4: the source failed; nothing was written.
    ReadFault,
    /// 5: the sink failed; a prefix of the text was written.
    WriteFault,
    /// 6: memory was not found; nothing was written.
    NoMemory,
}

impl Status {
    /// The number with which the program ends.
    pub fn number(self) -> u8
        ensures { result ≡ number_of self }
    {
        match self {
            Status::Done => 0,
            Status::No => 1,
            Status::Usage => 2,
            Status::Refused => 3,
            Status::ReadFault => 4,
            Status::WriteFault => 5,
            Status::NoMemory => 6,
        }
    }
}

/// The verdict that a text stands for, before it is written.
#[derive(Clone, Copy, Debug, PartialEq, Eq)]
pub enum Verdict {
    Done,
    No,
    Usage,
    Refused,
}

impl Verdict {
    /// The status of a text that was written whole.
    pub fn status(self) -> Status
        ensures { result ≡ status_of self }
    {
        match self {
            Verdict::Done => Status::Done,
            Verdict::No => Status::No,
            Verdict::Usage => Status::Usage,
            Verdict::Refused => Status::Refused,
        }
    }
}
