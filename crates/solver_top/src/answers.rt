// An answer before it is written.
ghost use Rattle.std.specs.Prelude.{◌≡◌, string_bytes};

use crate::status::Verdict;

/// A text, and the verdict that it stands for.
#[derive(Drop)]
pub struct Answer {
    pub verdict: Verdict,
    pub text: Vec<u8>,
}

impl Answer {
    /// The answer of a line.
    pub fn of_line(verdict: Verdict, line: String) -> Answer
        ensures verdict { result.verdict ≡ verdict }
        ensures text { result.text.items ≡ string_bytes line }
    {
        Answer {
            verdict,
            text: line.into_bytes(),
        }
    }
}
