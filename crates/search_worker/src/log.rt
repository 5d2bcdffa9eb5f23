/// How many plans were handed in, and how many of them became commits. A plan that was refreshed and handed in again
/// counts once.
#[derive(Clone, Copy, Debug, PartialEq, Eq)]
pub struct WorkLog {
    pub tried: u32,
    pub committed: u32,
}

impl WorkLog {
    ghost use Rattle.std.specs.Prelude.{◌≡◌, ◌+◌};

    /// No plan.
    pub(crate) fn empty() -> WorkLog
        ensures { (result.tried ≡ 0) × (result.committed ≡ 0) }
    {
        WorkLog {
            tried: 0,
            committed: 0,
        }
    }
}
