// Why an input is refused.
use instance_io::InstanceFault;
use solution_io::SolutionFault;

/// Why a text is no bundle, in the order in which the faults are looked for. (This project's own.)
#[derive(Clone, Copy, Debug, PartialEq, Eq)]
pub enum BundleFault {
    /// The text has more than 64 levels, or no reading as JSON.
    NotJson,
    /// The reading isn't an object, or it has no `instance`.
    NoInstance,
    /// It has no `solution`.
    NoSolution,
}

/// Why the bundle of an input is refused: its own fault, its instance's, or its solution's, in this order.
#[derive(Debug, Drop)]
pub enum Refusal {
    Bundle(BundleFault),
    Instance(InstanceFault),
    Solution(SolutionFault),
}

/// Why an input gave no value: it is refused, or memory was not found.
#[derive(Debug, Drop)]
pub enum Unread {
    Refused(Refusal),
    NoMemory,
}
