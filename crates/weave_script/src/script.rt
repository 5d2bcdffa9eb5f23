// A script, and why a text is none.
use instance_io::InstanceFault;
use plane::Points;
use weave::Step;

/// A script: the points of its instance, and its steps in their order. The instance's name and costs aren't used.
#[derive(Drop)]
pub struct Script {
    pub points: Points,
    pub steps: Vec<Step>,
}

/// Why a text is no script, in the order in which the faults are looked for. (This project's own.)
#[derive(Clone, Copy, Debug, PartialEq, Eq)]
pub enum ScriptFault {
    /// The text has more than 64 levels, or no reading as JSON.
    NotJson,
    /// The reading isn't an object, or it has no `instance`.
    NoInstance,
    /// The `steps` are missing or no array.
    NoSteps,
    /// The instance is refused.
    Instance(InstanceFault),
    /// There are more than 100,000 steps; it shows how many.
    TooManySteps(u32),
    /// The least place of an item that is no step.
    BadStep(u32),
    /// Memory was not found. No other variant says so.
    NoMemory,
}
