// The session that a text is, and why a text is none.
use cost_defs::Costs;
use edit_session::EditCommand;
use instance_io::InstanceFault;
use plane::Points;

/// A session: the points and the costs of its instance, and its commands in their order. The instance's name isn't used.
#[derive(Drop)]
pub struct SessionScript {
    pub points: Points,
    pub costs: Costs,
    pub commands: Vec<EditCommand>,
}

/// Why a text is no session, in the order in which the faults are looked for. (This project's own.)
#[derive(Clone, Copy, Debug, PartialEq, Eq)]
pub enum SessionFault {
    /// The text has more than 64 levels, or no reading as JSON.
    NotJson,
    /// The reading isn't an object, or it has no `instance`.
    NoInstance,
    /// The `commands` are missing or no array.
    NoCommands,
    /// The instance is refused.
    Instance(InstanceFault),
    /// There are more than 100,000 commands; it shows how many.
    TooManyCommands(u32),
    /// The least place of an item that is no command.
    BadCommand(u32),
    /// Memory was not found. No other variant says so.
    NoMemory,
}
