// What may happen between two moments of a caller.

/// What is called between two steps of a caller. It promises nothing, so no contract rests on what it does.
pub trait Gate {
    /// Called with the number of the caller.
    fn between(&self, caller: u32);
}

/// A gate that does nothing.
#[derive(Clone, Copy, Debug)]
pub struct OpenGate;

impl Gate for OpenGate {
    fn between(&self, _caller: u32) {}
}
