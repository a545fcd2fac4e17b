//! Where a worker may be held before a turn.

/// Sees each worker at the start of each of its turns.
pub trait Gate {
    /// Comes at the start of a turn, when the worker holds nothing. `actor` is whose turn it is, and `turn` counts the turns
    /// that the worker took before. It may wait.
    fn enter(&self, actor: u32, turn: u64);
}

/// A gate that holds nobody.
#[derive(Clone, Copy, Debug)]
pub struct OpenGate;

impl Gate for OpenGate {
    fn enter(&self, _actor: u32, _turn: u64) {}
}
