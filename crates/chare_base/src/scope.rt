//! What an expression of a plan may read beside the cells of states.

/// What an expression may read beside the cells of states.
#[derive(Clone, Copy, Debug, PartialEq, Eq)]
pub struct Scope {
    /// How many values come with the message that the part needs.
    pub values: usize,
    /// How many loops are around it.
    pub loops: usize,
    /// Whether it may read which cell of its state it is for.
    pub which: bool,
    /// Whether it may read how many iterations are completed.
    pub iter: bool,
}
