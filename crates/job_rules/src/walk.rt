//! Where a walk over the tree is.

/// Where an expression stands.
#[derive(Clone, Copy)]
pub enum Site {
    /// In the initial value of a state, which has a size or not.
    Start { sized: bool },
    /// In the part of a step that has this number.
    Part { number: usize },
}

/// Which part of which step: the numbers of the array, of its step, and of the part in the step.
#[derive(Clone, Copy)]
pub struct PartAt {
    pub array: usize,
    pub step: usize,
    pub part: usize,
}
