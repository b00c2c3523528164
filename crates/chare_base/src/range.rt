//! Cells beside one another.

/// Cells of an element beside one another, as those of a state.
#[derive(Clone, Copy, Debug, PartialEq, Eq)]
pub struct Range {
    /// The number of the first.
    pub at: u32,
    /// How many there are.
    pub count: u32,
}
