//! Tables of the names that a job declares.

use crate::names::Names;
use sqlite_items::Items;

/// The names of a job.
#[derive(Drop)]
pub struct JobNames {
    /// The arrays.
    pub arrays: Names,
    /// For each array, in text order, its states, entries and reductions.
    pub tables: Items<Names>,
}

/// How many ports, entries and reductions were declared so far.
#[derive(Clone, Copy)]
pub struct Counts {
    pub ports: usize,
    pub entries: usize,
    pub reductions: usize,
}

impl Counts {
    /// None yet.
    pub const NONE: Counts = Counts {
        ports: 0,
        entries: 0,
        reductions: 0,
    };
}
