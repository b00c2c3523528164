//! How a run goes: its nodes, checkpoints and spares.

/// What is done after a crash.
#[derive(Clone, Copy, Debug, PartialEq, Eq)]
pub enum Mode {
    /// The replica that lost a node goes back to the last checkpoint.
    Strong,
    /// The replica that lost a node takes the other's state at a checkpoint made at once.
    Medium,
    /// The replica that lost a node takes the other's state at its next checkpoint.
    Weak,
}

/// A run's options.
#[derive(Clone, Copy, Debug, PartialEq, Eq)]
pub struct Options {
    /// Nodes of each replica, from 1 to 32.
    pub nodes: u16,
    /// Iterations from one checkpoint to the next, at least: from 1 to 1,000,000.
    pub every: u64,
    /// Nodes that stand by for crashed ones, up to 64.
    pub spares: u16,
    pub mode: Mode,
}

impl Options {
    /// What a run goes by where no option is named.
    pub const DEFAULT: Options = Options {
        nodes: 1,
        every: 10,
        spares: 0,
        mode: Mode::Strong,
    };
}
