//! Slots of a run, and sets of fault lines.

/// A slot: a node of a replica. The two slots of one node number are buddies.
#[derive(Clone, Copy, Debug, PartialEq, Eq, PartialOrd, Ord)]
pub struct SlotId {
    /// 0 or 1.
    pub replica: u8,
    /// The node's number in its replica, from 0.
    pub node: u16,
}

/// A set of lines of a fault script: bit i stands for the i-th fault line, from 0.
#[derive(Clone, Copy, Debug, PartialEq, Eq)]
pub struct LineSet(pub u64);

impl LineSet {
    /// No line.
    pub const NONE: LineSet = LineSet(0);
}
