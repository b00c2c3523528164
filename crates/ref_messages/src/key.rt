//! What a message is held under.

use chare_base::message::Port;

/// What a message is held under. Keys are ordered by iteration first, then by port.
#[derive(Clone, Copy, Debug, PartialEq, Eq, PartialOrd, Ord)]
pub struct RefKey {
    /// The iteration that the message belongs to.
    pub iteration: u64,
    /// What it was sent to, within the element.
    pub port: Port,
}
