//! Why a message is refused.

ghost use Rattle.std.specs.Prelude.{◌≡◌};
ghost use Rattle.ref_messages.specs.declared.fault.PutFault.TheVariants as faults;

use chare_base::memory::Memory;
use thiserror::Error;

/// Why a message is refused.
#[derive(Clone, Copy, Debug, PartialEq, Eq, Error)]
pub enum PutFault {
    /// The message's iteration is over: it is before `now`, the first whose messages are still taken.
    #[error("the message's iteration is over: it is before {now}")]
    Old { now: u64 },
    /// A message is held under this key.
    #[error("a message is held under this key")]
    Held,
    /// An allocation was refused.
    #[error("out of memory")]
    Memory,
}

impl From<Memory> for PutFault {
    ghost from_gives = { λ _ e. e ≡ faults.Memory };

    fn from(_e: Memory) -> PutFault {
        PutFault::Memory
    }
}
