//! Why a text is no job.

ghost use Rattle.std.specs.Prelude.{◌≡◌};
ghost use Rattle.job_tree.specs.declared.fault.ParseFault.TheVariants as faults;

use chare_bytes::memory::Memory;
use std::alloc::{AllocError, AllocFailed};
use thiserror::Error;

/// Why a text is no job. `at` is the place of a byte of the text, from 0.
#[derive(Clone, Copy, Debug, PartialEq, Eq, Error)]
pub enum ParseFault {
    /// The text is longer than the limit; `at` is the first place past it.
    #[error("the text is too long at byte {at}")]
    TooLong { at: u32 },
    /// No token begins at this byte, and up to it the text begins a job.
    #[error("no token begins at byte {at}")]
    NotToken { at: u32 },
    /// A number above the greatest one, where a job may go on.
    #[error("the number at byte {at} is too large")]
    NumberTooLarge { at: u32 },
    /// The first token with which no job goes on.
    #[error("unexpected token at byte {at}")]
    Unexpected { at: u32 },
    /// The first token that opens more levels of nesting than may be open.
    #[error("nested too deep at byte {at}")]
    TooDeep { at: u32 },
    /// An allocation was refused.
    #[error("out of memory")]
    Memory,
}

impl From<AllocError> for ParseFault {
    ghost from_gives = { λ _ e. e ≡ faults.Memory };

    fn from(_e: AllocError) -> ParseFault {
        ParseFault::Memory
    }
}

impl<T: Drop> From<AllocFailed<T>> for ParseFault {
    ghost from_gives = { λ _ e. e ≡ faults.Memory };

    fn from(_e: AllocFailed<T>) -> ParseFault {
        ParseFault::Memory
    }
}

impl From<Memory> for ParseFault {
    ghost from_gives = { λ _ e. e ≡ faults.Memory };

    fn from(_e: Memory) -> ParseFault {
        ParseFault::Memory
    }
}
