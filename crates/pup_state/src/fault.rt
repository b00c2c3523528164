//! Why bytes are no checkpoint and no record.

ghost use Rattle.std.specs.Prelude.{◌≡◌};
ghost use Rattle.pup_state.specs.declared.fault.PupFault.TheVariants as faults;

use chare_base::memory::Memory;
use thiserror::Error;

/// What is first wrong with bytes that are read as a checkpoint, or as an element's record. `at` is a place in the
/// bytes that the call was given. Within a record the fields are looked at in the order `Short`, `Order`,
/// `Iteration`, `SlipKind`, `Layout`, and then its cells.
#[derive(Clone, Copy, Debug, PartialEq, Eq, Error)]
pub enum PupFault {
    /// The bytes end within what begins at this place: the mark (4 bytes), the number of elements (4 bytes), a
    /// record's fixed fields (28 bytes), or a record's cells.
    #[error("the bytes end within the field at {at}")]
    Short { at: u32 },
    /// The first four bytes aren't `ACR1`.
    #[error("no checkpoint begins so")]
    Magic,
    /// The number of elements that was found isn't the plan's.
    #[error("the checkpoint has {found} elements, which is not the plan's number")]
    Count { found: u32 },
    /// The record that begins at this place isn't the next element's, by its array and index.
    #[error("the record at {at} is another element's")]
    Order { at: u32 },
    /// The number of completed iterations, at this place, is above the plan's, or isn't the first record's.
    #[error("the number of iterations at {at} cannot be")]
    Iteration { at: u32 },
    /// The slip whose kind is at this place cannot be: a kind above 3, or none with a step or an iteration, or a
    /// step that the element doesn't have, or an iteration that isn't completed.
    #[error("the slip at {at} cannot be")]
    SlipKind { at: u32 },
    /// The number of cells, at this place, isn't the element's.
    #[error("the number of cells at {at} is not the element's")]
    Layout { at: u32 },
    /// Bytes follow the last record; this is the place of the first of them.
    #[error("bytes follow the last record, from {at} on")]
    Trailing { at: u32 },
    /// An allocation was refused. Nothing is wrong with the bytes.
    #[error("out of memory")]
    Memory,
}

impl From<Memory> for PupFault {
    ghost from_gives = { λ _ e. e ≡ faults.Memory };

    fn from(_e: Memory) -> PupFault {
        PupFault::Memory
    }
}
