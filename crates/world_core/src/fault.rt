//! Why there was no event, and why there is no ending.

ghost use Rattle.std.specs.Prelude.{◌≡◌};
ghost use Rattle.world_core.specs.declared.fault.StepFault.TheVariants as steps;
ghost use Rattle.world_core.specs.declared.fault.DrillFault.TheVariants as drills;

use chare_base::memory::Memory;
use thiserror::Error;

/// Why no event happened.
#[derive(Clone, Copy, Debug, PartialEq, Eq, Error)]
pub enum StepFault {
    /// The event isn't enabled. The world is as before.
    #[error("that event cannot happen now")]
    NotEnabled,
    /// An allocation was refused. The world is over.
    #[error("out of memory")]
    Memory,
}

impl From<Memory> for StepFault {
    ghost from_gives = { λ _ e. e ≡ steps.Memory };

    fn from(_e: Memory) -> StepFault {
        StepFault::Memory
    }
}

/// Why a drill has no ending.
#[derive(Clone, Copy, Debug, PartialEq, Eq, Error)]
pub enum DrillFault {
    /// No actor is enabled, or the schedule's turns have run out, and the run hasn't ended.
    #[error("the run stands still")]
    Still,
    /// An allocation was refused.
    #[error("out of memory")]
    Memory,
}

impl From<Memory> for DrillFault {
    ghost from_gives = { λ _ e. e ≡ drills.Memory };

    fn from(_e: Memory) -> DrillFault {
        DrillFault::Memory
    }
}
