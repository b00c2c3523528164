//! Why a tree is no job: the rules of the language by class, each with its place.

ghost use Rattle.std.specs.Prelude.{◌≡◌, ◌<◌};
ghost use Rattle.job_rules.specs.Faults.{class_of, comes_before, fault_if, name_fault, place_of, sooner};
ghost use Rattle.job_rules.specs.declared.fault.CheckFault.TheVariants as faults;

use chare_base::{limits, memory};
use job_tree::token::Span;
use std::alloc::{AllocError, AllocFailed};
use thiserror::Error;

/// What a limit counts. Where several are exceeded at one place, the first of these is named.
#[derive(Clone, Copy, Debug, PartialEq, Eq)]
pub enum LimitKind {
    /// Bytes of a name.
    Name,
    /// Arrays of the job.
    Arrays,
    /// States of an array.
    States,
    /// Entries and reductions of an array.
    Entries,
    /// Steps of an array.
    Steps,
    /// Parts of a step.
    Parts,
    /// Answers of the job.
    Answers,
    /// Elements of the job.
    Elements,
    /// Cells of an element.
    Cells,
    /// Cells of all elements.
    AllCells,
    /// The cost of a step: its statements, those of both blocks of an `if`, and each turn of a loop.
    Cost,
}

/// The first rule that a tree breaks: of the first class that has one, at its least place. Places are bytes of the
/// text, from 0.
#[derive(Clone, Copy, Debug, PartialEq, Eq, Error)]
pub enum CheckFault {
    /// A name that was declared before, at the later one.
    #[error("a name is declared twice at byte {at}")]
    Twice {
        at: u32,
    },
    /// A name that isn't declared, or in an expression one that is no state's, parameter's or loop's.
    #[error("an unknown name at byte {at}")]
    Unknown {
        at: u32,
    },
    /// A name of another kind than its place asks for, with an index where it has none or without the one it needs, or
    /// with another number of values or coordinates; or the word `cell` or `iter` where it has no meaning.
    #[error("a name of another kind at byte {at}")]
    Kind {
        at: u32,
    },
    /// An entry between arrays of two shapes, or whose offset has another number of coordinates than its array; or a
    /// send from another array than the entry's source.
    #[error("arrays of two shapes at byte {at}")]
    Shape {
        at: u32,
    },
    /// An entry or a reduction, declared at `entry`, that isn't sent to once and received from once, or is
    /// sent to within an `if` or a loop.
    #[error("not sent or received once at byte {at}")]
    NotOnce {
        entry: u32,
        at: u32,
    },
    /// An entry or a reduction, declared at `entry`, that is sent to in a step which isn't before the receiving one.
    #[error("sent too early at byte {at}")]
    TooEarly {
        entry: u32,
        at: u32,
    },
    /// A state, declared at `name`, that one part of a step writes and another uses.
    #[error("parts of a step overlap at byte {at}")]
    Overlap {
        name: u32,
        at: u32,
    },
    /// A written number outside its range.
    #[error("a number outside its range at byte {at}")]
    Bound {
        at: u32,
    },
    /// A count above its greatest value. `value` is the count up to and with this place, or the greatest `u64`.
    #[error("a limit is exceeded at byte {at}: {value}")]
    Limit {
        which: LimitKind,
        value: u64,
        at: u32,
    },
    /// An allocation was refused.
    #[error("out of memory")]
    Memory,
}

impl CheckFault {
    /// Where the rule is broken, 0 where memory ran out.
    pub fn place(self) -> u32
        ensures { result ≡ place_of self }
    {
        match self {
            CheckFault::Twice { at }
            | CheckFault::Unknown { at }
            | CheckFault::Kind { at }
            | CheckFault::Shape { at }
            | CheckFault::NotOnce { at, .. }
            | CheckFault::TooEarly { at, .. }
            | CheckFault::Overlap { at, .. }
            | CheckFault::Bound { at }
            | CheckFault::Limit { at, .. } => at,
            CheckFault::Memory => 0,
        }
    }

    /// The number of the class in the order of classes, from 0.
    pub fn class(self) -> u8
        ensures exact { result ≡ class_of self }
        ensures within { result < 10 }
    {
        match self {
            CheckFault::Twice { .. } => 0,
            CheckFault::Unknown { .. } => 1,
            CheckFault::Kind { .. } => 2,
            CheckFault::Shape { .. } => 3,
            CheckFault::NotOnce { .. } => 4,
            CheckFault::TooEarly { .. } => 5,
            CheckFault::Overlap { .. } => 6,
            CheckFault::Bound { .. } => 7,
            CheckFault::Limit { .. } => 8,
            CheckFault::Memory => 9,
        }
    }
}

/// Of two faults the one that is named: of the earlier class, and in one class the one at the lesser place. Of two
/// of one class at one place it is the one that was found before.
pub fn sooner(found: Option<CheckFault>, other: Option<CheckFault>) -> Option<CheckFault>
    ensures { result ≡ sooner found other }
{
    match (found, other) {
        (Some(first), Some(second)) => {
            if comes_before(second, first) {
                other
            } else {
                found
            }
        }
        (Some(_), None) => found,
        (None, _) => other,
    }
}

fn comes_before(a: CheckFault, b: CheckFault) -> bool
    ensures { result ≡ comes_before a b }
{
    a.class() < b.class() || a.class() == b.class() && a.place() < b.place()
}

/// A fault where a test says that the rule is broken.
pub fn fault_if(broken: bool, fault: CheckFault) -> Option<CheckFault>
    ensures { result ≡ fault_if broken fault }
{
    if broken { Some(fault) } else { None }
}

/// The fault of a name of more than 32 bytes.
pub fn name_fault(name: Span) -> Option<CheckFault>
    ensures { result ≡ name_fault name }
{
    let limit = CheckFault::Limit {
        which: LimitKind::Name,
        value: u64::from(name.len),
        at: name.at,
    };
    fault_if(name.len as usize > limits::NAME_BYTES, limit)
}

impl From<memory::Memory> for CheckFault {
    ghost from_gives = { λ _ e. e ≡ faults.Memory };

    fn from(_e: memory::Memory) -> CheckFault {
        CheckFault::Memory
    }
}

impl From<AllocError> for CheckFault {
    ghost from_gives = { λ _ e. e ≡ faults.Memory };

    fn from(_e: AllocError) -> CheckFault {
        CheckFault::Memory
    }
}

impl<T: Drop> From<AllocFailed<T>> for CheckFault {
    ghost from_gives = { λ _ e. e ≡ faults.Memory };

    fn from(_e: AllocFailed<T>) -> CheckFault {
        CheckFault::Memory
    }
}
