//! The limits of a job. Each is tested where a plan is made, and a plan's type keeps them.

/// Bytes of a name, at most.
pub const NAME_BYTES: usize = 32;
/// Iterations of a job, at most.
pub const ITERATIONS: u64 = 1_000_000;
/// Arrays of a job, at most.
pub const ARRAYS: usize = 8;
/// Elements of a job, at most, and the greatest size of an array's dimension.
pub const ELEMENTS: u32 = 4096;
/// States of an array, at most.
pub const STATES: usize = 16;
/// Cells of an element, at most, and of one of its states.
pub const CELLS: u32 = 4096;
/// Cells of all elements of a job, at most.
pub const ALL_CELLS: u64 = 1_048_576;
/// Entries and reductions of an array, at most.
pub const PORTS: usize = 16;
/// Values of a message, at most.
pub const VALUES: usize = 8;
/// How far a sender stands from its receiver in either direction, at most.
pub const OFFSET: i8 = 8;
/// Steps of an array, at most.
pub const STEPS: usize = 32;
/// Parts of a step, at most.
pub const PARTS: usize = 8;
/// The greatest cost of a step: 1 for each statement, in both blocks of an `if`; a loop's turn costs 1 and its block.
pub const COST: u64 = 1_000_000;
/// Loops around one another, at most.
pub const LOOPS: usize = 32;
/// Answers of a job, at most.
pub const ANSWERS: usize = 16;
