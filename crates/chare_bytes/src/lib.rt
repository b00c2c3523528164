//! Bytes, names, and the error of a call that runs out of memory.
//!
//! This is the lowest crate. It knows nothing of jobs, so what stands on it alone, as the reading of texts, is
//! not proved again when the plan changes.
#![tactic(auto)]

pub mod bytes;
pub mod memory;
#[cfg(test)]
mod tests;
