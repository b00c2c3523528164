//! The outside: where bytes come from and where they go.
//!
//! A program above this layer reads a `Source` and writes a `Sink`, whatever stands behind them. Both count
//! their faults: a call fails only where the count rose, and then moved no byte. A source also counts its
//! takes, so that a contract can bound them. Where an implementation
//! tells its bytes, each call says which ones it moved; `read_up_to` and `write_all` say it of a whole text.
//!
//! `MemorySource` and `MemorySink` keep their bytes in memory and fail at the calls that they are told to. A sink
//! fails also where it has no room.
//! `StdSource` and `StdSink` stand over a reader and a writer of std. Over standard input and output they
//! are the trusted edge: no bytes are told there, and that the system moved them is std's word.
#![tactic(auto)]

pub mod calls;
pub mod edge;
pub mod memory_sink;
pub mod memory_source;
pub mod std_sink;
pub mod std_source;
