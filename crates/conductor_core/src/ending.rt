//! How a run ended.

use chare_base::bytes::Bytes;
use checkpoint_store::mark::Marks;
use run_ledger::record::Records;

/// Why a run is over.
#[derive(Clone, Copy, Debug, PartialEq, Eq)]
pub enum Outcome {
    /// The job has done all its iterations.
    Done,
    /// More slots crashed than there are spares.
    NoSpare,
    /// No copy is left of what the base has of this node.
    Lost { node: u16 },
}

/// The ending of a run.
#[derive(Drop)]
pub struct Ending {
    pub outcome: Outcome,
    /// All records, in order.
    pub records: Records,
    /// A mark of each checkpoint that was accepted or adopted, in order.
    pub marks: Marks,
    /// The checkpoint at the last iteration where the job is done; else empty.
    pub last: Bytes,
}
