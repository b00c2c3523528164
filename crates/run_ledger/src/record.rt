//! The records of a run.

ghost use Rattle.std.specs.Prelude.{◌≡◌, ◌==◌, ◌++◌, ◌∷◌, ◌+◌, ◌≤◌, [], length, OnOk, OnErr};

use chare_base::memory::Memory;
use chare_base::plan::ElementId;
use std::alloc::Global;
use std::marker::Model;

/// What a run records.
#[derive(Clone, Copy, Debug, PartialEq, Eq)]
pub enum Record {
    /// The checkpoints of both replicas after `k` iterations are equal. It is the base from then on.
    Accept { k: u64 },
    /// The checkpoints after `k` iterations differ, first in the record of this element. Both replicas go back to
    /// the base.
    Differ { k: u64, element: ElementId },
    /// The crash line at this place in the script, from 0, struck. Its slot's replica is down.
    Crash { line: u32 },
    /// The replica that was down is up again, from the base.
    Mend { replica: u8 },
    /// Replica `from` alone took a checkpoint after `k` iterations, and the other, which was down, took it over. It is
    /// the base from then on.
    Adopt { k: u64, from: u8 },
    /// Both replicas were down, and are up again from the base.
    Both,
    /// The run is over: more slots crashed than there are spares.
    NoSpare,
    /// The run is over: no copy is left of what the base has of this node.
    Lost { node: u16 },
    /// The run is over: the base has done all iterations.
    Done,
}

/// Records in the order in which they were made. Contracts see the list and for how many more there is room.
#[derive(Drop)]
pub struct Records {
    records: Vec<Record>,
}

impl Model for Records {
    ghost use Rattle.std.specs.Prelude.{◌-◌, vec_capacity, vec_len};
    ghost use Rattle.run_ledger.specs.RecordLists.{RecordList};

    ghost Value = { RecordList };

    ghost view = { λ r. record { items = r.records.items; room = vec_capacity r.records - vec_len r.records } };
}

impl Records {
    /// No records. It takes no memory.
    pub fn new(alloc: Global) -> Records
        ensures { result.items ≡ [] }
    {
        Records {
            records: Vec::new(alloc),
        }
    }

    /// The records, in order.
    pub fn as_slice(&self) -> &[Record]
        ensures { result.now ≡ self.now.items }
    {
        self.records.as_slice()
    }

    /// How many records there are.
    pub fn len(&self) -> usize
        ensures { result ≡ length self.now.items }
    {
        self.records.len()
    }

    /// Whether there are none.
    pub fn is_empty(&self) -> bool
        ensures { result ≡ (length self.now.items == 0) }
    {
        self.records.is_empty()
    }

    /// Makes room for `more` records beyond those that there are.
    ///
    /// `Memory`: an allocation was refused, and all is as before.
    pub fn reserve(&mut self, more: usize) -> Result<(), Memory>
        ensures room { OnOk result (more ≤ self.new.room) }
        ensures items { self.new.items ≡ self.old.items }
        ensures err { OnErr result (self.new ≡ self.old) }
    {
        self.records.reserve(more)?;
        Ok(())
    }

    /// Appends a record, for which there is room. It takes no memory.
    pub fn push_within(&mut self, step: Record)
        requires { 1 ≤ self.old.room }
        ensures items { self.new.items ≡ self.old.items ++ step ∷ [] }
        ensures room { self.old.room ≤ self.new.room + 1 }
    {
        self.records.push(step).unwrap();
    }
}
