//! Messages: where they are sent to, and what they carry.

use crate::plan::ElementId;

/// An entry's number: entries are numbered over the whole job, in text order, from 0.
#[derive(Clone, Copy, Debug, PartialEq, Eq, PartialOrd, Ord)]
pub struct EntryId(pub u16);

/// A reduction's number: reductions are numbered over the whole job, in text order, from 0.
#[derive(Clone, Copy, Debug, PartialEq, Eq, PartialOrd, Ord)]
pub struct ReductionId(pub u16);

/// Where an element receives once in each iteration.
#[derive(Clone, Copy, Debug, PartialEq, Eq, PartialOrd, Ord)]
pub enum Port {
    /// An entry of the element's array: the message of the element that is its source there.
    Entry(EntryId),
    /// A reduction of the element's array: the total of what all its elements contributed.
    Total(ReductionId),
}

/// What a part of a step waits for.
#[derive(Clone, Copy, Debug, PartialEq, Eq)]
pub enum Need {
    Nothing,
    /// The message of the iteration at this port.
    Port(Port),
}

/// Where the message comes from that an element gets at an entry in each iteration.
#[derive(Clone, Copy, Debug, PartialEq, Eq)]
pub enum Source {
    /// This element sends it.
    Element(ElementId),
    /// No element stands there: the entry's edge gives this payload, and nothing is waited for.
    Edge(Payload),
}

/// What a message carries.
#[derive(Clone, Copy, Debug, PartialEq, Eq)]
pub struct Payload {
    /// How many values there are: from 1 to 8, of which a total has one; 0 in `NONE`.
    pub count: u8,
    /// The values in the order they were sent; those past `count` are 0.
    pub values: [i64; 8],
}

impl Payload {
    /// No values.
    pub const NONE: Payload = Payload {
        count: 0,
        values: [0; 8],
    };
}
