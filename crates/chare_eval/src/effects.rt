//! What elements send.

ghost use Rattle.std.specs.Prelude.{◌≡◌, ◌==◌, length, []};

use crate::value::Scene;
use chare_base::message::{EntryId, Payload, ReductionId};
use chare_base::plan::ElementId;
use std::alloc::Global;
use std::marker::Model;

/// What a block sends.
#[derive(Clone, Copy, Debug, PartialEq, Eq)]
pub enum Outgoing {
    /// A message to an element, at an entry of its array.
    Parcel {
        entry: EntryId,
        to: ElementId,
        payload: Payload,
    },
    /// A value for a reduction of the sender's array.
    Contribution {
        reduction: ReductionId,
        value: i64,
    },
}

/// What blocks sent, in the order in which they sent it, which contracts see as a list.
#[derive(Drop)]
pub struct Effects {
    pub(crate) all: Vec<Outgoing>,
    // Where the next block's expressions are evaluated. It is built once, since a scene is large beside a block.
    pub(crate) scene: Scene,
}

impl Model for Effects {
    ghost use Rattle.std.specs.Prelude.{List};
    ghost use Rattle.chare_eval.specs.declared.effects.Outgoing.{Outgoing};

    ghost Value = { List Outgoing };

    ghost view = { λ e. e.all.items };
}

impl Effects {
    /// Nothing sent yet, which takes no memory.
    pub fn new(alloc: Global) -> Effects
        ensures { result ≡ [] }
    {
        Effects {
            all: Vec::new(alloc),
            scene: Scene::new(),
        }
    }

    /// What was sent, as a slice.
    pub fn as_slice(&self) -> &[Outgoing]
        ensures { result.now ≡ self.now }
    {
        self.all.as_slice()
    }

    /// How many were sent.
    pub fn len(&self) -> usize
        ensures { result ≡ length self.now }
    {
        self.all.len()
    }

    /// Whether none was.
    pub fn is_empty(&self) -> bool
        ensures { result ≡ (length self.now == 0) }
    {
        self.all.is_empty()
    }

    /// Forgets what was sent, and keeps the memory.
    pub fn clear(&mut self)
        ensures { self.new ≡ [] }
    {
        self.all.clear();
    }
}
