//! What is noted of a job while its tree is walked in text order.

ghost use Rattle.std.specs.Prelude.{◌≡◌, [], None, OnOk};
ghost use Rattle.job_rules.specs.Notes.{noted, received_noted, sent_noted, use_noted};

use crate::fault::{CheckFault, sooner};
use chare_base::memory::Memory;
use sqlite_items::Items;
use std::alloc::Global;

/// A use of a state in a part of a step.
#[derive(Clone, Copy)]
pub struct StateUse {
    /// The state's number in its array.
    pub state: usize,
    /// The place of its declaration.
    pub declared: u32,
    /// The part's number in its step.
    pub part: usize,
    /// The place of the name.
    pub at: u32,
    /// Whether the state is written here.
    pub written: bool,
}

/// A send, a contribution or a `when`: the number of its port among all ports of the job, and of its step.
#[derive(Clone, Copy)]
pub struct PortUse {
    pub port: usize,
    pub step: usize,
    /// The place of the word `send`, `contribute` or `when`.
    pub at: u32,
    /// Whether it stands within an `if` or a loop.
    pub nested: bool,
}

/// What was noted so far.
#[derive(Drop)]
pub struct Notes {
    /// The fault that is named, of those found.
    pub found: Option<CheckFault>,
    /// The uses of states in the step at hand, in text order.
    pub uses: Items<StateUse>,
    /// Sends and contributions, in text order.
    pub sent: Items<PortUse>,
    /// What steps wait for, in text order.
    pub received: Items<PortUse>,
}

impl Notes {
    /// Nothing noted.
    pub fn new(alloc: Global) -> Notes
        ensures { result ≡ record { found = None; uses = []; sent = []; received = [] } }
    {
        Notes {
            found: None,
            uses: Items::new(alloc),
            sent: Items::new(alloc),
            received: Items::new(alloc),
        }
    }

    /// Notes a fault, if there is one.
    pub fn note(&mut self, fault: Option<CheckFault>)
        ensures { self.new ≡ noted fault self.old }
    {
        self.found = sooner(self.found, fault);
    }
    /// Notes the use of a state.
    ///
    /// `Memory`: an allocation was refused.
    pub fn note_use(&mut self, used: StateUse) -> Result<(), Memory>
        ensures { OnOk result (self.new ≡ use_noted used self.old) }
    {
        self.uses.push(used)?;
        Ok(())
    }

    /// Notes a send or a contribution.
    ///
    /// `Memory`: an allocation was refused.
    pub fn note_sent(&mut self, sent: PortUse) -> Result<(), Memory>
        ensures { OnOk result (self.new ≡ sent_noted sent self.old) }
    {
        self.sent.push(sent)?;
        Ok(())
    }

    /// Notes what a step waits for.
    ///
    /// `Memory`: an allocation was refused.
    pub fn note_received(&mut self, received: PortUse) -> Result<(), Memory>
        ensures { OnOk result (self.new ≡ received_noted received self.old) }
    {
        self.received.push(received)?;
        Ok(())
    }
}
