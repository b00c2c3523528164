//! Calls that fail, by their numbers.

ghost use Rattle.std.specs.Prelude.{◌≡◌, ◌==◌, [], IfOk};
ghost use Rattle.std.specs.List.{list_any};

use chare_bytes::memory::Memory;
use std::alloc::Global;
use std::marker::Model;

/// The numbers, from 0, of the calls that fail, which contracts see as a list.
#[derive(Drop)]
pub struct Calls {
    numbers: Vec<u64>,
}

impl Model for Calls {
    ghost use Rattle.std.specs.Prelude.{ℕ, List};

    ghost Value = { List ℕ };

    ghost view = { λ c. c.numbers.items };
}

impl Calls {
    /// No call fails.
    pub fn none(alloc: Global) -> Calls
        ensures { result ≡ [] }
    {
        Calls {
            numbers: Vec::new(alloc),
        }
    }

    /// The calls of these numbers fail.
    pub fn from_slice(alloc: Global, numbers: &[u64]) -> Result<Calls, Memory>
        ensures { IfOk result (λ calls. calls ≡ numbers.now) }
    {
        let numbers = Vec::from_slice(alloc, numbers)?;
        Ok(Calls { numbers })
    }

    /// Whether the call of a number fails.
    pub(crate) fn contains(&self, call: u64) -> bool
        ensures { result ≡ list_any (λ n. n == call) self.now }
    {
        self.numbers.iter().any(|n| *n == call)
    }
}
