//! A sink in memory.

ghost use Rattle.std.specs.Prelude.{◌≡◌, ◌+◌, ◌++◌, ◌==◌, ◌≤◌, ◌<◌, if◌then◌else◌, ◌||◌, ◌&&◌, not, [], length, min, take, is_err, IfOk, OnErr, vec_len, vec_capacity};
ghost use Rattle.std.specs.List.{list_any};
ghost use Rattle.outside_io.specs.Counts.{raised, Rose};

use crate::calls::Calls;
use crate::edge::{Failed, Sink};
use chare_bytes::memory::Memory;
use std::alloc::Global;

/// A sink in memory, which tells what was given and holds no more than it has room for.
#[derive(Drop)]
pub struct MemorySink {
    /// The bytes that were given.
    pub bytes: Vec<u8>,
    /// How many more bytes there is room for.
    pub room: usize,
    /// How many gives there were, up to the greatest `u64`.
    pub calls: u64,
    /// How many gives failed, up to the greatest `u64`.
    pub faults: u64,
    /// The gives that fail.
    pub failing: Calls,
    /// The room is there: a give takes no memory.
    pub ghost reserved: { vec_len bytes + room ≤ vec_capacity bytes },
}

impl MemorySink {
    /// An empty sink with room for `room` bytes, which is taken at once.
    pub fn start(alloc: Global, room: usize, failing: Calls) -> Result<MemorySink, Memory>
        ensures bytes { IfOk result (λ s. s.bytes.items ≡ []) }
        ensures room { IfOk result (λ s. s.room ≡ room) }
        ensures calls { IfOk result (λ s. s.calls ≡ 0) }
        ensures faults { IfOk result (λ s. s.faults ≡ 0) }
        ensures failing { IfOk result (λ s. s.failing ≡ failing) }
    {
        Ok(MemorySink {
            bytes: Vec::with_capacity(alloc, room)?,
            room,
            calls: 0,
            faults: 0,
            failing,
        })
    }

    /// The bytes that were given.
    pub fn given(&self) -> &[u8]
        ensures { result.now ≡ self.now.bytes.items }
    {
        self.bytes.as_slice()
    }
}

impl Sink for MemorySink {
    ghost use Rattle.std.specs.Prelude.{Some};

    ghost given = { λ s. Some s.bytes.items };

    ghost faults = { λ s. s.faults };

    /// Takes all that there is room for. It fails where there is none, and at the calls that fail.
    fn give(&mut self, bytes: &[u8]) -> Result<usize, Failed>
        ensures bound { IfOk result (λ n. n ≤ length bytes.now) }
        ensures some { IfOk result (λ n. 0 < length bytes.now → 0 < n) }
        ensures ok { IfOk result
            (λ n. self.new.bytes.items ≡ self.old.bytes.items ++ take n bytes.now) }
        ensures err { OnErr result (self.new.bytes.items ≡ self.old.bytes.items) }
        ensures count { self.old.faults ≤ self.new.faults }
        ensures cause { OnErr result (Rose self.old.faults self.new.faults) }

        // More than a sink promises: which calls fail, and how much the others take.
        ensures fails { is_err result
            ≡ (list_any (λ n. n == self.old.calls) self.old.failing
            || ((self.old.room == 0) && not (length bytes.now == 0))) }
        ensures most { IfOk result (λ n. n ≡ min (length bytes.now) self.old.room) }
        ensures room { IfOk result (λ n. self.new.room + n ≡ self.old.room) }
        ensures room_stays { OnErr result (self.new.room ≡ self.old.room) }
        ensures calls { self.new.calls ≡ raised self.old.calls }
        ensures faults { self.new.faults
            ≡ (if is_err result then raised self.old.faults else self.old.faults) }
        ensures failing { self.new.failing ≡ self.old.failing }
    {
        let call = self.calls;
        self.calls = call.saturating_add(1);
        let is_full = self.room == 0 && !bytes.is_empty();
        if self.failing.contains(call) || is_full {
            self.faults = self.faults.saturating_add(1);
            return Err(Failed);
        }
        let n = self.room.min(bytes.len());
        self.bytes.extend_from_slice(&bytes[..n]).unwrap();
        self.room -= n;
        Ok(n)
    }
}

#[cfg(test)]
mod tests {
    use super::*;
    use std::test::Fail;

    #[test]
    fn holds_what_it_has_room_for(rt: HostRuntime) -> Result<(), Fail> {
        let failing = Calls::from_slice(rt.alloc(), &[1])?;
        let mut sink = MemorySink::start(rt.alloc(), 10, failing)?;
        assert_eq!(rt; sink.give(b"1234567"), Ok(7));
        assert_eq!(rt; sink.give(b"x"), Err(Failed));
        assert_eq!(rt; sink.give(b"abcdef"), Ok(3));
        assert_eq!(rt; sink.give(b"x"), Err(Failed));
        assert_eq!(rt; sink.give(b""), Ok(0));
        assert_eq!(rt; sink.faults, 2);
        assert!(rt; sink.given() == b"1234567abc".as_slice());
        Ok(())
    }
}
