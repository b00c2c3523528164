//! A source in memory.

ghost use Rattle.std.specs.Prelude.{◌≡◌, ◌++◌, ◌-◌, ◌==◌, ◌≤◌, ◌<◌, if◌then◌else◌, [], length, min, take, drop, is_err, IfOk, OnErr};
ghost use Rattle.std.specs.List.{list_any};
ghost use Rattle.outside_io.specs.Counts.{raised, Rose};

use crate::calls::Calls;
use crate::edge::{Failed, Source};
use chare_bytes::bytes::Bytes;

/// A source of bytes in memory, which tells what is left of them.
#[derive(Drop)]
pub struct MemorySource {
    /// All bytes, those that were taken too.
    pub bytes: Bytes,
    /// How many bytes were taken.
    pub taken: usize,
    /// How many takes there were, up to the greatest `u64`.
    pub calls: u64,
    /// How many takes failed, up to the greatest `u64`.
    pub faults: u64,
    /// The takes that fail.
    pub failing: Calls,
    /// No more bytes were taken than there are.
    pub ghost within: { taken ≤ length bytes },
}

impl MemorySource {
    /// A source of these bytes, of which none was taken.
    pub fn start(bytes: Bytes, failing: Calls) -> MemorySource
        ensures bytes { result.bytes ≡ bytes }
        ensures taken { result.taken ≡ 0 }
        ensures calls { result.calls ≡ 0 }
        ensures faults { result.faults ≡ 0 }
        ensures failing { result.failing ≡ failing }
    {
        MemorySource {
            bytes,
            taken: 0,
            calls: 0,
            faults: 0,
            failing,
        }
    }
}

impl Source for MemorySource {
    ghost use Rattle.std.specs.Prelude.{Some, drop};

    ghost left = { λ s. Some (drop s.taken s.bytes) };

    ghost takes = { λ s. s.calls };

    ghost faults = { λ s. s.faults };

    /// Takes all that is left or that fits, unless the call is one that fails.
    fn take(&mut self, buf: &mut [u8]) -> Result<usize, Failed>
        ensures bound { IfOk result (λ n. n ≤ length buf.old) }
        ensures ok { IfOk result
            (λ n. drop self.old.taken self.old.bytes ≡ take n buf.new
            ++ drop self.new.taken self.new.bytes) }
        ensures end { IfOk result
            (λ n. n ≡ 0 → 0 < length buf.old → drop self.new.taken self.new.bytes ≡ []) }
        ensures err { OnErr result
            (drop self.new.taken self.new.bytes ≡ drop self.old.taken self.old.bytes) }
        ensures takes { self.new.calls ≡ raised self.old.calls }
        ensures count { self.old.faults ≤ self.new.faults }
        ensures cause { OnErr result (Rose self.old.faults self.new.faults) }

        // More than a source promises: which calls fail, and how much the others take.
        ensures fails { is_err result ≡ list_any (λ n. n == self.old.calls) self.old.failing }
        ensures most { IfOk result
            (λ n. n ≡ min (length buf.old) (length self.old.bytes - self.old.taken)) }
        ensures bytes { self.new.bytes ≡ self.old.bytes }
        ensures faults { self.new.faults
            ≡ (if is_err result then raised self.old.faults else self.old.faults) }
        ensures failing { self.new.failing ≡ self.old.failing }
    {
        let call = self.calls;
        self.calls = call.saturating_add(1);
        if self.failing.contains(call) {
            self.faults = self.faults.saturating_add(1);
            return Err(Failed);
        }
        let n = put_front(buf, &self.bytes.as_slice()[self.taken..]);
        self.taken += n;
        Ok(n)
    }
}

// Copies bytes to the front of a buffer, as many as fit, and tells how many.
fn put_front(buf: &mut [u8], bytes: &[u8]) -> usize
    ensures most { result ≡ min (length buf.old) (length bytes.now) }
    ensures bytes { take result buf.new ≡ take result bytes.now }
{
    let n = buf.len().min(bytes.len());
    buf[..n].copy_from_slice(&bytes[..n]);
    n
}
