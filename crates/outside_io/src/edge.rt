//! Sources and sinks, and how a whole text is read and written.

ghost use Rattle.std.specs.Prelude.{◌≡◌, ℕ, ◌+◌, ◌<◌, ◌≤◌, ◌++◌, List, Option, Err, length, take, IfOk, OnErr, OnOk};
ghost use Rattle.std.specs.Io.KnownBytes.{Consumes, Appends, IsAtEnd, Keeps};
ghost use Rattle.outside_io.specs.Counts.{raised, Rose};
ghost use Rattle.outside_io.specs.Parts.{ConsumesPart, AppendsPart};

use chare_bytes::bytes::Bytes;
use chare_bytes::memory::Memory;
use std::alloc::Global;
use thiserror::Error;

/// A take or a give that failed.
#[derive(Clone, Copy, Debug, PartialEq, Eq, Error)]
#[error("input or output failed")]
pub struct Failed;

/// Where bytes come from.
pub trait Source {
    /// The bytes that are left, where they are told.
    ghost left: { Self → Option (List ℕ) };

    /// How many takes there were, up to the greatest `u64`.
    ghost takes: { Self → ℕ };

    /// How many takes failed, up to the greatest `u64`.
    ghost faults: { Self → ℕ };

    /// Takes bytes from the front of what is left into the front of a buffer, and tells how many.
    ///
    /// `Ok(0)` for a buffer that isn't empty is the end. Each take raises the count of takes by one. A take
    /// that fails takes nothing, and raises the count of faults; that count never falls.
    fn take(&mut self, buf: &mut [u8]) -> Result<usize, Failed>
        ensures bound { IfOk result (λ n. n ≤ length buf.old) }
        ensures ok { IfOk result (λ n. Consumes (left self.old) (left self.new) (take n buf.new)) }
        ensures end { IfOk result (λ n. n ≡ 0 → 0 < length buf.old → IsAtEnd (left self.new)) }
        ensures err { OnErr result (Keeps (left self.old) (left self.new)) }
        ensures takes { takes self.new ≡ raised (takes self.old) }
        ensures count { faults self.old ≤ faults self.new }
        ensures cause { OnErr result (Rose (faults self.old) (faults self.new)) };
}

/// Where bytes go.
pub trait Sink {
    /// The bytes that were given, where they are told.
    ghost given: { Self → Option (List ℕ) };

    /// How many gives failed, up to the greatest `u64`.
    ghost faults: { Self → ℕ };

    /// Gives bytes from the front of a piece, and tells how many: at least one of a piece that isn't empty.
    ///
    /// A give that fails gives nothing, and raises the count of faults; the count never falls.
    fn give(&mut self, bytes: &[u8]) -> Result<usize, Failed>
        ensures bound { IfOk result (λ n. n ≤ length bytes.now) }
        ensures some { IfOk result (λ n. 0 < length bytes.now → 0 < n) }
        ensures ok { IfOk result
            (λ n. Appends (given self.old) (given self.new) (take n bytes.now)) }
        ensures err { OnErr result (Keeps (given self.old) (given self.new)) }
        ensures count { faults self.old ≤ faults self.new }
        ensures cause { OnErr result (Rose (faults self.old) (faults self.new)) };
}

/// Why reading stopped before its end.
#[derive(Clone, Copy, Debug, PartialEq, Eq, Error)]
pub enum ReadFault {
    /// A take failed.
    #[error("input failed")]
    Failed,
    /// There was no memory for the bytes that came.
    #[error("out of memory")]
    Memory,
}

/// Reads until the source ends or until `limit` bytes have come. No more than these are taken, by at most
/// `limit` takes: one for each byte that came, and one that finds the end.
///
/// `Failed` is a take that failed, and `Memory` want of memory for the bytes that came. After either the
/// source has lost the bytes that were taken before it, at most `limit` from its front. Fewer than `limit`
/// bytes are all that was left: the source is at its end.
pub fn read_up_to<S: Source>(
    alloc: Global,
    source: &mut S,
    limit: usize,
) -> Result<Bytes, ReadFault>
    ensures bound { IfOk result (λ bytes. length bytes ≤ limit) }
    ensures bytes { IfOk result (λ bytes. Consumes (S.left source.old) (S.left source.new) bytes) }
    ensures end { IfOk result (λ bytes. length bytes < limit → IsAtEnd (S.left source.new)) }
    ensures part { OnErr result (ConsumesPart (S.left source.old) (S.left source.new) limit) }
    ensures takes { S.takes source.new ≤ S.takes source.old + limit }
    ensures each { IfOk result
        (λ bytes. S.takes source.new ≤ S.takes source.old + (length bytes + 1)) }
    ensures cause { result ≡ Err ReadFault.Failed
        → Rose (S.faults source.old) (S.faults source.new) }
    ensures count { S.faults source.old ≤ S.faults source.new }
{
    let mut all = Bytes::new(alloc);
    let mut buf = [0; 4096];
    'takes: while all.len() < limit {
        let n = take_some(source, &mut buf, limit - all.len(), &mut all)?;
        if n == 0 {
            return Ok(all);
        }
    }
    Ok(all)
}

// One take of at most `most` bytes, put at the end.
fn take_some<S: Source>(
    source: &mut S,
    buf: &mut [u8],
    most: usize,
    all: &mut Bytes,
) -> Result<usize, ReadFault>
    ensures bound { IfOk result (λ n. n ≤ most) }
    ensures bytes { IfOk result
        (λ n. (new : List ℕ) × (length new ≡ n) × (all.new ≡ all.old ++ new)
        × Consumes (S.left source.old) (S.left source.new) new) }
    ensures end { IfOk result (λ n. n ≡ 0 → 0 < most → 0 < length buf.old
        → IsAtEnd (S.left source.new)) }
    ensures part { OnErr result (ConsumesPart (S.left source.old) (S.left source.new) most) }
    ensures takes { S.takes source.new ≤ S.takes source.old + 1 }
    ensures cause { result ≡ Err ReadFault.Failed
        → Rose (S.faults source.old) (S.faults source.new) }
    ensures count { S.faults source.old ≤ S.faults source.new }
{
    let room = most.min(buf.len());
    let part = &mut buf[..room];
    let n = match source.take(part) {
        Ok(n) => n,
        Err(Failed) => return Err(ReadFault::Failed),
    };
    match all.extend(&part[..n]) {
        Ok(()) => Ok(n),
        Err(Memory) => Err(ReadFault::Memory),
    }
}

/// Gives all bytes of a text. After a give that failed a part from its front was given, and not all.
pub fn write_all<K: Sink>(sink: &mut K, bytes: &[u8]) -> Result<(), Failed>
    ensures ok { OnOk result (Appends (K.given sink.old) (K.given sink.new) bytes.now) }
    ensures part { OnErr result (AppendsPart (K.given sink.old) (K.given sink.new) bytes.now) }
    ensures cause { OnErr result (Rose (K.faults sink.old) (K.faults sink.new)) }
    ensures count { K.faults sink.old ≤ K.faults sink.new }
{
    let mut rest = bytes;
    'pieces: while !rest.is_empty() {
        let n = sink.give(rest)?;
        rest = rest.split_at(n).1;
    }
    Ok(())
}
