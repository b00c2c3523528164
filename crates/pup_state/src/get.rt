//! Numbers at places of bytes.

ghost use Rattle.std.specs.Prelude.{◌≡◌, ◌+◌, ◌*◌, ◌≤◌, length, drop, IfOk};
ghost use Rattle.pup_state.specs.Faults.{number_at};
ghost use Rattle.pup_state.specs.Reading.{numbers_in};

use byteorder::{ByteOrder, LittleEndian};
use chare_base::memory::Memory;
use sqlite_items::Items;
use std::alloc::Global;

#[tactic(auto, unfolding(crate::specs::Faults::number_at))]
pub(crate) fn u8_at(bytes: &[u8], at: usize) -> u8
    requires { at + 1 ≤ length bytes.now }
    ensures { result ≡ number_at 1 at bytes.now }
{
    bytes[at]
}

#[tactic(auto, unfolding(crate::specs::Faults::number_at))]
pub(crate) fn u16_at(bytes: &[u8], at: usize) -> u16
    requires { at + 2 ≤ length bytes.now }
    ensures { result ≡ number_at 2 at bytes.now }
{
    LittleEndian::read_u16(behind(bytes, at))
}

#[tactic(auto, unfolding(crate::specs::Faults::number_at))]
pub(crate) fn u32_at(bytes: &[u8], at: usize) -> u32
    requires { at + 4 ≤ length bytes.now }
    ensures { result ≡ number_at 4 at bytes.now }
{
    LittleEndian::read_u32(behind(bytes, at))
}

#[tactic(auto, unfolding(crate::specs::Faults::number_at))]
pub(crate) fn u64_at(bytes: &[u8], at: usize) -> u64
    requires { at + 8 ≤ length bytes.now }
    ensures { result ≡ number_at 8 at bytes.now }
{
    LittleEndian::read_u64(behind(bytes, at))
}

// The bytes from a place on.
pub(crate) fn behind(bytes: &[u8], at: usize) -> &[u8]
    requires { at ≤ length bytes.now }
    ensures { result.now ≡ drop at bytes.now }
{
    bytes.split_at(at).1
}

// Cells one after another, each by its 64 bits.
#[tactic(auto, using(crate::proofs::Steps::numbers_next))]
pub(crate) fn numbers_in(alloc: Global, count: u32, bytes: &[u8]) -> Result<Items<i64>, Memory>
    requires { 8 * count ≤ length bytes.now }
    ensures { IfOk result (λ numbers. numbers ≡ numbers_in count bytes.now) }
{
    let mut numbers = Vec::with_capacity(alloc, count as usize)?;
    let mut rest = bytes;
    for _ in 0..count {
        numbers.push(u64_at(rest, 0).cast_signed())?;
        rest = behind(rest, 8);
    }
    Ok(Items::from_vec(numbers))
}
