//! Numbers of a tree as a plan keeps them: each stops at the greatest that its place holds.

ghost use Rattle.std.specs.Prelude.{◌≡◌, pos};
ghost use Rattle.job_rules.specs.Numbers.{narrow8, narrow16, narrow32, narrow63, number16, signed8, signed64};

use job_tree::tree::SignedNum;

/// A number, or 255 where it is greater.
pub(crate) fn narrow8(number: u64) -> u8
    ensures { result ≡ narrow8 number }
{
    number.min(255) as u8
}

/// A number, or 65,535 where it is greater.
pub(crate) fn narrow16(number: u64) -> u16
    ensures { result ≡ narrow16 number }
{
    number.min(65_535) as u16
}

/// A number, or 4,294,967,295 where it is greater.
pub(crate) fn narrow32(number: u64) -> u32
    ensures { result ≡ narrow32 number }
{
    number.min(4_294_967_295) as u32
}

/// A number, or 9,223,372,036,854,775,807 where it is greater.
pub(crate) fn narrow63(number: u64) -> i64
    ensures { result ≡ pos (narrow63 number) }
{
    number.min(9_223_372_036_854_775_807) as i64
}

/// The number of something, or 65,535 where there is nothing.
pub(crate) fn number16(number: Option<usize>) -> u16
    ensures { result ≡ number16 number }
{
    match number {
        Some(number) => narrow16(number as u64),
        None => 65_535,
    }
}

/// A signed number.
pub(crate) fn signed64(number: SignedNum) -> i64
    ensures { result ≡ signed64 number }
{
    let value = number.number.value.min(9_223_372_036_854_775_807) as i64;
    match number.minus {
        Some(_) => -value,
        None => value,
    }
}

/// A signed number, which stops at 127 in either direction.
pub(crate) fn signed8(number: SignedNum) -> i8
    ensures { result ≡ signed8 number }
{
    let value = number.number.value.min(127) as i8;
    match number.minus {
        Some(_) => -value,
        None => value,
    }
}
