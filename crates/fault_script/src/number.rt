//! Numbers of a script.
//!
//! A number may have any number of digits. It is held up to 2^64, which stands for all that is above 2^64 - 1.

ghost use Rattle.std.specs.Prelude.{◌≡◌, ◌≤◌, ◌+◌, ◌*◌, ◌^◌, IsTrue, min};
ghost use Rattle.std.specs.List.{list_all};
ghost use Rattle.std.specs.Option.{option_map};
ghost use Rattle.fault_script.specs.Numbers.{capped, digit_value, hexadecimal, is_all, is_digit, is_hex_digit, is_hex_letter, mask, number, number_from};

/// 2^64, which stands for each number that is above 2^64 - 1.
pub(crate) const TOO_LARGE: u128 = 18_446_744_073_709_551_616;

/// The number that a word of decimal digits spells.
#[tactic(auto, unfolding(crate::specs::Numbers::number))]
pub(crate) fn number(word: &[u8]) -> Option<u128>
    ensures { result ≡ option_map capped (number word.now) }
{
    if is_decimal(word) {
        Some(number_from(10, word))
    } else {
        None
    }
}

/// The number that a mask's word spells: decimal digits, or `0x` and hexadecimal digits.
#[tactic(auto, unfolding(crate::specs::Numbers::mask))]
pub(crate) fn mask(word: &[u8]) -> Option<u128>
    ensures { result ≡ option_map capped (mask word.now) }
{
    match word.strip_prefix(b"0x") {
        Some(digits) => hexadecimal(digits),
        None => number(word),
    }
}

// The number that hexadecimal digits spell.
#[tactic(auto, unfolding(crate::specs::Numbers::hexadecimal))]
fn hexadecimal(digits: &[u8]) -> Option<u128>
    ensures { result ≡ option_map capped (hexadecimal digits.now) }
{
    if is_hexadecimal(digits) {
        Some(number_from(16, digits))
    } else {
        None
    }
}

fn is_decimal(word: &[u8]) -> bool
    ensures { result ≡ is_all is_digit word.now }
{
    !word.is_empty() && are_digits(word)
}

fn are_digits(word: &[u8]) -> bool
    ensures { result ≡ list_all is_digit word.now }
{
    word.iter().all(|b| is_digit(*b))
}

fn is_hexadecimal(word: &[u8]) -> bool
    ensures { result ≡ is_all is_hex_digit word.now }
{
    !word.is_empty() && are_hex_digits(word)
}

fn are_hex_digits(word: &[u8]) -> bool
    ensures { result ≡ list_all is_hex_digit word.now }
{
    word.iter().all(|b| is_hex_digit(*b))
}

/// `0` to `9`.
pub(crate) fn is_digit(byte: u8) -> bool
    ensures { result ≡ is_digit byte }
{
    b'0' <= byte && byte <= b'9'
}

fn is_hex_digit(byte: u8) -> bool
    ensures { result ≡ is_hex_digit byte }
{
    is_digit(byte) || is_hex_letter(byte)
}

fn is_hex_letter(byte: u8) -> bool
    ensures { result ≡ is_hex_letter byte }
{
    (b'a' <= byte && byte <= b'f') || (b'A' <= byte && byte <= b'F')
}

// The number that digits spell to a base, or 2^64 where it is above that.
fn number_from(base: u128, digits: &[u8]) -> u128
    requires some { 1 ≤ base }
    requires few { base ≤ 16 }
    ensures { result ≡ capped (number_from base 0 digits.now) }
{
    let mut number = 0u128;
    'digits: for digit in digits {
        number = with_digit(base, number, *digit);
    }
    number
}

// A number with one digit more.
fn with_digit(base: u128, number: u128, digit: u8) -> u128
    requires base { base ≤ 16 }
    requires number { number ≤ 2 ^ 64 }
    ensures exact { result ≡ capped (number * base + digit_value digit) }
    ensures few { result ≤ 2 ^ 64 }
{
    (number * base + u128::from(digit_value(digit))).min(TOO_LARGE)
}

// What a digit counts; letters go on from 10, whichever their case.
fn digit_value(digit: u8) -> u8
    ensures { result ≡ digit_value digit }
{
    if digit <= b'9' {
        digit.saturating_sub(48)
    } else if digit <= b'F' {
        digit - 55
    } else {
        digit.saturating_sub(87)
    }
}
