//! Numbers of options.

ghost use Rattle.std.specs.Prelude.{◌≡◌, ◌≤◌, ◌+◌, ◌*◌, ◌-◌, IfSome, IsTrue, Some};
ghost use Rattle.command_words.specs.Numbers.{at_most, digit_within, digits_within, is_digit, is_number, number_from, number_in};
ghost use Rattle.std.specs.List.{list_all};

// Whether a text is a number: 1 to 20 decimal digits.
fn is_number(text: &[u8]) -> bool
    ensures { result ≡ is_number text.now }
{
    1 <= text.len() && text.len() <= 20 && are_digits(text)
}

fn are_digits(text: &[u8]) -> bool
    ensures { result ≡ list_all is_digit text.now }
{
    text.iter().all(|b| 48 <= *b && *b <= 57)
}

/// The number that a text spells, where it is one between two bounds, both of them included.
#[tactic(auto, unfolding(crate::specs::Numbers::number_in))]
pub(crate) fn number_in(low: u64, high: u64, text: &[u8]) -> Option<u64>
    ensures exact { result ≡ number_in low high text.now }
    ensures within { IfSome result (λ n. (low ≤ n) × (n ≤ high)) }
{
    if !is_number(text) {
        return None;
    }
    let number = number_up_to(high, text)?;
    if low <= number { Some(number) } else { None }
}

// The number that digits spell, where it is at most this.
#[tactic(auto, using(crate::proofs::Reading::same_within))]
fn number_up_to(high: u64, text: &[u8]) -> Option<u64>
    requires { IsTrue (list_all is_digit text.now) }
    ensures exact { result ≡ at_most high (number_from 0 text.now) }
    ensures within { IfSome result (λ n. n ≤ high) }
{
    digits_within(high, text)
}

// The same, refused at the first digit that makes it too large.
fn digits_within(high: u64, text: &[u8]) -> Option<u64>
    requires { IsTrue (list_all is_digit text.now) }
    ensures exact { result ≡ digits_within high (Some 0) text.now }
    ensures within { IfSome result (λ n. n ≤ high) }
{
    let mut number = Some(0);
    for digit in text {
        number = with_digit(high, number, *digit);
    }
    number
}

// A number with one more digit, where it is at most this.
fn with_digit(high: u64, number: Option<u64>, digit: u8) -> Option<u64>
    requires { IsTrue (is_digit digit) }
    ensures exact { result ≡ digit_within high number digit }
    ensures within { IfSome result (λ n. n ≤ high) }
{
    let more = u128::from(number?) * 10 + u128::from(digit - 48);
    if more <= u128::from(high) {
        Some(more as u64)
    } else {
        None
    }
}
