//! Parses decimal numbers. [`read_number`] rejects leading zeros, so each number has exactly one
//! spelling. [`read_digits`] allows them.
ghost use Rattle.std.specs.Prelude.{◌≡◌, ◌^◌, ◌<◌, ℕ, IfSome, IfNone, decimal};
ghost use Rattle.psi_base.specs.Number.{number_of, digits_of};

/// If a number is below this limit, any digit can be appended and the result still fits in 64 bits.
const LARGE: u64 = u64::MAX / 10;

/// Parses decimal digits as a number up to 2^64 - 1. Leading zeros are allowed, and an empty slice
/// has the value 0. Returns `None` if and only if a byte isn't a digit or the number is greater
/// than 2^64 - 1.
#[tactic(auto, using(crate::proofs::NumberLaws::steps))]
pub fn read_digits(bytes: &[u8]) -> Option<u64>
    ensures { result ≡ digits_of bytes.now }
{
    let mut number: u64 = 0;
    for byte in bytes {
        if *byte < b'0' || *byte > b'9' {
            return None;
        }
        let digit = u64::from(*byte - b'0');
        // Only a large number needs the check that the next digit fits. A division for each digit
        // would take a quarter of the time of parsing an event.
        if number >= LARGE && number > (u64::MAX - digit) / 10 {
            return None;
        }
        number = number * 10 + digit;
    }
    Some(number)
}

/// Parses a decimal number up to 2^64 - 1, without leading zeros except in `0` itself. Returns
/// `None` if and only if the bytes aren't such a number.
#[tactic(auto, unfolding(crate::specs::Number::number_of))]
pub fn read_number(bytes: &[u8]) -> Option<u64>
    ensures exact { result ≡ number_of bytes.now }
    ensures found { IfSome result (λ n. bytes.now ≡ decimal n) }
    ensures none { IfNone result ((n : ℕ) → n < 2 ^ 64 → bytes.now ≡ decimal n → ⊥) }
{
    if bytes.is_empty() || (bytes.len() > 1 && bytes[0] == b'0') {
        return None;
    }
    read_digits(bytes)
}
