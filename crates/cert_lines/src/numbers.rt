//! Numbers, each in its one spelling: no zero leads, and there is no `-0`.

ghost use Rattle.std.specs.Prelude.{◌≡◌, ◌≢◌, ℕ, ℤ, ◌^◌, ◌<◌, FitsSigned, MatchOption, decimal};
ghost use Rattle.std.specs.Fmt.{signed_decimal};
ghost use Rattle.std.specs.Int.{w64};

use itoa::Buffer;
use std::str;

/// The number that the word spells.
pub fn unsigned_in(word: &[u8]) -> Option<u64>
    ensures { MatchOption result
        ((number : ℕ) → number < 2 ^ 64 → word.now ≢ decimal number)
        (λ number. word.now ≡ decimal number) }
{
    let text = match str::from_utf8(word) {
        Ok(text) => text,
        Err(_no_text) => return None,
    };
    let number = match text.parse::<u64>() {
        Ok(number) => number,
        Err(_no_number) => return None,
    };
    let mut buffer = Buffer::new();
    if buffer.format(number) == text {
        Some(number)
    } else {
        None
    }
}

/// The number of 32 bits that the word spells.
pub fn narrow_in(word: &[u8]) -> Option<u32>
    ensures { MatchOption result
        ((number : ℕ) → number < 2 ^ 32 → word.now ≢ decimal number)
        (λ number. word.now ≡ decimal number) }
{
    let number = unsigned_in(word)?;
    if number <= u64::from(u32::MAX) {
        Some(number as u32)
    } else {
        None
    }
}

/// The number with a sign that the word spells.
pub fn signed_in(word: &[u8]) -> Option<i64>
    ensures { MatchOption result
        ((number : ℤ) → FitsSigned w64 number → word.now ≢ signed_decimal number)
        (λ number. (word.now ≡ signed_decimal number) × FitsSigned w64 number) }
{
    let text = match str::from_utf8(word) {
        Ok(text) => text,
        Err(_no_text) => return None,
    };
    let number = match text.parse::<i64>() {
        Ok(number) => number,
        Err(_no_number) => return None,
    };
    let mut spelling = Buffer::new();
    if spelling.format(number) == text {
        Some(number)
    } else {
        None
    }
}
