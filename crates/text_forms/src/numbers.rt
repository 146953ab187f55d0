//! Numbers in decimal.

ghost use Rattle.std.specs.Prelude.{◌≡◌, ◌≢◌, ℕ, ◌^◌, ◌<◌, ◌≤◌, IsTrue, MatchOption, decimal, length};
ghost use Rattle.std.specs.Char.{is_ascii_digit};
ghost use Rattle.std.specs.List.{list_all};
ghost use Rattle.text_forms.specs.Numbers.{is_decimal, is_padded, number_in, number_of};

use sched_base::MAX_DIGITS;

/// The number that the word spells. Zeros may lead, and there is no sign.
pub fn number_in(word: &[u8]) -> Option<u64>
    ensures { result ≡ number_in word.now }
{
    if is_decimal(word) {
        Some(number_of(word))
    } else {
        None
    }
}

/// The number of which the word is the one spelling without leading zeros, where it is at most the limit.
pub fn exact_number_in(word: &[u8], limit: u64) -> Option<u64>
    requires { limit < 10 ^ MAX_DIGITS }
    ensures { MatchOption result
        ((number : ℕ) → number ≤ limit → word.now ≢ decimal number)
        (λ number. (number ≤ limit) × (word.now ≡ decimal number)) }
{
    let number = number_in(word)?;
    if is_padded(word) {
        return None;
    }
    if number > limit { None } else { Some(number) }
}

/// Whether a zero leads and more follows.
fn is_padded(word: &[u8]) -> bool
    ensures { result ≡ is_padded word.now }
{
    match word {
        [first, _second, ..] => *first == b'0',
        _ => false,
    }
}

fn is_decimal(word: &[u8]) -> bool
    ensures { result ≡ is_decimal word.now }
{
    !word.is_empty() && word.len() <= MAX_DIGITS && are_digits(word)
}

fn are_digits(word: &[u8]) -> bool
    ensures { result ≡ list_all is_ascii_digit word.now }
{
    word.iter().all(|byte| byte.is_ascii_digit())
}

/// The number that the digits stand for.
fn number_of(digits: &[u8]) -> u64
    requires few { length digits.now ≤ MAX_DIGITS }
    requires digits { IsTrue (list_all is_ascii_digit digits.now) }
    ensures { result ≡ number_of digits.now }
{
    let mut number = 0;
    for digit in digits {
        number = 10 * number + u64::from(*digit - b'0');
    }
    number
}
