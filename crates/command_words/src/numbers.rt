//! The numbers among the words of a call.

ghost use Rattle.std.specs.Prelude.{◌≡◌};
ghost use Rattle.std.specs.Char.{is_ascii_digit};
ghost use Rattle.std.specs.List.{list_all};
ghost use Rattle.command_words.specs.Numbers.{is_decimal, seed_in, size_in, workers_in};

use sched_base::{MAX_THREADS, MAX_WORKERS};

/// The most digits of a number among the words, leading zeros counted.
pub const MAX_WORD_DIGITS: usize = 20;

/// The seed that the word is: a number of 64 bits in decimal. Zeros may lead, and there is no sign.
pub(crate) fn seed_in(word: &str) -> Option<u64>
    ensures { result ≡ seed_in word.now }
{
    if !is_decimal(word.as_bytes()) {
        return None;
    }
    match word.parse::<u64>() {
        Ok(seed) => Some(seed),
        Err(_) => None,
    }
}

/// The number of threads that the word is, where a made trace may have so many.
pub(crate) fn size_in(word: &str) -> Option<u32>
    ensures { result ≡ size_in word.now }
{
    let size = seed_in(word)?;
    if size >= 1 && size <= u64::from(MAX_THREADS) {
        Some(size as u32)
    } else {
        None
    }
}

/// The number of workers that the word is, where a crew may have so many.
pub(crate) fn workers_in(word: &str) -> Option<u32>
    ensures { result ≡ workers_in word.now }
{
    let workers = seed_in(word)?;
    if workers >= 1 && workers <= MAX_WORKERS as u64 {
        Some(workers as u32)
    } else {
        None
    }
}

/// Whether the word is digits alone, one at least and not too many.
fn is_decimal(word: &[u8]) -> bool
    ensures { result ≡ is_decimal word.now }
{
    !word.is_empty() && word.len() <= MAX_WORD_DIGITS && are_digits(word)
}

fn are_digits(word: &[u8]) -> bool
    ensures { result ≡ list_all is_ascii_digit word.now }
{
    word.iter().all(|byte| byte.is_ascii_digit())
}
