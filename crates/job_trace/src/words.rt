//! Words of a line that come one after the other.

ghost use Rattle.std.specs.Prelude.{◌≡◌, ◌<◌, ◌^◌, [], ◌∷◌, IfNone, IfSome, MatchOption, None, Some, length};
ghost use Rattle.std.specs.List.{list_all};
ghost use Rattle.job_trace.specs.Words.{begins_comment, is_name, is_name_byte, is_skipped, words};
ghost use Rattle.job_trace.specs.Code.Steps.{behind, has_word, kept, kept_in, kept_signed_in, number_alone};
ghost use Rattle.job_trace.specs.Code.Steps.{number_behind};
ghost use Rattle.job_trace.specs.Code.Steps.{number_first};

use sched_base::MAX_NAME_BYTES;
use text_forms::{first_word, number_in};

/// The bytes that part words.
pub(crate) const BLANKS: [u8; 3] = [b' ', b'\t', b'\r'];

/// The first word of a line, and the line behind it.
#[tactic(auto, unfolding(crate::specs::Words::words))]
pub(crate) fn next_word(line: &[u8]) -> Option<(&[u8], &[u8])>
    ensures none { IfNone result (words line.now ≡ []) }
    ensures word { IfSome result (λ found. words line.now ≡ found.0.now ∷ words found.1.now) }
    ensures shorter { IfSome result (λ found. length found.1.now < length line.now) }
{
    first_word(line, &BLANKS)
}

/// Whether a word stands there.
pub(crate) fn has_word(line: &[u8]) -> bool
    ensures { result ≡ has_word (words line.now) }
{
    match next_word(line) {
        Some(_found) => true,
        None => false,
    }
}

/// Whether the line says nothing: it has no word, or a comment begins with its first word.
pub(crate) fn is_skipped(line: &[u8]) -> bool
    ensures { result ≡ is_skipped (words line.now) }
{
    match next_word(line) {
        Some((first, _rest)) => begins_comment(first),
        None => true,
    }
}

fn begins_comment(word: &[u8]) -> bool
    ensures { result ≡ begins_comment word.now }
{
    match word {
        [first, ..] => *first == b'#',
        [] => false,
    }
}

/// Whether the word may name an attribute.
pub(crate) fn is_name(word: &[u8]) -> bool
    ensures { result ≡ is_name word.now }
{
    match word {
        [first, rest @ ..] => {
            first.is_ascii_alphabetic()
                && (are_name_bytes(rest) && rest.len() < MAX_NAME_BYTES as usize)
        }
        [] => false,
    }
}

fn are_name_bytes(bytes: &[u8]) -> bool
    ensures { result ≡ list_all is_name_byte bytes.now }
{
    bytes.iter().all(|byte| is_name_byte(*byte))
}

fn is_name_byte(byte: u8) -> bool
    ensures { result ≡ is_name_byte byte }
{
    byte.is_ascii_alphanumeric() || byte == b'_'
}

/// The line behind its first word, where that is this word.
#[tactic(auto, unfolding(crate::specs::Code::Steps::behind))]
pub(crate) fn behind<'a>(line: &'a [u8], word: &[u8]) -> Option<&'a [u8]>
    ensures found { MatchOption result
        (behind word.now (words line.now) ≡ None)
        (λ rest. behind word.now (words line.now) ≡ Some (words rest.now)) }
    ensures shorter { IfSome result (λ rest. length rest.now < length line.now) }
{
    let (first, rest) = next_word(line)?;
    if first == word { Some(rest) } else { None }
}

/// The number, or the greatest that is kept where it is more.
fn kept(number: u64) -> u32
    ensures kept { result ≡ kept number }
    ensures few { result < 2 ^ 31 }
{
    if number > i32::MAX as u64 {
        i32::MAX as u32
    } else {
        number as u32
    }
}

/// The number that the word spells, as it is kept.
#[tactic(auto, unfolding(crate::specs::Code::Steps::kept_in))]
pub(crate) fn kept_in(word: &[u8]) -> Option<u32>
    ensures kept { result ≡ kept_in word.now }
    ensures few { IfSome result (λ number. number < 2 ^ 31) }
{
    Some(kept(number_in(word)?))
}

/// The same, where a sign may stand.
#[tactic(auto, unfolding(crate::specs::Code::Steps::kept_signed_in))]
pub(crate) fn kept_signed_in(word: &[u8]) -> Option<i32>
    ensures { result ≡ kept_signed_in word.now }
{
    match word {
        [first, digits @ ..] => {
            if *first == b'-' {
                Some(-(kept_in(digits)? as i32))
            } else {
                Some(kept_in(word)? as i32)
            }
        }
        [] => None,
    }
}

/// The number with which the line begins, and the line behind it.
#[tactic(auto, unfolding(crate::specs::Code::Steps::number_first))]
pub(crate) fn number_first(line: &[u8]) -> Option<(u32, &[u8])>
    ensures found { MatchOption result
        (number_first (words line.now) ≡ None)
        (λ found. number_first (words line.now) ≡ Some (found.0, words found.1.now)) }
    ensures shorter { IfSome result (λ found. length found.1.now < length line.now) }
{
    let (first, rest) = next_word(line)?;
    let number = kept_in(first)?;
    Some((number, rest))
}

/// The number behind that word, with which the line begins, and the line behind the number.
#[tactic(auto, unfolding(crate::specs::Code::Steps::number_behind))]
pub(crate) fn number_behind<'a>(line: &'a [u8], word: &[u8]) -> Option<(u32, &'a [u8])>
    ensures found { MatchOption result
        (number_behind word.now (words line.now) ≡ None)
        (λ found. number_behind word.now (words line.now) ≡ Some (found.0, words found.1.now)) }
    ensures shorter { IfSome result (λ found. length found.1.now < length line.now) }
{
    number_first(behind(line, word)?)
}

/// The number that the line is.
#[tactic(auto, unfolding(crate::specs::Code::Steps::number_alone))]
pub(crate) fn number_alone(line: &[u8]) -> Option<u32>
    ensures { result ≡ number_alone (words line.now) }
{
    let (word, rest) = next_word(line)?;
    if has_word(rest) { None } else { kept_in(word) }
}
