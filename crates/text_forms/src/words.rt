//! The words of a line, one after the other.

ghost use Rattle.std.specs.Prelude.{◌≡◌, ◌<◌, ◌≤◌, [], ◌∷◌, IfSome, IfNone, length};
ghost use Rattle.std.specs.List.{position_or_len, prefix_len};
ghost use Rattle.text_forms.specs.Words.{is_one_of, words_of};

use crate::cuts::cut_at;

/// The first word of a line, and the line behind it. Any of the blanks parts words, however many stand there.
pub fn first_word<'a>(line: &'a [u8], blanks: &[u8]) -> Option<(&'a [u8], &'a [u8])>
    ensures none { IfNone result (words_of blanks.now line.now ≡ []) }
    ensures word { IfSome result
        (λ found. words_of blanks.now line.now ≡ found.0.now ∷ words_of blanks.now found.1.now) }
    ensures shorter { IfSome result (λ found. length found.1.now < length line.now) }
{
    let (_blanks, line) = line.split_at(blanks_len(line, blanks));
    if line.is_empty() {
        None
    } else {
        Some(cut_at(line, word_len(line, blanks)))
    }
}

/// How many blanks the line begins with.
fn blanks_len(line: &[u8], blanks: &[u8]) -> usize
    ensures len { result ≡ prefix_len (is_one_of blanks.now) line.now }
    ensures within { result ≤ length line.now }
{
    line.iter()
        .take_while(|byte| is_one_of(blanks, **byte))
        .count()
}

/// How many bytes stand before the first blank.
fn word_len(line: &[u8], blanks: &[u8]) -> usize
    ensures len { result ≡ position_or_len (is_one_of blanks.now) line.now }
    ensures within { result ≤ length line.now }
{
    line.iter()
        .take_while(|byte| !is_one_of(blanks, **byte))
        .count()
}

fn is_one_of(blanks: &[u8], byte: u8) -> bool
    ensures { result ≡ is_one_of blanks.now byte }
{
    blanks.contains(&byte)
}
