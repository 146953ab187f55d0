//! The lines of a text, one after the other.

ghost use Rattle.std.specs.Prelude.{◌≡◌, ◌<◌, ◌≤◌, [], ◌∷◌, IfSome, IfNone, length};
ghost use Rattle.std.specs.List.{position_or_len};
ghost use Rattle.text_forms.specs.Lines.{is_feed, lines_of};

use crate::cuts::cut_at;

/// The first line of a text without its line feed, and the text behind it. The last line may lack its line feed.
pub fn first_line(text: &[u8]) -> Option<(&[u8], &[u8])>
    ensures none { IfNone result (lines_of text.now ≡ []) }
    ensures line { IfSome result (λ found. lines_of text.now ≡ found.0.now ∷ lines_of found.1.now) }
    ensures shorter { IfSome result (λ found. length found.1.now < length text.now) }
    ensures within { IfSome result (λ found. length found.0.now ≤ length text.now) }
{
    if text.is_empty() {
        None
    } else {
        Some(cut_at(text, line_len(text)))
    }
}

/// How many bytes stand before the first line feed.
fn line_len(text: &[u8]) -> usize
    ensures len { result ≡ position_or_len is_feed text.now }
    ensures within { result ≤ length text.now }
{
    text.iter().take_while(|byte| **byte != b'\n').count()
}
