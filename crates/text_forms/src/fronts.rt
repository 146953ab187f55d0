//! Cuts a text at the first byte of a kind: lines at line feeds, words at spaces.

ghost use Rattle.std.specs.Prelude.{◌≡◌, ◌+◌, ◌<◌, ◌≤◌, ◌++◌, MatchOption, length};
ghost use Rattle.std.specs.List.{position_or_len};
ghost use Rattle.text_forms.specs.Cuts.{Lacks, IsCut, StartsWith, is_byte};

/// What stands before the first such byte, and what stands behind it.
pub fn cut(text: &[u8], byte: u8) -> Option<(&[u8], &[u8])>
    ensures { MatchOption result
        (Lacks byte text.now)
        (λ parts. IsCut byte text.now parts.0.now parts.1.now) }
{
    let place = front_len(text, byte);
    if place == text.len() {
        return None;
    }
    Some((&text[..place], &text[place + 1..]))
}

/// What stands before the first such byte, and the rest, which begins with it or is empty.
pub fn front(text: &[u8], byte: u8) -> (&[u8], &[u8])
    ensures whole { text.now ≡ result.0.now ++ result.1.now }
    ensures front { Lacks byte result.0.now }
    ensures rest { StartsWith byte result.1.now }
{
    text.split_at(front_len(text, byte))
}

/// How many bytes stand before the first such byte.
fn front_len(text: &[u8], byte: u8) -> usize
    ensures len { result ≡ position_or_len (is_byte byte) text.now }
    ensures within { result ≤ length text.now }
{
    text.iter().take_while(|other| **other != byte).count()
}
