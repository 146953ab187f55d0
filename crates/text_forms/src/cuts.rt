//! Cuts a text at a byte that belongs to neither part.

ghost use Rattle.std.specs.Prelude.{◌≡◌, ◌+◌, ◌≤◌, take, drop, length};

/// What stands before that place, and what stands behind the byte at it.
pub(crate) fn cut_at(text: &[u8], place: usize) -> (&[u8], &[u8])
    requires { place ≤ length text.now }
    ensures front { result.0.now ≡ take place text.now }
    ensures back { result.1.now ≡ drop (place + 1) text.now }
{
    let (front, rest) = text.split_at(place);
    match rest {
        [] => (front, rest),
        _ => (front, &rest[1..]),
    }
}
