//! Which beginnings of a text a case is played with.

use std::ops::Range;

/// The lengths of the beginnings that end within that line, from 1: behind a byte of it, and before its line feed.
pub(crate) fn ends_within(text: &[u8], line: u64) -> Range<usize> {
    let mut current: u64 = 1;
    let mut start = 1;
    for (at, byte) in text.iter().enumerate() {
        let next = at.saturating_add(1);
        if *byte == b'\n' && current == line {
            return start..next;
        }
        if *byte == b'\n' {
            current = current.saturating_add(1);
            start = next.saturating_add(1);
        }
    }
    0..0
}

/// The lengths of the beginnings that lack more than a last line feed.
pub(crate) fn ends_anywhere(text: &[u8]) -> Range<usize> {
    let whole = text.strip_suffix(b"\n").unwrap_or(text);
    0..whole.len()
}
