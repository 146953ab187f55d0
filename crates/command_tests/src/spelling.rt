//! How texts are spelled in the tables. `|` stands for a line feed, and a piece in brackets for other bytes:
//!
//! - `[N:PART]` for PART N times, where PART may have such pieces in it, and `@` in it stands for the number of the
//!   time;
//! - `[#HH]` for the byte of that hexadecimal number;
//! - `[NAME]` for the text of the file of that name, and `[NAME N]` for its first N lines.

use crate::misread::{Misread, number};
use crate::shelf::Shelf;
use std::alloc::{AllocError, Global};

/// The text that is spelled so.
pub(crate) fn spelled(alloc: Global, shelf: &Shelf, spelling: &str) -> Result<Vec<u8>, Misread> {
    let spelling = spelling.replace(alloc, '|', "\n")?;
    let Some((front, behind)) = spelling.as_str().split_once('[') else {
        return Ok(Vec::from_slice(alloc, spelling.as_bytes())?);
    };
    let mut tail = Vec::new(alloc);
    for piece in behind.rsplit('[') {
        tail = closed(
            alloc,
            shelf,
            joined(alloc, piece.as_bytes(), tail.as_slice())?.as_slice(),
        )?;
    }
    Ok(joined(alloc, front.as_bytes(), tail.as_slice())?)
}

/// Both texts, one behind the other.
fn joined(alloc: Global, front: &[u8], behind: &[u8]) -> Result<Vec<u8>, AllocError> {
    let mut both = Vec::from_slice(alloc, front)?;
    both.extend_from_slice(behind)?;
    Ok(both)
}

/// `INSIDE]BEHIND`, with what INSIDE stands for in its place.
fn closed(alloc: Global, shelf: &Shelf, text: &[u8]) -> Result<Vec<u8>, Misread> {
    let (inside, behind) = parted(text, b']').ok_or(Misread::Form)?;
    let mut whole = match parted(inside, b':') {
        Some((times, part)) => repeated(alloc, times, part)?,
        None => named(alloc, shelf, inside)?,
    };
    whole.extend_from_slice(behind)?;
    Ok(whole)
}

/// What stands before the first byte of that value, and what stands behind it.
fn parted(text: &[u8], mark: u8) -> Option<(&[u8], &[u8])> {
    let at = text.iter().position(|byte| *byte == mark)?;
    let (front, behind) = text.split_at_checked(at)?;
    Some((front, behind.get(1..)?))
}

/// A part, so many times.
fn repeated(alloc: Global, times: &[u8], part: &[u8]) -> Result<Vec<u8>, Misread> {
    let times = str::from_utf8(times).map_err(|_error| Misread::Form)?;
    let mut whole = Vec::new(alloc);
    for time in 0..number(times)? {
        push_numbered(alloc, &mut whole, part, time.saturating_add(1))?;
    }
    Ok(whole)
}

/// Adds a part, with that number in the place of each `@`.
fn push_numbered(
    alloc: Global,
    whole: &mut Vec<u8>,
    part: &[u8],
    time: u64,
) -> Result<(), AllocError> {
    let number = format!(in alloc; "{time}")?;
    for (at, piece) in part.split(|byte| *byte == b'@').enumerate() {
        if at > 0 {
            whole.extend_from_slice(number.as_bytes())?;
        }
        whole.extend_from_slice(piece)?;
    }
    Ok(())
}

/// A byte by its number, or a file or its first lines by its name.
fn named(alloc: Global, shelf: &Shelf, inside: &[u8]) -> Result<Vec<u8>, Misread> {
    let inside = str::from_utf8(inside).map_err(|_error| Misread::Form)?;
    if let Some(digits) = inside.strip_prefix('#') {
        let byte = u8::from_str_radix(digits, 16).map_err(|_error| Misread::Form)?;
        return Ok(vec![in alloc; byte]?);
    }
    let Some((name, count)) = inside.split_once(' ') else {
        let text = shelf.text(inside).ok_or(Misread::Form)?;
        return Ok(Vec::from_slice(alloc, text)?);
    };
    let text = shelf.text(name).ok_or(Misread::Form)?;
    first_lines(alloc, text, number(count)?)
}

/// The first lines of a text that has as many.
fn first_lines(alloc: Global, text: &[u8], count: u64) -> Result<Vec<u8>, Misread> {
    let mut left = count;
    let mut front = Vec::new(alloc);
    for byte in text.iter().copied() {
        if left == 0 {
            break;
        }
        front.push(byte)?;
        left = left.saturating_sub(u64::from(byte == b'\n'));
    }
    if left == 0 {
        Ok(front)
    } else {
        Err(Misread::Form)
    }
}
