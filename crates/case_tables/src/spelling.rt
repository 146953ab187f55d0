//! How texts are spelled in the tables. `|` stands for a line feed, and a piece in brackets for other bytes:
//!
//! - `[N:PART]` for PART N times;
//! - `[#HH]` for the byte of that hexadecimal number;
//! - `[NAME]` for the text of that name.

use crate::misread::{Misread, number};
use crate::texts::Texts;
use std::alloc::Global;

/// The text that is spelled so.
pub(crate) fn spelled(alloc: Global, texts: &Texts, spelling: &str) -> Result<Vec<u8>, Misread> {
    let spelling = spelling.replace(alloc, '|', "\n")?;
    let mut text = Vec::new(alloc);
    for (at, piece) in spelling.as_str().split('[').enumerate() {
        if at == 0 {
            text.extend_from_slice(piece.as_bytes())?;
        } else {
            push_piece(&mut text, texts, piece)?;
        }
    }
    Ok(text)
}

/// `INSIDE]BEHIND`, with what INSIDE stands for in its place.
fn push_piece(text: &mut Vec<u8>, texts: &Texts, piece: &str) -> Result<(), Misread> {
    let (inside, behind) = piece.split_once(']').ok_or(Misread::Form)?;
    push_inside(text, texts, inside)?;
    Ok(text.extend_from_slice(behind.as_bytes())?)
}

/// What stands between two brackets.
fn push_inside(text: &mut Vec<u8>, texts: &Texts, inside: &str) -> Result<(), Misread> {
    if let Some((times, part)) = inside.split_once(':') {
        return push_times(text, part, number(times)?);
    }
    if let Some(digits) = inside.strip_prefix('#') {
        let byte = u8::from_str_radix(digits, 16).map_err(|_error| Misread::Form)?;
        return Ok(text.push(byte)?);
    }
    let named = texts.find(inside).ok_or(Misread::Form)?;
    Ok(text.extend_from_slice(named)?)
}

/// A part, so many times.
fn push_times(text: &mut Vec<u8>, part: &str, times: u64) -> Result<(), Misread> {
    for _time in 0..times {
        text.extend_from_slice(part.as_bytes())?;
    }
    Ok(())
}
