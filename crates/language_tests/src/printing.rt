//! The printed text of a text's syntax, which is read to the same syntax again.

use crate::reading_again::{Unread, read_again};
use policy_lexer::lex;
use policy_parser::parse;
use policy_printer::{PrintFault, print};
use policy_syntax::Syntax;
use sched_base::MAX_POLICY_BYTES;
use std::alloc::{AllocError, Global};

/// What is printed of the text's syntax, where the syntax that it is read to again prints the same.
pub(crate) fn printed_answer(alloc: Global, text: &[u8]) -> Result<String, AllocError> {
    if text.len() as u64 > MAX_POLICY_BYTES {
        return String::from_str(alloc, "too-long");
    }
    let Ok(tokens) = lex(alloc, text) else {
        return String::from_str(alloc, "no tokens");
    };
    let Ok(syntax) = parse(alloc, text, tokens.as_slice()) else {
        return String::from_str(alloc, "no syntax");
    };
    match read_again(alloc, &syntax) {
        Ok(again) => printed_twice(alloc, &syntax, &again),
        Err(Unread::TooLong) => String::from_str(alloc, "too-long"),
        Err(Unread::Memory) => String::from_str(alloc, "memory"),
    }
}

/// What is printed of both.
fn printed_twice(alloc: Global, first: &Syntax, second: &Syntax) -> Result<String, AllocError> {
    let once = printed(alloc, first)?;
    let twice = printed(alloc, second)?;
    if once == twice {
        Ok(once)
    } else {
        String::from_str(alloc, "another syntax")
    }
}

/// The printed text. Its bytes are ASCII.
fn printed(alloc: Global, syntax: &Syntax) -> Result<String, AllocError> {
    match print(alloc, syntax) {
        Ok(bytes) => String::from_utf8(bytes).map_err(|_error| AllocError),
        Err(PrintFault::Memory) => Err(AllocError),
    }
}
