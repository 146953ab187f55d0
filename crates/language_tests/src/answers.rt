//! Whether a text has a syntax: `read`, or its first fault with its place and its limit.

use policy_grammar::ParseFault;
use policy_lexer::{LexFault, lex};
use policy_parser::parse;
use sched_base::MAX_POLICY_BYTES;
use std::alloc::{AllocError, Global};

/// The answer to the text.
pub(crate) fn syntax_answer(alloc: Global, text: &[u8]) -> Result<String, AllocError> {
    if text.len() as u64 > MAX_POLICY_BYTES {
        return String::from_str(alloc, "too-long");
    }
    let tokens = match lex(alloc, text) {
        Ok(tokens) => tokens,
        Err(fault) => return token_fault(alloc, fault),
    };
    match parse(alloc, text, tokens.as_slice()) {
        Ok(_syntax) => String::from_str(alloc, "read"),
        Err(fault) => grammar_fault(alloc, fault),
    }
}

/// The fault with its byte.
pub(crate) fn token_fault(alloc: Global, fault: LexFault) -> Result<String, AllocError> {
    match fault {
        LexFault::NotAscii(at) => format!(in alloc; "not-ascii {at}"),
        LexFault::BadByte(at) => format!(in alloc; "bad-byte {at}"),
        LexFault::LongName(at) => format!(in alloc; "long-name {at}"),
        LexFault::WideNumber(at) => format!(in alloc; "wide-number {at}"),
        LexFault::Memory => String::from_str(alloc, "memory"),
    }
}

/// The fault with its token and its limit.
pub(crate) fn grammar_fault(alloc: Global, fault: ParseFault) -> Result<String, AllocError> {
    match fault {
        ParseFault::Unexpected(at) => format!(in alloc; "unexpected {at}"),
        ParseFault::Deep(at) => format!(in alloc; "deep {at}"),
        ParseFault::Many(at, limit) => format!(in alloc; "many {at} {limit}"),
        ParseFault::Memory => String::from_str(alloc, "memory"),
    }
}
