//! The policy by levels that a level text is, in a short spelling, or the first fault of its tokens, grammar or names.

use crate::answers::{grammar_fault, token_fault};
use crate::resolving::type_fault;
use crate::shown::{show_cond, show_policy};
use level_policy::Levels;
use policy_lexer::lex;
use policy_parser::{Language, language_of, parse_levels};
use policy_syntax::LevelSyntax;
use policy_types::resolve_levels;
use sched_base::MAX_POLICY_BYTES;
use std::alloc::{AllocError, Global};

/// The answer to the text.
pub(crate) fn level_answer(alloc: Global, text: &[u8]) -> Result<String, AllocError> {
    if text.len() as u64 > MAX_POLICY_BYTES {
        return String::from_str(alloc, "too-long");
    }
    let tokens = match lex(alloc, text) {
        Ok(tokens) => tokens,
        Err(fault) => return token_fault(alloc, fault),
    };
    match language_of(text, tokens.as_slice()) {
        Language::Policies => return String::from_str(alloc, "no levels"),
        Language::LevelTexts => {}
    }
    match parse_levels(alloc, text, tokens.as_slice()) {
        Ok(syntax) => levels_answer(alloc, &syntax),
        Err(fault) => grammar_fault(alloc, fault),
    }
}

/// The answer to the syntax.
fn levels_answer(alloc: Global, syntax: &LevelSyntax) -> Result<String, AllocError> {
    match resolve_levels(alloc, syntax) {
        Ok(levels) => shown(alloc, &levels),
        Err(fault) => type_fault(alloc, fault),
    }
}

/// The policy without its levels, and each level.
fn shown(alloc: Global, levels: &Levels) -> Result<String, AllocError> {
    let mut text = String::new(alloc);
    show_policy(&mut text, &levels.plain)?;
    for level in levels.levels.as_slice() {
        text.push_str("; level ")?;
        show_cond(&mut text, &level.within)?;
        text.push_str(": ")?;
        show_cond(&mut text, &level.filter)?;
    }
    Ok(text)
}
