//! The policy that a text is, in a short spelling, or the first rule of names, ranges and phases that it breaks and its
//! token.

use crate::shown::show_policy;
use policy_lexer::lex;
use policy_parser::parse;
use policy_syntax::Syntax;
use policy_tree::Policy;
use policy_types::{TypeFault, resolve};
use sched_base::MAX_POLICY_BYTES;
use std::alloc::{AllocError, Global};

/// Why a text is no policy.
#[derive(Clone, Copy)]
pub(crate) enum NoPolicy {
    /// It has no syntax.
    Syntax,
    /// Its syntax breaks a rule.
    Fault(TypeFault),
}

/// The answer to the text.
pub(crate) fn policy_answer(alloc: Global, text: &[u8]) -> Result<String, AllocError> {
    match policy_of(alloc, text) {
        Ok(policy) => shown(alloc, &policy),
        Err(NoPolicy::Syntax) => String::from_str(alloc, "no syntax"),
        Err(NoPolicy::Fault(fault)) => type_fault(alloc, fault),
    }
}

/// The policy that the text is.
pub(crate) fn policy_of(alloc: Global, text: &[u8]) -> Result<Policy, NoPolicy> {
    let Some(syntax) = syntax_of(alloc, text) else {
        return Err(NoPolicy::Syntax);
    };
    match resolve(alloc, &syntax) {
        Ok(policy) => Ok(policy),
        Err(fault) => Err(NoPolicy::Fault(fault)),
    }
}

/// The syntax of a text, if it has one.
fn syntax_of(alloc: Global, text: &[u8]) -> Option<Syntax> {
    if text.len() as u64 > MAX_POLICY_BYTES {
        return None;
    }
    let tokens = lex(alloc, text).ok()?;
    parse(alloc, text, tokens.as_slice()).ok()
}

/// The policy in its short spelling.
pub(crate) fn shown(alloc: Global, policy: &Policy) -> Result<String, AllocError> {
    let mut text = String::new(alloc);
    show_policy(&mut text, policy)?;
    Ok(text)
}

/// The fault with its token.
pub(crate) fn type_fault(alloc: Global, fault: TypeFault) -> Result<String, AllocError> {
    let (word, at) = match fault {
        TypeFault::Unknown(at) => ("unknown", at),
        TypeFault::Twice(at) => ("twice", at),
        TypeFault::NotLinear(at) => ("not-linear", at),
        TypeFault::NotHere(at) => ("not-here", at),
        TypeFault::BadRange(at) => ("bad-range", at),
        TypeFault::Big(at) => ("big", at),
        TypeFault::Memory => ("memory", 0),
    };
    format!(in alloc; "{word} {at}")
}
