//! The piece of a text at one place.

ghost use Rattle.std.specs.Prelude.{◌≡◌, ◌<◌, ◌≤◌, ◌^◌, IfOk, IfErr, IfSome, IfNone, length, slice_index, true};
ghost use Rattle.std.specs.List.{AllPass, prefix_len};
ghost use Rattle.std.specs.Option.{SomeIff};
ghost use Rattle.std.specs.Char.{is_ascii_alphabetic, is_ascii_digit};
ghost use Rattle.sched_base.specs.declared.limits.TheConstants.{MAX_POLICY_BYTES};
ghost use Rattle.policy_lexer.specs.Bytes.{is_word_byte, is_blank, is_comment_byte, number_of, single_symbol};
ghost use Rattle.policy_lexer.specs.Bytes.{double_symbol};
ghost use Rattle.policy_lexer.specs.First.{IsStep, IsFirstFault, IsOther, HasDouble, HasNoDouble};

use crate::fault::LexFault;
use crate::token::{Symbol, TokenKind};
use sched_base::MAX_NAME_BYTES;

/// A piece of the text, with its size in bytes: blanks or a comment, or a token.
#[derive(Clone, Copy)]
pub(crate) enum Step {
    Gap(u32),
    Token(TokenKind, u32),
}

/// The piece with which this text begins, which stands at an offset of a longer one.
pub(crate) fn first_step(text: &[u8], at: u32) -> Result<Step, LexFault>
    requires some { 0 < length text.now }
    requires few { length text.now ≤ MAX_POLICY_BYTES }
    ensures step { IfOk result (IsStep text.now) }
    ensures fault { IfErr result (IsFirstFault text.now at) }
{
    let first = text[0];
    if first.is_ascii_alphabetic() {
        word(text, at)
    } else if first.is_ascii_digit() {
        number(text, at)
    } else if is_blank(first) {
        Ok(Step::Gap(blanks_size(text)))
    } else if first == b'#' {
        Ok(Step::Gap(comment_size(text)))
    } else {
        symbol(text, at)
    }
}

fn word(text: &[u8], at: u32) -> Result<Step, LexFault>
    requires some { 0 < length text.now }
    requires few { length text.now ≤ MAX_POLICY_BYTES }
    requires letter { is_ascii_alphabetic (slice_index text.now 0) ≡ true }
    ensures step { IfOk result (IsStep text.now) }
    ensures fault { IfErr result (IsFirstFault text.now at) }
{
    let size = word_size(text);
    if size > MAX_NAME_BYTES {
        return Err(LexFault::LongName(at));
    }
    Ok(Step::Token(TokenKind::Word, size))
}

fn number(text: &[u8], at: u32) -> Result<Step, LexFault>
    requires some { 0 < length text.now }
    requires few { length text.now ≤ MAX_POLICY_BYTES }
    requires digit { is_ascii_digit (slice_index text.now 0) ≡ true }
    ensures step { IfOk result (IsStep text.now) }
    ensures fault { IfErr result (IsFirstFault text.now at) }
{
    let size = digits_size(text);
    let (digits, _rest) = text.split_at(size as usize);
    match value_of(digits) {
        Some(value) => Ok(Step::Token(TokenKind::Number(value), size)),
        None => Err(LexFault::WideNumber(at)),
    }
}

fn symbol(text: &[u8], at: u32) -> Result<Step, LexFault>
    requires some { 0 < length text.now }
    requires other { IsOther (slice_index text.now 0) }
    ensures step { IfOk result (IsStep text.now) }
    ensures fault { IfErr result (IsFirstFault text.now at) }
{
    if let Some(symbol) = first_double(text) {
        return Ok(Step::Token(TokenKind::Symbol(symbol), 2));
    }
    match single(text[0]) {
        Some(symbol) => Ok(Step::Token(TokenKind::Symbol(symbol), 1)),
        None if text[0].is_ascii() => Err(LexFault::BadByte(at)),
        None => Err(LexFault::NotAscii(at)),
    }
}

/// The symbol of two bytes with which the text begins.
fn first_double(text: &[u8]) -> Option<Symbol>
    requires { 0 < length text.now }
    ensures none { IfNone result (HasNoDouble text.now) }
    ensures some { IfSome result (HasDouble text.now) }
{
    if text.len() > 1 {
        double(text[0], text[1])
    } else {
        None
    }
}

/// The symbol of one byte.
fn single(byte: u8) -> Option<Symbol>
    ensures { result ≡ single_symbol byte }
{
    match byte {
        b'.' => Some(Symbol::Dot),
        b',' => Some(Symbol::Comma),
        b':' => Some(Symbol::Colon),
        b'(' => Some(Symbol::Open),
        b')' => Some(Symbol::Close),
        b'{' => Some(Symbol::Begin),
        b'}' => Some(Symbol::Finish),
        b'+' => Some(Symbol::Plus),
        b'-' => Some(Symbol::Minus),
        b'*' => Some(Symbol::Star),
        b'=' => Some(Symbol::Gets),
        b'<' => Some(Symbol::Less),
        b'>' => Some(Symbol::More),
        _ => None,
    }
}

/// The symbol of two bytes.
fn double(first: u8, second: u8) -> Option<Symbol>
    ensures { result ≡ double_symbol first second }
{
    match (first, second) {
        (b'.', b'.') => Some(Symbol::Range),
        (b'=', b'=') => Some(Symbol::Equal),
        (b'!', b'=') => Some(Symbol::Unequal),
        (b'<', b'=') => Some(Symbol::AtMost),
        (b'>', b'=') => Some(Symbol::AtLeast),
        _ => None,
    }
}

/// The value of decimal digits, where it is below `2^64`.
fn value_of(digits: &[u8]) -> Option<u64>
    requires { AllPass is_ascii_digit digits.now }
    ensures { SomeIff result (number_of digits.now < 2 ^ 64) (number_of digits.now) }
{
    let mut value: u64 = 0;
    for digit in digits {
        value = value
            .checked_mul(10)?
            .checked_add(u64::from(*digit - b'0'))?;
    }
    Some(value)
}

fn is_blank(byte: u8) -> bool
    ensures { result ≡ is_blank byte }
{
    matches!(byte, b' ' | b'\t' | b'\n' | b'\r')
}

fn is_word_byte(byte: u8) -> bool
    ensures { result ≡ is_word_byte byte }
{
    byte.is_ascii_alphanumeric() || byte == b'_'
}

fn is_comment_byte(byte: u8) -> bool
    ensures { result ≡ is_comment_byte byte }
{
    matches!(byte, b'\t' | b'\r' | b' '..=b'~')
}

/// How many bytes the text begins with that go on with a word.
fn word_size(text: &[u8]) -> u32
    requires { length text.now ≤ MAX_POLICY_BYTES }
    ensures { result ≡ prefix_len is_word_byte text.now }
{
    text.iter().take_while(|byte| is_word_byte(**byte)).count() as u32
}

/// How many digits the text begins with.
fn digits_size(text: &[u8]) -> u32
    requires { length text.now ≤ MAX_POLICY_BYTES }
    ensures { result ≡ prefix_len is_ascii_digit text.now }
{
    text.iter().take_while(|byte| byte.is_ascii_digit()).count() as u32
}

/// How many blanks the text begins with.
fn blanks_size(text: &[u8]) -> u32
    requires { length text.now ≤ MAX_POLICY_BYTES }
    ensures { result ≡ prefix_len is_blank text.now }
{
    text.iter().take_while(|byte| is_blank(**byte)).count() as u32
}

/// How many bytes the text begins with that go on with a comment.
fn comment_size(text: &[u8]) -> u32
    requires { length text.now ≤ MAX_POLICY_BYTES }
    ensures { result ≡ prefix_len is_comment_byte text.now }
{
    text.iter()
        .take_while(|byte| is_comment_byte(**byte))
        .count() as u32
}
