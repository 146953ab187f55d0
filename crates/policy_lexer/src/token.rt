//! What a text is cut into.

use lists::Items;

/// One of the eighteen symbols of the language.
#[derive(Clone, Copy)]
pub enum Symbol {
    /// `.`
    Dot,
    /// `..`
    Range,
    /// `,`
    Comma,
    /// `:`
    Colon,
    /// `(`
    Open,
    /// `)`
    Close,
    /// `{`
    Begin,
    /// `}`
    Finish,
    /// `+`
    Plus,
    /// `-`
    Minus,
    /// `*`
    Star,
    /// `=`
    Gets,
    /// `==`
    Equal,
    /// `!=`
    Unequal,
    /// `<`
    Less,
    /// `<=`
    AtMost,
    /// `>`
    More,
    /// `>=`
    AtLeast,
}

/// What a token is. A reserved word is a word like any other.
#[derive(Clone, Copy)]
pub enum TokenKind {
    /// A letter, then letters, digits and `_`: at most `MAX_NAME_BYTES` bytes, which stand in the text.
    Word,
    /// Decimal digits, with this value. Leading zeros are allowed.
    Number(u64),
    /// A symbol.
    Symbol(Symbol),
}

/// A token: what it is, and the bytes of the text from `start` up to `end` that spell it.
#[derive(Clone, Copy)]
pub struct Token {
    /// What it is.
    pub kind: TokenKind,
    /// The offset of its first byte.
    pub start: u32,
    /// The offset behind its last byte.
    pub end: u32,
}

/// The tokens of a text, in its order.
pub type Tokens = Items<Token>;
