//! Tells the tokens of a text apart as the grammar does.

ghost use Rattle.std.specs.Prelude.{◌≡◌, ◌<◌, ◌^◌, length, All, IfOk};
ghost use Rattle.policy_parser.specs.Answers.{LiesIn};
ghost use Rattle.policy_grammar.specs.declared.language.Language.TheVariants.{LevelTexts};
ghost use Rattle.policy_grammar.specs.Lexemes.{is_levels, lexeme_in, lexemes_in, symbol_terminal, terminal_among};
ghost use Rattle.policy_grammar.specs.Lexemes.{word_terminal_in};

use policy_grammar::{Language, Lexeme, Terminal};
use policy_lexer::{Symbol, Token, TokenKind};
use std::alloc::{AllocError, Global};

/// How many words are reserved in level texts alone.
const LEVEL_WORDS: usize = 3;

/// The reserved words, first those of level texts alone, and what each is to the grammar.
const RESERVED: [(&str, Terminal); 40] = [
    ("levels", Terminal::Levels),
    ("level", Terminal::Level),
    ("within", Terminal::Within),
    ("policy", Terminal::Policy),
    ("load", Terminal::Load),
    ("count", Terminal::Count),
    ("weight", Terminal::Weight),
    ("core", Terminal::Core),
    ("thread", Terminal::Thread),
    ("in", Terminal::In),
    ("start", Terminal::Start),
    ("place", Terminal::Place),
    ("here", Terminal::Here),
    ("min", Terminal::Min),
    ("max", Terminal::Max),
    ("elect", Terminal::Elect),
    ("choose", Terminal::Choose),
    ("steal", Terminal::Steal),
    ("first", Terminal::First),
    ("on", Terminal::On),
    ("enqueue", Terminal::Enqueue),
    ("tick", Terminal::Tick),
    ("yield", Terminal::Yield),
    ("block", Terminal::Block),
    ("when", Terminal::When),
    ("queue", Terminal::Queue),
    ("keep", Terminal::Keep),
    ("filter", Terminal::Filter),
    ("and", Terminal::And),
    ("or", Terminal::Or),
    ("not", Terminal::Not),
    ("always", Terminal::Always),
    ("self", Terminal::Itself),
    ("victim", Terminal::Victim),
    ("t", Terminal::Task),
    ("while", Terminal::While),
    ("limit", Terminal::Limit),
    ("prefer", Terminal::Prefer),
    ("nr", Terminal::Reserved),
    ("fresh", Terminal::Reserved),
];

/// Whether the token is the word `levels`.
pub(crate) fn is_levels(text: &[u8], token: Token) -> bool
    requires lies { LiesIn text.now (lexeme_in LevelTexts text.now token) }
    ensures { result ≡ is_levels text.now token }
{
    lexeme(Language::LevelTexts, text, token)
        .terminal
        .is(Terminal::Levels)
}

/// The tokens of the text in that language, told apart.
pub(crate) fn lexemes(
    alloc: Global,
    language: Language,
    text: &[u8],
    tokens: &[Token],
) -> Result<Vec<Lexeme>, AllocError>
    requires lie { All (LiesIn text.now) (lexemes_in language text.now tokens.now) }
    requires few { length tokens.now < 2 ^ 32 }
    ensures are { IfOk result (λ v. v.items ≡ lexemes_in language text.now tokens.now) }
{
    let mut lexemes = Vec::new(alloc);
    let mut at = 0;
    'tokens: while at < tokens.len() {
        lexemes.push(lexeme(language, text, tokens[at]))?;
        at += 1;
    }
    Ok(lexemes)
}

/// The token, told apart.
fn lexeme(language: Language, text: &[u8], token: Token) -> Lexeme
    requires lies { LiesIn text.now (lexeme_in language text.now token) }
    ensures { result ≡ lexeme_in language text.now token }
{
    let (terminal, value) = match token.kind {
        TokenKind::Word => (
            word_terminal(language, &text[token.start as usize..token.end as usize]),
            0,
        ),
        TokenKind::Number(value) => (Terminal::Number, value),
        TokenKind::Symbol(symbol) => (symbol_terminal(symbol), 0),
    };
    Lexeme {
        terminal,
        start: token.start,
        end: token.end,
        value,
    }
}

/// What the word is to the grammar of that language.
fn word_terminal(language: Language, word: &[u8]) -> Terminal
    ensures { result ≡ word_terminal_in language word.now }
{
    match language {
        Language::Policies => terminal_among(&RESERVED[LEVEL_WORDS..], word),
        Language::LevelTexts => terminal_among(&RESERVED, word),
    }
}

/// What the word is where those are reserved.
fn terminal_among(words: &[(&str, Terminal)], word: &[u8]) -> Terminal
    ensures { result ≡ terminal_among (λ w. w.0.now) (λ w. w.1) words.now word.now }
{
    for reserved in words {
        if reserved.0.as_bytes() == word {
            return reserved.1;
        }
    }
    Terminal::Name
}

/// What the symbol is to the grammar.
fn symbol_terminal(symbol: Symbol) -> Terminal
    ensures { result ≡ symbol_terminal symbol }
{
    match symbol {
        Symbol::Dot => Terminal::Dot,
        Symbol::Range => Terminal::Range,
        Symbol::Comma => Terminal::Comma,
        Symbol::Colon => Terminal::Colon,
        Symbol::Open => Terminal::Open,
        Symbol::Close => Terminal::Close,
        Symbol::Begin => Terminal::Begin,
        Symbol::Finish => Terminal::Finish,
        Symbol::Plus => Terminal::Plus,
        Symbol::Minus => Terminal::Minus,
        Symbol::Star => Terminal::Star,
        Symbol::Gets => Terminal::Gets,
        Symbol::Equal => Terminal::Equal,
        Symbol::Unequal => Terminal::Unequal,
        Symbol::Less => Terminal::Less,
        Symbol::AtMost => Terminal::AtMost,
        Symbol::More => Terminal::More,
        Symbol::AtLeast => Terminal::AtLeast,
    }
}
