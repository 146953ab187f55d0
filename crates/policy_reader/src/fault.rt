//! What is wrong in a text.

ghost use Rattle.std.specs.Prelude.{◌≡◌, Some};
ghost use Rattle.policy_reader.specs.Lines.{word_of};
ghost use Rattle.policy_reader.specs.Told.{told_of};

use policy_lexer::LexFault;

/// The kinds of faults: four of tokens, three of the grammar and its limits, six of names, ranges and phases.
#[derive(Clone, Copy)]
pub enum FaultKind {
    /// A byte is 128 or more.
    NotAscii,
    /// A byte begins no token.
    BadByte,
    /// A word is too long.
    LongName,
    /// A number is too great.
    WideNumber,
    /// A token can't stand there, or the text stops too soon.
    Unexpected,
    /// A parenthesis, `not` or sign is nested too deep.
    Deep,
    /// There is one more of something than its limit.
    Many,
    /// A word behind a dot is known to nobody.
    Unknown,
    /// A name or an event stands there a second time.
    Twice,
    /// Both sides of a `*` have a reference.
    NotLinear,
    /// A word that is known mayn't stand there.
    NotHere,
    /// A range isn't one that may be declared.
    BadRange,
    /// A number, or a linear form, is too big.
    Big,
}

impl FaultKind {
    /// The word that is printed of it.
    pub fn word(&self) -> &'static str
        ensures { result.now ≡ word_of self.now }
    {
        match self {
            FaultKind::NotAscii => "not-ascii",
            FaultKind::BadByte => "bad-byte",
            FaultKind::LongName => "long-name",
            FaultKind::WideNumber => "wide-number",
            FaultKind::Unexpected => "unexpected",
            FaultKind::Deep => "deep",
            FaultKind::Many => "many",
            FaultKind::Unknown => "unknown",
            FaultKind::Twice => "twice",
            FaultKind::NotLinear => "not-linear",
            FaultKind::NotHere => "not-here",
            FaultKind::BadRange => "bad-range",
            FaultKind::Big => "big",
        }
    }
}

/// A fault at a place of a text.
#[derive(Clone, Copy)]
pub struct TextFault {
    /// What is wrong.
    pub kind: FaultKind,
    /// The offset of the byte where it stands, counted from 0: where it is a token, of the token's
    /// first byte, and where the text stops too soon, its length.
    pub at: u32,
}

/// Why a text isn't read.
#[derive(Clone, Copy)]
pub enum PolicyFault {
    /// It has this fault.
    Broken(TextFault),
    /// There was no memory for its tokens, its syntax or its policy.
    Memory,
}

impl PolicyFault {
    /// The fault of that kind at that offset.
    pub(crate) fn at(kind: FaultKind, at: u32) -> PolicyFault
        ensures { told_of result ≡ Some (record { kind = kind; at = at }) }
    {
        PolicyFault::Broken(TextFault { kind, at })
    }
}

impl From<LexFault> for PolicyFault {
    ghost use Rattle.policy_reader.specs.Told.{lex_fault, told_of};

    ghost from_gives = { λ fault answer. told_of answer ≡ lex_fault fault };

    fn from(fault: LexFault) -> PolicyFault {
        match fault {
            LexFault::NotAscii(at) => PolicyFault::at(FaultKind::NotAscii, at),
            LexFault::BadByte(at) => PolicyFault::at(FaultKind::BadByte, at),
            LexFault::LongName(at) => PolicyFault::at(FaultKind::LongName, at),
            LexFault::WideNumber(at) => PolicyFault::at(FaultKind::WideNumber, at),
            LexFault::Memory => PolicyFault::Memory,
        }
    }
}
