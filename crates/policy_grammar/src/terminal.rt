//! The tokens as the grammar tells them apart.

ghost use Rattle.std.specs.Prelude.{◌≡◌, ◌==◌};
ghost use Rattle.policy_grammar.specs.Terminals.{code, is_word};

/// What a token is to the grammar. The order matters to no caller.
#[derive(Clone, Copy)]
pub enum Terminal {
    /// No token: the tokens have ended.
    End,
    /// `policy`
    Policy,
    /// `load`
    Load,
    /// `count`
    Count,
    /// `weight`
    Weight,
    /// `core`
    Core,
    /// `thread`
    Thread,
    /// `in`
    In,
    /// `start`
    Start,
    /// `place`
    Place,
    /// `here`
    Here,
    /// `min`
    Min,
    /// `max`
    Max,
    /// `elect`
    Elect,
    /// `choose`
    Choose,
    /// `steal`
    Steal,
    /// `first`
    First,
    /// `on`
    On,
    /// `enqueue`
    Enqueue,
    /// `tick`
    Tick,
    /// `yield`
    Yield,
    /// `block`
    Block,
    /// `when`
    When,
    /// `queue`
    Queue,
    /// `keep`
    Keep,
    /// `level`, which is a name in a policy
    Level,
    /// `filter`
    Filter,
    /// `and`
    And,
    /// `or`
    Or,
    /// `not`
    Not,
    /// `always`
    Always,
    /// `self`
    Itself,
    /// `victim`
    Victim,
    /// `t`
    Task,
    /// `while`
    While,
    /// `limit`
    Limit,
    /// `prefer`
    Prefer,
    /// `levels`, which is a name in a policy
    Levels,
    /// `within`, which is a name in a policy
    Within,
    /// A reserved word with no place of its own in the grammar.
    Reserved,
    /// A word that isn't reserved.
    Name,
    /// A number.
    Number,
    /// `.`
    Dot,
    /// `..`
    Range,
    /// `,`
    Comma,
    /// `:`
    Colon,
    /// `(`
    Open,
    /// `)`
    Close,
    /// `{`
    Begin,
    /// `}`
    Finish,
    /// `+`
    Plus,
    /// `-`
    Minus,
    /// `*`
    Star,
    /// `=`
    Gets,
    /// `==`
    Equal,
    /// `!=`
    Unequal,
    /// `<`
    Less,
    /// `<=`
    AtMost,
    /// `>`
    More,
    /// `>=`
    AtLeast,
}

impl Terminal {
    /// Whether the two are the same.
    pub fn is(self, other: Terminal) -> bool
        ensures { result ≡ (code self == code other) }
    {
        self as u8 == other as u8
    }

    /// Whether it is a word, reserved or not.
    pub fn is_word(self) -> bool
        ensures { result ≡ is_word (code self) }
    {
        Terminal::Policy as u8 <= self as u8 && self as u8 <= Terminal::Name as u8
    }
}

/// A token with what the grammar asks of it: what it is, where its bytes are, and a number's value.
#[derive(Clone, Copy)]
pub struct Lexeme {
    pub terminal: Terminal,
    /// The offset of its first byte.
    pub start: u32,
    /// The offset behind its last byte.
    pub end: u32,
    /// The value of a number, and 0 for others.
    pub value: u64,
}
