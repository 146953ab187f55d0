//! How things stand to one another in C, and the words for what a policy has as data.

ghost use Rattle.std.specs.Prelude.{◌≡◌};
ghost use Rattle.c_printer.specs.WordTexts.{accepted_text, begin_text, cast_text, closing_text, compare_text, end_text};
ghost use Rattle.c_printer.specs.WordTexts.{event_comment, event_text, fresh_text, minus_text, opening_text};
ghost use Rattle.c_printer.specs.WordTexts.{other_word, put_text, suffix_text, thread_word};

use policy_tree::{Cmp, Event, Put};

/// Of which policies a header is.
#[derive(Clone, Copy)]
pub enum HeaderKind {
    /// Of one that was accepted.
    Accepted,
    /// Of one that may not be, for lectures and tries.
    Draft,
}

/// Which core or thread is asked about.
#[derive(Clone, Copy)]
pub(crate) enum View {
    /// `victim` and `thread`.
    Named,
    /// The first of two, `a`.
    First,
    /// The second of two, `b`.
    Second,
}

/// The type in which an expression is computed.
#[derive(Clone, Copy)]
pub(crate) enum Width {
    /// Every part fits `int`, so that its numbers stand as they are.
    Small,
    /// Every part fits `int64_t`.
    Long,
    /// Some part may need `__int128`.
    Wide,
}

/// Where an operand stands.
#[derive(Clone, Copy)]
pub(crate) enum Standing {
    /// On the left of a sum.
    Alone,
    /// On the right of a sum, or on the left of a product.
    Term,
    /// On the right of a product, or behind a minus.
    Tight,
}

/// Where a condition stands that is part of another.
#[derive(Clone, Copy)]
pub(crate) enum Place {
    /// On the left of `&&`.
    LeftOfAnd,
    /// On the left of `||`.
    LeftOfOr,
    /// On the right of either.
    Right,
    /// Behind `!`.
    Negated,
}

/// What a macro says of the header's kind.
pub(crate) fn accepted_text(kind: HeaderKind) -> &'static str
    ensures { result.now ≡ accepted_text kind }
{
    match kind {
        HeaderKind::Accepted => "1\n",
        HeaderKind::Draft => "0\n",
    }
}

pub(crate) fn other_word(view: View) -> &'static str
    ensures { result.now ≡ other_word view }
{
    match view {
        View::Named => "victim",
        View::First => "a",
        View::Second => "b",
    }
}

pub(crate) fn thread_word(view: View) -> &'static str
    ensures { result.now ≡ thread_word view }
{
    match view {
        View::Named => "thread",
        View::First => "a",
        View::Second => "b",
    }
}

pub(crate) fn opening_text(opens: bool) -> &'static str
    ensures { result.now ≡ opening_text opens }
{
    if opens { "(" } else { "" }
}

pub(crate) fn closing_text(opens: bool) -> &'static str
    ensures { result.now ≡ closing_text opens }
{
    if opens { ")" } else { "" }
}

pub(crate) fn minus_text(negative: bool) -> &'static str
    ensures { result.now ≡ minus_text negative }
{
    if negative { "-" } else { "" }
}

/// What turns an operand into that type.
pub(crate) fn cast_text(width: Width) -> &'static str
    ensures { result.now ≡ cast_text width }
{
    match width {
        Width::Small | Width::Long => "",
        Width::Wide => "(__int128)",
    }
}

/// What stands behind a number of that type.
pub(crate) fn suffix_text(width: Width) -> &'static str
    ensures { result.now ≡ suffix_text width }
{
    match width {
        Width::Small => "",
        Width::Long | Width::Wide => "LL",
    }
}

/// What stands before an expression of that type.
pub(crate) fn begin_text(width: Width) -> &'static str
    ensures { result.now ≡ begin_text width }
{
    match width {
        Width::Small | Width::Long => "",
        Width::Wide => "__extension__ (",
    }
}

/// What stands behind it.
pub(crate) fn end_text(width: Width) -> &'static str
    ensures { result.now ≡ end_text width }
{
    match width {
        Width::Small | Width::Long => "",
        Width::Wide => ")",
    }
}

pub(crate) fn event_text(event: Event) -> &'static str
    ensures { result.now ≡ event_text event }
{
    match event {
        Event::Enqueue => "enqueue",
        Event::Tick => "tick",
        Event::Yield => "yield",
        Event::Block => "block",
    }
}

/// A comment that says when the event comes.
pub(crate) fn event_comment(event: Event) -> &'static str
    ensures { result.now ≡ event_comment event }
{
    match event {
        Event::Enqueue => {
            "\n/* A thread enters self's queue, fresh where it is new, not where it wakes. No steal calls this. */\n"
        }
        Event::Tick => "\n/* The thread that runs on self has run a while, and isn't done. */\n",
        Event::Yield => "\n/* The thread that runs on self yields. */\n",
        Event::Block => "\n/* The thread that runs on self blocks. */\n",
    }
}

/// The parameter that only an event has which a fresh thread may meet.
pub(crate) fn fresh_text(event: Event) -> &'static str
    ensures { result.now ≡ fresh_text event }
{
    match event {
        Event::Enqueue => ", bool fresh",
        Event::Tick | Event::Yield | Event::Block => "",
    }
}

/// Where a case puts the thread.
pub(crate) fn put_text(put: Put) -> &'static str
    ensures { result.now ≡ put_text put }
{
    match put {
        Put::Queue => "_put_queue",
        Put::Keep => "_put_keep",
        Put::Block => "_put_block",
    }
}

/// The symbol of a comparison, with its blanks.
pub(crate) fn compare_text(compare: Cmp) -> &'static str
    ensures { result.now ≡ compare_text compare }
{
    match compare {
        Cmp::Eq => " == ",
        Cmp::Ne => " != ",
        Cmp::Lt => " < ",
        Cmp::Le => " <= ",
        Cmp::Gt => " > ",
        Cmp::Ge => " >= ",
    }
}
