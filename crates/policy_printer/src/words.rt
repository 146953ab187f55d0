//! The words and symbols that a syntax has as data.

ghost use Rattle.std.specs.Prelude.{◌≡◌};
ghost use Rattle.policy_printer.specs.WordTexts.{compare_text, event_text, key_text, kind_text, owner_text, put_text};
ghost use Rattle.policy_printer.specs.WordTexts.{sign_text};

use policy_syntax::Owner;
use policy_tree::{Cmp, Event, Put};

/// Whose attribute is declared.
pub(crate) fn kind_text(of_cores: bool) -> &'static str
    ensures { result.now ≡ kind_text of_cores }
{
    if of_cores { "core" } else { "thread" }
}

/// Whether the greater value comes first.
pub(crate) fn key_text(greatest: bool) -> &'static str
    ensures { result.now ≡ key_text greatest }
{
    if greatest { "max" } else { "min" }
}

/// Whether a term is taken away.
pub(crate) fn sign_text(minus: bool) -> &'static str
    ensures { result.now ≡ sign_text minus }
{
    if minus { "-" } else { "+" }
}

/// Whose attribute a reference reads.
pub(crate) fn owner_text(owner: Owner) -> &'static str
    ensures { result.now ≡ owner_text owner }
{
    match owner {
        Owner::Itself => "self",
        Owner::Victim => "victim",
        Owner::Core => "core",
        Owner::Thread => "t",
    }
}

pub(crate) fn event_text(event: Event) -> &'static str
    ensures { result.now ≡ event_text event }
{
    match event {
        Event::Enqueue => "enqueue",
        Event::Tick => "tick",
        Event::Yield => "yield",
        Event::Block => "block",
    }
}

/// Where a case puts the thread.
pub(crate) fn put_text(put: Put) -> &'static str
    ensures { result.now ≡ put_text put }
{
    match put {
        Put::Queue => "queue",
        Put::Keep => "keep",
        Put::Block => "block",
    }
}

/// The symbol of a comparison.
pub(crate) fn compare_text(compare: Cmp) -> &'static str
    ensures { result.now ≡ compare_text compare }
{
    match compare {
        Cmp::Eq => "==",
        Cmp::Ne => "!=",
        Cmp::Lt => "<",
        Cmp::Le => "<=",
        Cmp::Gt => ">",
        Cmp::Ge => ">=",
    }
}
