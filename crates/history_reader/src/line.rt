//! Reads the line of an entry.

ghost use Rattle.std.specs.Prelude.{◌≡◌, ◌≢◌, MatchOption};
ghost use Rattle.history_reader.specs.Code.Kinds.{IsLineOf, IsLineOfNone, IsNoRestOf, IsRestOf};
ghost use Rattle.history_reader.specs.Code.Kinds.{IsRightForm, name_of};
ghost use Rattle.history_reader.specs.Reading.{BeginsWith, BeginsWithNone};

use crate::rests::{enter_in, fail_in, pass_in, round_in, steal_in, wake_in};
use crate::work::work_in;
use round_model::Entry;
use sched_history::LineForm;
use text_forms::{cut, front};

/// A kind of entry.
#[derive(Clone, Copy)]
pub enum Kind {
    /// A round begins.
    Round,
    /// A thread enters.
    Enter,
    /// A thread wakes.
    Wake,
    /// A core runs one unit.
    Work,
    /// A core steals.
    Steal,
    /// A core fails to steal.
    Fail,
    /// A core finds none to steal from.
    Pass,
}

/// The entry that the text begins with, and what stands behind its line.
pub fn entry_at(text: &[u8], form: LineForm) -> Option<(Entry, &[u8])>
    requires { IsRightForm form }
    ensures { MatchOption result
        (BeginsWithNone form text.now)
        (λ found. BeginsWith form text.now found.0 found.1.now) }
{
    let (line, behind) = cut(text, b'\n')?;
    let entry = entry_in(line, form)?;
    Some((entry, behind))
}

/// The entry whose line it is, without its line feed.
fn entry_in(line: &[u8], form: LineForm) -> Option<Entry>
    requires { IsRightForm form }
    ensures { MatchOption result
        (IsLineOfNone form line.now)
        (λ entry. IsLineOf form line.now entry) }
{
    let (word, rest) = front(line, b' ');
    let kind = kind_named(word)?;
    entry_of(kind, rest, form)
}

/// The entry of that kind, behind whose first word the text stands.
fn entry_of(kind: Kind, rest: &[u8], form: LineForm) -> Option<Entry>
    requires { IsRightForm form }
    ensures { MatchOption result
        (IsNoRestOf form kind rest.now)
        (λ entry. IsRestOf form kind rest.now entry) }
{
    match kind {
        Kind::Round => round_in(rest, form),
        Kind::Enter => enter_in(rest, form),
        Kind::Wake => wake_in(rest, form),
        Kind::Work => work_in(rest, form),
        Kind::Steal => steal_in(rest, form),
        Kind::Fail => fail_in(rest, form),
        Kind::Pass => pass_in(rest, form),
    }
}

/// The kind whose word it is.
fn kind_named(word: &[u8]) -> Option<Kind>
    ensures { MatchOption result
        ((which : Kind) → word.now ≢ name_of which)
        (λ which. word.now ≡ name_of which) }
{
    if word == b"round".as_slice() {
        Some(Kind::Round)
    } else if word == b"enter".as_slice() {
        Some(Kind::Enter)
    } else if word == b"wake".as_slice() {
        Some(Kind::Wake)
    } else if word == b"work".as_slice() {
        Some(Kind::Work)
    } else if word == b"steal".as_slice() {
        Some(Kind::Steal)
    } else if word == b"fail".as_slice() {
        Some(Kind::Fail)
    } else if word == b"pass".as_slice() {
        Some(Kind::Pass)
    } else {
        None
    }
}
