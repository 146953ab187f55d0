//! How a reason is written, and the entries that may come.

ghost use Rattle.std.specs.Prelude.{◌≡◌, ◌+◌, ◌≤◌, ◌++◌, decimal, length};
ghost use Rattle.sched_history.specs.Ranges.{IsPrintableFrom};
ghost use Rattle.sched_io.specs.Puts.{Puts};
ghost use Rattle.history_reasons.specs.Lines.{AreTold, legal_line, legal_lines, line_or_dash};
ghost use Rattle.history_reasons.specs.Lines.{numbered_line, reason_line, unit_line};
ghost use Rattle.history_reasons.specs.declared.reason.Reason.TheVariants as reason;

use crate::coming::Coming;
use crate::reason::Reason;
use round_model::{Did, Entry};
use sched_base::{CoreId, Pos, Stolen};
use sched_history::print_entry;
use sched_io::{LINE_ROOM, Line, NUMBER_ROOM, PutFault, Sink, put_all};

/// The most bytes of a word of a line.
const WORD_ROOM: usize = 16;

/// Writes the entries that may come.
pub fn print_coming<S: Sink>(out: &mut S, coming: &Coming) -> Result<(), PutFault>
    requires { AreTold coming.now }
    ensures { Puts (legal_lines coming.now) result (S.shown out.old) (S.shown out.new) }
{
    for entry in coming.entries.as_slice() {
        let line = legal_line(entry, coming.start);
        put_all(out, line.as_bytes())?;
    }
    Ok(())
}

/// The line of an entry that may come, in a round that starts there.
fn legal_line(entry: &Entry, start: Pos) -> Line
    requires { IsPrintableFrom start entry.now }
    ensures { result ≡ legal_line start entry.now }
{
    let mut told = Line::new();
    print_entry(&mut told, entry, start);
    let mut line = Line::new();
    line.add(b"legal ");
    line.add(told.as_bytes());
    line
}

impl Reason {
    /// The line that tells it.
    pub fn to_line(&self) -> Line
        ensures { result ≡ reason_line self.now }
    {
        match self {
            Reason::Waits => numberless(b"rule waits\n"),
            Reason::NoneDue => numberless(b"rule none-due\n"),
            Reason::Number(next) => numbered(b"rule number ", *next, b"\n"),
            Reason::NoneOpen => numberless(b"rule none-open\n"),
            Reason::NoCore => numberless(b"rule no-core\n"),
            Reason::Enters(next) => or_dash(b"rule enters ", *next),
            Reason::Wakes(next) => or_dash(b"rule wakes ", *next),
            Reason::HasWorked => numberless(b"rule worked\n"),
            Reason::IsToWork => numberless(b"rule to-work\n"),
            Reason::HasAttempted => numberless(b"rule attempted\n"),
            Reason::ReadCount(count) => numbered(b"rule reads ", *count, b"\n"),
            Reason::Read {
                core,
                saw,
                first,
                last,
            } => read_line(*core, *saw, *first, *last),
            Reason::Place(at) => numbered(b"rule place ", *at, b"\n"),
            Reason::Unit(did) => unit_line(*did),
            Reason::Choice(from) => or_dash(b"rule choice ", *from),
            Reason::Filter(true) => numberless(b"rule filter true\n"),
            Reason::Filter(false) => numberless(b"rule filter false\n"),
            Reason::Threads(ids) => threads_line(ids),
        }
    }
}

/// A line without a number.
fn numberless(words: &[u8]) -> Line
    requires { length words.now ≤ LINE_ROOM }
    ensures { result ≡ words.now }
{
    let mut line = Line::new();
    line.add(words);
    line
}

/// A line of a number between these bytes.
pub fn numbered(front: &[u8], number: u32, behind: &[u8]) -> Line
    requires { length front.now + NUMBER_ROOM + length behind.now ≤ LINE_ROOM }
    ensures { result ≡ numbered_line front.now number behind.now }
{
    let mut line = Line::new();
    line.add(front);
    line.add_number(u64::from(number));
    line.add(behind);
    line
}

/// A line of a number behind these bytes, or of a dash where there is none.
fn or_dash(front: &[u8], number: Option<u32>) -> Line
    requires { length front.now ≤ WORD_ROOM }
    ensures { result ≡ line_or_dash front.now number }
{
    match number {
        Some(number) => numbered(front, number, b"\n"),
        None => {
            let mut line = numberless(front);
            line.add(b"-\n");
            line
        }
    }
}

/// The line of what a unit comes to.
fn unit_line(did: Option<Did>) -> Line
    ensures { result ≡ unit_line did }
{
    match did {
        None => numberless(b"rule unit none\n"),
        Some(Did::Nothing) => numberless(b"rule unit -\n"),
        Some(Did::Kept(thread)) => numbered(b"rule unit ", thread, b" keep\n"),
        Some(Did::Queued(thread)) => numbered(b"rule unit ", thread, b" queue\n"),
        Some(Did::Blocked(thread)) => numbered(b"rule unit ", thread, b" block\n"),
        Some(Did::Ended(thread)) => numbered(b"rule unit ", thread, b" end\n"),
    }
}

/// The line of a read that was made before the first position that it may have, or behind the last.
fn read_line(core: CoreId, saw: Pos, first: Pos, last: Pos) -> Line
    ensures { result ≡ reason_line (reason.Read core saw first last) }
{
    let mut line = Line::new();
    add_named(&mut line, b"rule read ", core);
    add_named(&mut line, b" saw ", saw);
    add_named(&mut line, b" from ", first);
    add_named(&mut line, b" to ", last);
    line.add(b"\n");
    line
}

/// The line of the threads that a steal takes.
fn threads_line(ids: &Stolen) -> Line
    ensures { result ≡ reason_line (reason.Threads ids.now) }
{
    let mut line = Line::new();
    line.add(b"rule threads");
    for at in 0..ids.len() {
        add_named(&mut line, b" ", ids.get(at));
    }
    line.add(b"\n");
    line
}

/// Adds a word and the number behind it.
fn add_named(line: &mut Line, word: &[u8], number: u32)
    requires short { length word.now ≤ WORD_ROOM }
    requires room { length line.old + WORD_ROOM + NUMBER_ROOM ≤ LINE_ROOM }
    ensures line { line.new ≡ line.old ++ word.now ++ decimal number }
    ensures small { length line.new ≤ length line.old + WORD_ROOM + NUMBER_ROOM }
{
    line.add(word);
    line.add_number(u64::from(number));
}
