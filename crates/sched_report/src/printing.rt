//! How a report is written: a line for each row, and one for each total.

ghost use Rattle.std.specs.Prelude.{◌≡◌, ◌+◌, ◌*◌, ◌≤◌, ℕ, List, None, ◌++◌, decimal, length, map};
ghost use Rattle.sched_io.specs.Puts.{Puts};
ghost use Rattle.sched_report.specs.declared.printing.TheConstants.{REST_ROOM, WORD_ROOM};
ghost use Rattle.sched_report.specs.Lines.{line_of_fail, line_of_round, line_of_still, line_of_total, report_lines};
ghost use Rattle.sched_report.specs.Lines.{line_of_cause, line_of_cause_at, line_of_rest, line_of_stretch, still_until, totals_lines};
ghost use Rattle.sched_report.specs.Lines.{waste_lines};

use crate::rows::{
    CauseRow, FailRow, FullReport, RestRow, RoundRow, StillRow, StretchRow, Totals, WasteReport,
};
use sched_base::Pos;
use sched_io::{LINE_ROOM, Line, NUMBER_ROOM, PutFault, Sink, put_all};

/// Writes the lines of the report.
pub fn print_report<S: Sink>(out: &mut S, report: &FullReport) -> Result<(), PutFault>
    ensures { Puts (report_lines report.now) result (S.shown out.old) (S.shown out.new) }
{
    put_lines(
        out,
        report.rounds.as_slice(),
        report.stills.as_slice(),
        report.fails.as_slice(),
        &report.totals,
    )
}

/// Writes the lines of the report that tells of waste.
pub fn print_waste<S: Sink>(out: &mut S, waste: &WasteReport) -> Result<(), PutFault>
    ensures { Puts (waste_lines waste.now) result (S.shown out.old) (S.shown out.new) }
{
    put_lines(
        out,
        waste.rounds.as_slice(),
        waste.stretches.as_slice(),
        waste.causes.as_slice(),
        &waste.totals,
    )
}

/// Writes the lines of the totals.
pub fn print_totals<S: Sink>(out: &mut S, totals: &Totals) -> Result<(), PutFault>
    ensures { Puts (totals_lines totals.now) result (S.shown out.old) (S.shown out.new) }
{
    let rows = [
        Total::of(b"rounds ", totals.rounds),
        Total::of(b"entries ", totals.entries),
        Total::of(b"steals ", totals.steals),
        Total::of(b"fails ", totals.fails),
        Total::of(b"bad ", totals.bad),
        Total::of(b"wasted ", totals.wasted),
    ];
    put_rows(out, &rows)
}

/// Writes the rows of both kinds of report in their order, and the totals.
fn put_lines<S: Sink, A: Row, B: Row>(
    out: &mut S,
    rounds: &[RoundRow],
    stretches: &[A],
    fails: &[B],
    totals: &Totals,
) -> Result<(), PutFault>
    ensures { Puts
        (map line_of_round rounds.now ++ map A.text stretches.now ++ map B.text fails.now ++ totals_lines totals.now)
        result (S.shown out.old) (S.shown out.new) }
{
    put_rows(out, rounds)?;
    put_rows(out, stretches)?;
    put_rows(out, fails)?;
    print_totals(out, totals)
}

/// What is written as one line.
trait Row {
    /// The bytes of the line, its line feed at their end.
    ghost text: { Self → List ℕ };

    fn line(&self) -> Line
        ensures { result ≡ text self.now };
}

/// Writes the rows, a line at a time.
fn put_rows<S: Sink, R: Row>(out: &mut S, rows: &[R]) -> Result<(), PutFault>
    ensures { Puts (map R.text rows.now) result (S.shown out.old) (S.shown out.new) }
{
    for row in rows {
        let line = row.line();
        put_all(out, line.as_bytes())?;
    }
    Ok(())
}

impl Row for RoundRow {
    ghost text = { line_of_round };

    fn line(&self) -> Line {
        let mut line = Line::new();
        add_named(&mut line, b"round ", u64::from(self.number));
        add_named(&mut line, b" spread ", self.spread);
        add_named(&mut line, b" idle ", u64::from(self.idle));
        line.add(b"\n");
        line
    }
}

impl Row for StillRow {
    ghost text = { line_of_still };

    fn line(&self) -> Line {
        let mut line = still_begun(self);
        line.add(b"\n");
        add_rest(&mut line, self.rest);
        line
    }
}

impl Row for StretchRow {
    ghost text = { line_of_stretch };

    fn line(&self) -> Line {
        let mut line = still_begun(&self.still);
        add_named(&mut line, b" steals ", u64::from(self.steals));
        line.add(b"\n");
        add_rest(&mut line, self.still.rest);
        line
    }
}

/// The words of a stretch, without the end of its line.
fn still_begun(still: &StillRow) -> Line
    ensures line { (end : List ℕ) → result ++ end ≡ still_until still.now end }
    ensures small { length result ≤ 4 * (WORD_ROOM + NUMBER_ROOM) }
{
    let mut line = Line::new();
    add_named(&mut line, b"still ", u64::from(still.first));
    add_named(&mut line, b" ", u64::from(still.last));
    add_named(&mut line, b" spread ", still.spread);
    add_named(&mut line, b" bad ", u64::from(still.bad));
    line
}

/// Adds the line that tells when the stretch comes to rest, behind its own.
fn add_rest(line: &mut Line, rest: Option<RestRow>)
    requires { length line.old + REST_ROOM ≤ LINE_ROOM }
    ensures { line.new ≡ line.old ++ line_of_rest rest }
{
    match rest {
        None => line.add(b"rest -\n"),
        Some(rest) => {
            add_named(line, b"rest ", u64::from(rest.round));
            add_named(line, b" gap ", rest.gap);
            line.add(b"\n");
        }
    }
}

impl Row for FailRow {
    ghost text = { line_of_fail };

    fn line(&self) -> Line {
        let mut line = Line::new();
        add_named(&mut line, b"fail ", u64::from(self.at));
        add_named(&mut line, b" by ", u64::from(self.by));
        line.add(b"\n");
        line
    }
}

impl Row for CauseRow {
    ghost text = { line_of_cause };

    fn line(&self) -> Line {
        match self.by {
            Some(by) => FailRow { at: self.at, by }.line(),
            None => unexplained(self.at),
        }
    }
}

/// The line of a failed steal at that position that nothing explains.
fn unexplained(at: Pos) -> Line
    ensures { result ≡ line_of_cause_at at None }
{
    let mut line = Line::new();
    add_named(&mut line, b"fail ", u64::from(at));
    line.add(b"\n");
    line
}

/// The longest word of a line, its blanks counted.
const WORD_ROOM: usize = 8;

/// The longest line that tells of rest: two words with their numbers, and its end.
const REST_ROOM: usize = 2 * (WORD_ROOM + NUMBER_ROOM) + 1;

/// One of the totals, with the word that stands before it.
#[derive(Clone, Copy)]
struct Total<'a> {
    word: &'a [u8],
    number: u32,
    ghost short: { length word.now ≤ WORD_ROOM },
}

impl<'a> Total<'a> {
    fn of(word: &'a [u8], number: u32) -> Total<'a>
        requires { length word.now ≤ WORD_ROOM }
        ensures word { result.word.now ≡ word.now }
        ensures number { result.number ≡ number }
    {
        Total { word, number }
    }
}

impl Row for Total<'_> {
    ghost text = { λ total. line_of_total total.word.now total.number };

    fn line(&self) -> Line {
        let mut line = Line::new();
        add_named(&mut line, self.word, u64::from(self.number));
        line.add(b"\n");
        line
    }
}

/// Adds a word and the number behind it.
fn add_named(line: &mut Line, word: &[u8], number: u64)
    requires short { length word.now ≤ WORD_ROOM }
    requires room { length line.old + WORD_ROOM + NUMBER_ROOM ≤ LINE_ROOM }
    ensures line { line.new ≡ line.old ++ word.now ++ decimal number }
    ensures small { length line.new ≤ length line.old + WORD_ROOM + NUMBER_ROOM }
{
    line.add(word);
    line.add_number(number);
}
