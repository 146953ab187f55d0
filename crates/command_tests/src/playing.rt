//! Tables of calls, and how they are played. A line is one of these:
//!
//! - `# ` and a heading;
//! - `file NAME TEXT`: the calls below find a file of that name and text;
//! - `no files`: they find none;
//! - `WORDS => STATUS RELATION TEXT`: a case, which `case` reads.

use crate::calls::{Answer, call, sink};
use crate::case::Case;
use crate::cut::{ends_anywhere, ends_within};
use crate::misread::Misread;
use crate::options::Cut;
use crate::shelf::Shelf;
use crate::spelling::spelled;
use std::alloc::{AllocError, Global};
use std::ops::Range;
use std::rt::Files;
use std::sync::Wait;
use std::thread::Threads;
use std::{fs, io};

/// The tables, in the order in which they are played.
const TABLES: [&str; 21] = [
    "statuses.cases",
    "words.cases",
    "check.cases",
    "levels.cases",
    "bound.cases",
    "rest.cases",
    "waits.cases",
    "certs.cases",
    "emit.cases",
    "play.cases",
    "faults.cases",
    "simulate.cases",
    "run.cases",
    "crew.cases",
    "histories.cases",
    "batches.cases",
    "migrate.cases",
    "why.cases",
    "made.cases",
    "hostile.cases",
    "sizes.cases",
];

/// What a line came to.
#[derive(Drop)]
enum Outcome {
    /// It is no case.
    Silent,
    /// Each call answered as expected.
    Expected,
    /// A call answered otherwise: its turn, and its answer.
    Otherwise(usize, Answer),
}

/// How many bytes of an answer that wasn't expected are printed at most.
const SHOWN: usize = 400;

/// The name under which what a call wrote is judged.
const WRITTEN: &str = "written";

/// Plays all tables.
pub(crate) fn play_tables<R: Files + Print + Alloc + Threads + Wait + Sync>(
    rt: &R,
    alloc: Global,
) -> io::Result<()> {
    for file in TABLES {
        play_table(rt, alloc, file)?;
    }
    Ok(())
}

/// Plays the table in that file, and prints how many of its cases came out as expected, and each other line.
fn play_table<R: Files + Print + Alloc + Threads + Wait + Sync>(
    rt: &R,
    alloc: Global,
    file: &str,
) -> io::Result<()> {
    let table = fs::read_to_string(rt, file)?;
    let mut shelf = Shelf::new(alloc);
    let mut expected: u64 = 0;
    for line in table.lines() {
        match play_line(rt, alloc, &mut shelf, line) {
            Ok(Outcome::Silent) => {}
            Ok(Outcome::Expected) => expected = expected.saturating_add(1),
            Ok(Outcome::Otherwise(turn, answer)) => tell(rt, alloc, line, turn, &answer)?,
            Err(Misread::Form) => println!(rt; "{line}\n    can't be read")?,
            Err(Misread::Memory) => return Err(AllocError.into()),
        }
    }
    println!(rt; "{file}: {expected} cases as expected")
}

/// Prints a case and an answer that wasn't expected.
fn tell<R: Print>(
    rt: &R,
    alloc: Global,
    line: &str,
    turn: usize,
    answer: &Answer,
) -> io::Result<()> {
    let bytes = answer.bytes.as_slice();
    let text = String::from_utf8_lossy(alloc, bytes.get(..SHOWN).unwrap_or(bytes))?;
    let shown = text.replace(alloc, '\n', "|")?;
    println!(rt;
        "{line}\n    in turn {turn} came {} is {shown}",
        answer.status
    )
}

/// Plays a line.
fn play_line<R: Threads + Wait + Sync>(
    rt: &R,
    alloc: Global,
    shelf: &mut Shelf,
    line: &str,
) -> Result<Outcome, Misread> {
    if line.starts_with("# ") {
        return Ok(Outcome::Silent);
    }
    if line == "no files" {
        shelf.clear();
        return Ok(Outcome::Silent);
    }
    if let Some(file) = line.strip_prefix("file ") {
        let (name, spelling) = file.split_once(' ').unwrap_or((file, ""));
        let text = spelled(alloc, shelf, spelling)?;
        shelf.put(name, text)?;
        return Ok(Outcome::Silent);
    }
    let case = Case::read(alloc, shelf, line)?;
    play_case(rt, alloc, shelf, &case)
}

/// Plays a case, up to the first turn that isn't as expected.
fn play_case<R: Threads + Wait + Sync>(
    rt: &R,
    alloc: Global,
    shelf: &mut Shelf,
    case: &Case,
) -> Result<Outcome, Misread> {
    let mut last = None;
    for turn in turns(shelf, case)? {
        let answer = play_turn(rt, alloc, shelf, case, turn)?;
        if !case.expected.accepts(&answer) || !is_whole(rt, alloc, shelf, case, &answer)? {
            return Ok(Outcome::Otherwise(turn, answer));
        }
        last = Some(answer);
    }
    let answer = last.ok_or(Misread::Form)?;
    if let Some(name) = case.options.into {
        shelf.put(name, answer.bytes)?;
    }
    Ok(Outcome::Expected)
}

/// Whether `replay` under the same policy and trace finds what was written whole, and of as many entries as the case
/// says, if it says so.
fn is_whole<R: Threads + Wait + Sync>(
    rt: &R,
    alloc: Global,
    shelf: &Shelf,
    case: &Case,
    answer: &Answer,
) -> Result<bool, Misread> {
    let (Some(entries), [_command, policy, trace, ..]) = (case.options.whole, case.words.as_slice())
    else {
        return Ok(case.options.whole.is_none());
    };
    let mut words = Vec::new(alloc);
    for word in ["replay", policy.as_str(), trace.as_str(), WRITTEN] {
        words.push(String::from_str(alloc, word)?)?;
    }
    let files = shelf.files(Some((WRITTEN, answer.bytes.as_slice())), Vec::new(alloc))?;
    let judged = call(
        rt,
        alloc,
        &words,
        files,
        sink(alloc, None, Vec::new(alloc))?,
    )?;
    let whole = format!(in alloc; "whole {entries}\n")?;
    Ok(judged.status == 0 && judged.bytes.as_slice() == whole.as_bytes())
}

/// The turns of a case. Where a file is cut, a turn is the length of a beginning of it.
fn turns(shelf: &Shelf, case: &Case) -> Result<Range<usize>, Misread> {
    let Some(Cut { name, line }) = case.options.cut else {
        return Ok(0..case.options.times as usize);
    };
    let text = shelf.text(name).ok_or(Misread::Form)?;
    match line {
        Some(line) => Ok(ends_within(text, line)),
        None => Ok(ends_anywhere(text)),
    }
}

/// The answer in a turn.
fn play_turn<R: Threads + Wait + Sync>(
    rt: &R,
    alloc: Global,
    shelf: &Shelf,
    case: &Case,
    turn: usize,
) -> Result<Answer, Misread> {
    let options = &case.options;
    let front = match options.cut {
        Some(cut) => {
            let text = shelf.text(cut.name).ok_or(Misread::Form)?;
            Some((cut.name, text.get(..turn).ok_or(Misread::Form)?))
        }
        None => None,
    };
    let files = shelf.files(front, options.loads.to_vec(alloc)?)?;
    let sink = sink(alloc, options.bite, options.puts.to_vec(alloc)?)?;
    Ok(call(rt, alloc, &case.words, files, sink)?)
}
