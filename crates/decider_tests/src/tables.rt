//! The tables, and what is asked of their texts.

use crate::certificates::{check_answer, text_answer};
use crate::counts::{case_counts, system_kinds};
use crate::deciding::{decision, difference_answer};
use crate::names::known_name;
use crate::points::{point_answer, row_count};
use crate::verdicts::{points_left, verdict};
use crate::written_systems::systems_of;
use case_tables::{Answers, play_table};
use std::alloc::{AllocError, Global};
use std::io;
use std::rt::Files;

/// What is asked of the texts of a table.
#[derive(Clone, Copy)]
enum Question {
    /// Of a system: how many rows it has.
    Rows,
    /// Of a point and a system: whether it is a solution.
    Point,
    /// Of a certificate and a system: whether it is right.
    Certificate,
    /// Of a certificate's text: whether it is read, or its bad line.
    Text,
    /// Of a system of differences: whether it has a solution.
    Differences,
    /// Of a budget and a system: whether it has a solution, or is left undecided.
    Decision,
    /// Of an obligation and a policy: the systems.
    Systems,
    /// Of an obligation and a policy: the kinds of the systems, and how many points they have.
    Kinds,
    /// Of a policy: how many systems its first two obligations have, or which one has too many cases.
    Counts,
    /// Of a budget and a policy: the verdict.
    Verdict,
    /// Of a budget and a policy: how many points its third obligation is left undecided with.
    PointsLeft,
    /// Of a word: whether it is the name of an obligation.
    Name,
}

impl Answers for Question {
    fn answer(&self, alloc: Global, text: &[u8]) -> Result<String, AllocError> {
        let Ok(text) = str::from_utf8(text) else {
            return String::from_str(alloc, "no text");
        };
        match self {
            Question::Rows => row_count(alloc, text),
            Question::Point => point_answer(alloc, text),
            Question::Certificate => check_answer(alloc, text),
            Question::Text => text_answer(alloc, text),
            Question::Differences => difference_answer(alloc, text),
            Question::Decision => decision(alloc, text),
            Question::Systems => systems_of(alloc, text),
            Question::Kinds => system_kinds(alloc, text),
            Question::Counts => case_counts(alloc, text),
            Question::Verdict => verdict(alloc, text),
            Question::PointsLeft => points_left(alloc, text),
            Question::Name => known_name(alloc, text),
        }
    }
}

/// The tables, in the order in which they are played.
const TABLES: [(&str, Question); 12] = [
    ("rows.cases", Question::Rows),
    ("points.cases", Question::Point),
    ("certificates.cases", Question::Certificate),
    ("texts.cases", Question::Text),
    ("differences.cases", Question::Differences),
    ("decisions.cases", Question::Decision),
    ("systems.cases", Question::Systems),
    ("kinds.cases", Question::Kinds),
    ("counts.cases", Question::Counts),
    ("verdicts.cases", Question::Verdict),
    ("left.cases", Question::PointsLeft),
    ("names.cases", Question::Name),
];

/// Plays all tables.
pub(crate) fn play_tables<R: Files + Print + Alloc>(rt: &R, alloc: Global) -> io::Result<()> {
    for (file, question) in TABLES {
        play_table(rt, alloc, file, &question)?;
    }
    Ok(())
}
