//! The tables, and what is asked of their texts.

use crate::histories::written_again;
use crate::made::{made_lines, made_plan};
use crate::numbers::spelled_numbers;
use crate::planning::planned;
use crate::printing::printed_again;
use crate::traces::trace_answer;
use case_tables::{Answers, play_table};
use std::alloc::{AllocError, Global};
use std::io;
use std::rt::Files;

/// What is asked of the texts of a table.
#[derive(Clone, Copy)]
enum Question {
    /// Of a trace: how many lines are read, or its first fault.
    Trace,
    /// Of a word: which number it spells.
    Number,
    /// Of a policy and a trace: the plan.
    Plan,
    /// Of a seed and a size: how many lines the made trace has.
    Lines,
    /// Of a seed and a size: the plan of the made trace.
    Made,
    /// Of a trace: what is printed of it.
    Printed,
    /// Of a history of so many cores: how many entries are read, or its first bad line.
    History(u32),
}

impl Answers for Question {
    fn answer(&self, alloc: Global, text: &[u8]) -> Result<String, AllocError> {
        match self {
            Question::Trace => trace_answer(alloc, text),
            Question::Number => spelled_numbers(alloc, text),
            Question::Plan => planned(alloc, text),
            Question::Lines => made_lines(alloc, text),
            Question::Made => made_plan(alloc, text),
            Question::Printed => printed_again(alloc, text),
            Question::History(cores) => written_again(alloc, text, *cores),
        }
    }
}

/// The tables, in the order in which they are played.
const TABLES: [(&str, Question); 10] = [
    ("forms.cases", Question::Trace),
    ("limits.cases", Question::Trace),
    ("numbers.cases", Question::Number),
    ("plans.cases", Question::Plan),
    ("sizes.cases", Question::Lines),
    ("made.cases", Question::Made),
    ("printed.cases", Question::Printed),
    ("first_histories.cases", Question::History(2)),
    ("second_histories.cases", Question::History(2)),
    ("many_cores.cases", Question::History(64)),
];

/// Plays all tables.
pub(crate) fn play_tables<R: Files + Print + Alloc>(rt: &R, alloc: Global) -> io::Result<()> {
    for (file, question) in TABLES {
        play_table(rt, alloc, file, &question)?;
    }
    Ok(())
}
