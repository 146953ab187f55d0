//! The tables, and what is asked of their texts.

use crate::answers::syntax_answer;
use crate::leveling::level_answer;
use crate::printing::printed_answer;
use crate::resolving::policy_answer;
use case_tables::{Answers, play_table};
use std::alloc::{AllocError, Global};
use std::io;
use std::rt::Files;

/// What is asked of the texts of a table.
#[derive(Clone, Copy)]
enum Question {
    /// Whether the text has a syntax, or its first fault of tokens or grammar.
    Syntax,
    /// What is printed of its syntax.
    Printed,
    /// The policy that it is, or the first rule of names, ranges and phases that it breaks.
    Policy,
    /// The policy by levels that it is, or its first fault.
    Levels,
}

impl Answers for Question {
    fn answer(&self, alloc: Global, text: &[u8]) -> Result<String, AllocError> {
        match self {
            Question::Syntax => syntax_answer(alloc, text),
            Question::Printed => printed_answer(alloc, text),
            Question::Policy => policy_answer(alloc, text),
            Question::Levels => level_answer(alloc, text),
        }
    }
}

/// The tables, in the order in which they are played.
const TABLES: [(&str, Question); 4] = [
    ("syntax.cases", Question::Syntax),
    ("printed.cases", Question::Printed),
    ("policies.cases", Question::Policy),
    ("levels.cases", Question::Levels),
];

/// Plays all tables.
pub(crate) fn play_tables<R: Files + Print + Alloc>(rt: &R, alloc: Global) -> io::Result<()> {
    for (file, question) in TABLES {
        play_table(rt, alloc, file, &question)?;
    }
    Ok(())
}
