//! Tables, and how they are played. A table has parts with an empty line between them. The first line of a part is `# `
//! and its name. Each other one is one of these:
//!
//! - `TEXT => ANSWER`: a case;
//! - `text NAME TEXT`: a text that the lines below can name.
//!
//! `spelling` says how texts and answers are spelled.

use crate::misread::Misread;
use crate::spelling::spelled;
use crate::texts::Texts;
use std::alloc::{AllocError, Global};
use std::rt::Files;
use std::{fs, io};

/// What is asked of the texts of a table.
pub trait Answers {
    /// The answer to a text.
    fn answer(&self, alloc: Global, text: &[u8]) -> Result<String, AllocError>;
}

/// What a line came to.
#[derive(Drop)]
enum Outcome {
    /// It is no case.
    Silent,
    /// The answer was as expected.
    Expected,
    /// It was this one.
    Otherwise(String),
}

/// Plays the table in that file, and prints of each part how many of its cases came out as expected, and each line that
/// didn't.
pub fn play_table<R: Files + Print + Alloc, T: Answers>(
    rt: &R,
    alloc: Global,
    file: &str,
    table: &T,
) -> io::Result<()> {
    let table_text = fs::read_to_string(rt, file)?;
    let mut texts = Texts::new(alloc);
    for part in table_text.as_str().split("\n\n") {
        play_part(rt, alloc, &mut texts, table, part)?;
    }
    Ok(())
}

/// Plays a part.
fn play_part<R: Print, T: Answers>(
    rt: &R,
    alloc: Global,
    texts: &mut Texts,
    table: &T,
    part: &str,
) -> io::Result<()> {
    let (heading, lines) = part.split_once('\n').unwrap_or((part, ""));
    let mut expected: u64 = 0;
    for line in lines.lines() {
        match play_line(alloc, texts, table, line) {
            Ok(Outcome::Silent) => {}
            Ok(Outcome::Expected) => expected = expected.saturating_add(1),
            Ok(Outcome::Otherwise(answer)) => println!(rt; "{line}\n    came {answer}")?,
            Err(Misread::Form) => println!(rt; "{line}\n    can't be read")?,
            Err(Misread::Memory) => return Err(AllocError.into()),
        }
    }
    println!(rt;
        "{}: {expected} as expected",
        heading.strip_prefix("# ").unwrap_or(heading)
    )
}

/// Plays a line.
fn play_line<T: Answers>(
    alloc: Global,
    texts: &mut Texts,
    table: &T,
    line: &str,
) -> Result<Outcome, Misread> {
    if let Some((text, answer)) = line.split_once(" => ") {
        return play_case(alloc, texts, table, text, answer);
    }
    let named = line.strip_prefix("text ").ok_or(Misread::Form)?;
    let (name, spelling) = named.split_once(' ').ok_or(Misread::Form)?;
    let text = spelled(alloc, texts, spelling)?;
    texts.add(name, text)?;
    Ok(Outcome::Silent)
}

/// Plays a case.
fn play_case<T: Answers>(
    alloc: Global,
    texts: &Texts,
    table: &T,
    text: &str,
    expected: &str,
) -> Result<Outcome, Misread> {
    let text = spelled(alloc, texts, text)?;
    let expected = spelled(alloc, texts, expected)?;
    let answer = table.answer(alloc, text.as_slice())?;
    if answer.as_bytes() == expected.as_slice() {
        Ok(Outcome::Expected)
    } else {
        Ok(Outcome::Otherwise(answer))
    }
}
