//! Load words, packed and unpacked: the table `words.cases`. A line with ` => ` is a case, and every other one a
//! heading.

use load_words::{LoadWord, pack, unpack};
use sched_base::{MAX_ENTRIES, MAX_LOAD, MAX_THREADS};
use std::rt::Files;
use std::{fs, io};

/// The number that the word is.
fn number(word: Option<&str>) -> Option<u64> {
    word?.parse().ok()
}

/// What the words say of a core, if they are within the limits.
fn load_word(words: &str) -> Option<LoadWord> {
    let mut words = words.split(' ');
    let said = LoadWord {
        version: u32::try_from(number(words.next())?).ok()?,
        nr: u32::try_from(number(words.next())?).ok()?,
        load: number(words.next())?,
    };
    Some(said)
}

/// Whether the three are packed into that word, and unpacked from it.
fn is_packed(said: LoadWord, word: u64) -> bool {
    let LoadWord { version, nr, load } = said;
    if version > MAX_ENTRIES || nr > MAX_THREADS || load > u64::from(MAX_LOAD) {
        return false;
    }
    pack(version, nr, load) == word && unpack(word) == said
}

/// Whether the case is as expected.
fn is_right(words: &str, word: &str) -> Option<bool> {
    let said = load_word(words)?;
    Some(is_packed(said, number(Some(word))?))
}

/// Plays the table, and prints how many of its cases are as expected, and every other one.
pub(crate) fn at_their_edges<R: Files + Print + Alloc>(rt: &R) -> io::Result<()> {
    let table = fs::read_to_string(rt, "words.cases")?;
    play(rt, table.as_str())
}

/// The same of that text.
fn play<R: Print>(rt: &R, table: &str) -> io::Result<()> {
    let mut right: u64 = 0;
    for line in table.lines() {
        if let Some((words, word)) = line.split_once(" => ") {
            if is_right(words, word) == Some(true) {
                right = right.saturating_add(1);
            } else {
                println!(rt; "{line}: otherwise")?;
            }
        }
    }
    println!(rt; "words at their edges: {right} cases as expected")
}
