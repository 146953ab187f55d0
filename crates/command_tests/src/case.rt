//! A case of a table is a call of the program with the answer that it is to give:
//!
//! - `WORDS => STATUS RELATION TEXT`
//! - `WORDS ; OPTIONS => STATUS RELATION TEXT`
//!
//! Words have a blank between them, and `''` is the empty word. The answer is the status and what is written: that
//! `is` the text, `begins` or `ends` with it, or `has` it in it; `lines N` says how many lines it has. Where no
//! relation stands, the status alone is asked for. Options have `, ` between them:
//!
//! - `load N`, `put N`: the load or the put of that number fails, from 0;
//! - `bite N`: a put takes at most so many bytes;
//! - `times N`: the call is made so often, and each must answer so;
//! - `whole N`: `replay` under the same policy and trace finds what is written whole, and of N entries;
//! - `cut NAME`: the call is made with each beginning of that file that lacks more than its last line feed;
//! - `cut NAME LINE`: it is made with each that ends within that line, from 1;
//! - `into NAME`: what the last call wrote becomes the file of that name.
//!
//! `spelling` says how words and texts are spelled.

use crate::expected::Expected;
use crate::misread::Misread;
use crate::options::Options;
use crate::shelf::Shelf;
use crate::spelling::spelled;
use std::alloc::Global;

/// A call, with the answer that it is to give.
#[derive(Drop)]
pub(crate) struct Case<'a> {
    /// The words of the call.
    pub(crate) words: Vec<String>,
    /// What else is said of the call.
    pub(crate) options: Options<'a>,
    /// The answer that is expected.
    pub(crate) expected: Expected,
}

impl<'a> Case<'a> {
    /// The case that the line is, where these files may be named in it.
    pub(crate) fn read(alloc: Global, shelf: &Shelf, line: &'a str) -> Result<Case<'a>, Misread> {
        let (call, answer) = line.split_once(" => ").ok_or(Misread::Form)?;
        let (words, options) = match call.split_once(" ; ") {
            Some((words, options)) => (words, Options::read(alloc, options)?),
            None => (call, Options::none(alloc)),
        };
        Ok(Case {
            words: read_words(alloc, shelf, words)?,
            options,
            expected: Expected::read(alloc, shelf, answer)?,
        })
    }
}

/// Words with blanks between them.
fn read_words(alloc: Global, shelf: &Shelf, text: &str) -> Result<Vec<String>, Misread> {
    let mut words = Vec::new(alloc);
    for word in text.split(' ').filter(|word| !word.is_empty()) {
        words.push(read_word(alloc, shelf, word)?)?;
    }
    Ok(words)
}

/// A word, of which `''` spells the empty one.
fn read_word(alloc: Global, shelf: &Shelf, word: &str) -> Result<String, Misread> {
    if word == "''" {
        return Ok(String::new(alloc));
    }
    String::from_utf8(spelled(alloc, shelf, word)?).map_err(|_error| Misread::Form)
}
