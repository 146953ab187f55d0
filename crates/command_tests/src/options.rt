//! What a case says of its call behind the words.

use crate::misread::{Misread, number};
use std::alloc::Global;

/// How a file of a case is cut.
#[derive(Clone, Copy)]
pub(crate) struct Cut<'a> {
    /// The file's name.
    pub(crate) name: &'a str,
    /// The line in which it is cut, from 1. Else it is cut everywhere.
    pub(crate) line: Option<u64>,
}

/// The options of a case.
#[derive(Drop)]
pub(crate) struct Options<'a> {
    /// The numbers of the loads that fail.
    pub(crate) loads: Vec<u64>,
    /// The numbers of the puts that fail.
    pub(crate) puts: Vec<u64>,
    /// How many bytes a put takes at most.
    pub(crate) bite: Option<u64>,
    /// How often the call is made.
    pub(crate) times: u64,
    /// Of how many entries `replay` is to find what is written whole.
    pub(crate) whole: Option<u64>,
    /// The file that what is written becomes.
    pub(crate) into: Option<&'a str>,
    /// The file of which each call finds another beginning.
    pub(crate) cut: Option<Cut<'a>>,
}

impl<'a> Options<'a> {
    /// One call, of which nothing fails.
    pub(crate) fn none(alloc: Global) -> Options<'a> {
        Options {
            loads: Vec::new(alloc),
            puts: Vec::new(alloc),
            bite: None,
            times: 1,
            whole: None,
            into: None,
            cut: None,
        }
    }

    /// Options with `, ` between them.
    pub(crate) fn read(alloc: Global, text: &'a str) -> Result<Options<'a>, Misread> {
        let mut options = Options::none(alloc);
        for option in text.split(", ") {
            let (word, value) = option.split_once(' ').ok_or(Misread::Form)?;
            options.set(word, value)?;
        }
        Ok(options)
    }

    /// Sets one option.
    fn set(&mut self, word: &str, value: &'a str) -> Result<(), Misread> {
        match word {
            "load" => self.loads.push(number(value)?)?,
            "put" => self.puts.push(number(value)?)?,
            "bite" => self.bite = Some(number(value)?),
            "times" => self.times = number(value)?,
            "whole" => self.whole = Some(number(value)?),
            "into" => self.into = Some(value),
            "cut" => self.cut = Some(read_cut(value)?),
            _ => return Err(Misread::Form),
        }
        Ok(())
    }
}

/// `NAME`, or `NAME LINE`.
fn read_cut(text: &str) -> Result<Cut<'_>, Misread> {
    match text.split_once(' ') {
        Some((name, line)) => Ok(Cut {
            name,
            line: Some(number(line)?),
        }),
        None => Ok(Cut {
            name: text,
            line: None,
        }),
    }
}
