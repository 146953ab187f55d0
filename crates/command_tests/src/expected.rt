//! What a case expects: a status, and a relation to the bytes that were written.

use crate::calls::Answer;
use crate::misread::{Misread, number};
use crate::shelf::Shelf;
use crate::spelling::spelled;
use std::alloc::Global;

/// What is asked of the bytes that a call wrote.
#[derive(Drop)]
enum Relation {
    /// Nothing.
    Any,
    /// That they are this text.
    Is(Vec<u8>),
    /// That they begin with it.
    Begins(Vec<u8>),
    /// That they end with it.
    Ends(Vec<u8>),
    /// That it stands in them.
    Has(Vec<u8>),
    /// That they are so many lines, each ended by a line feed.
    Lines(u64),
}

/// The answer that a case expects.
#[derive(Drop)]
pub(crate) struct Expected {
    status: u8,
    relation: Relation,
}

impl Expected {
    /// `STATUS`, or `STATUS RELATION TEXT`.
    pub(crate) fn read(alloc: Global, shelf: &Shelf, text: &str) -> Result<Expected, Misread> {
        let (status, relation) = match text.split_once(' ') {
            Some((status, behind)) => (status, read_relation(alloc, shelf, behind)?),
            None => (text, Relation::Any),
        };
        let status = status.parse().map_err(|_error| Misread::Form)?;
        Ok(Expected { status, relation })
    }

    /// Whether the answer is as expected.
    pub(crate) fn accepts(&self, answer: &Answer) -> bool {
        self.status == answer.status && self.relation.holds(answer.bytes.as_slice())
    }
}

/// `RELATION TEXT`, where an empty text may lack its blank.
fn read_relation(alloc: Global, shelf: &Shelf, text: &str) -> Result<Relation, Misread> {
    let (word, spelling) = text.split_once(' ').unwrap_or((text, ""));
    match word {
        "is" => Ok(Relation::Is(spelled(alloc, shelf, spelling)?)),
        "begins" => Ok(Relation::Begins(spelled(alloc, shelf, spelling)?)),
        "ends" => Ok(Relation::Ends(spelled(alloc, shelf, spelling)?)),
        "has" => Ok(Relation::Has(spelled(alloc, shelf, spelling)?)),
        "lines" => Ok(Relation::Lines(number(spelling)?)),
        _ => Err(Misread::Form),
    }
}

impl Relation {
    /// Whether these bytes have the relation.
    fn holds(&self, bytes: &[u8]) -> bool {
        match self {
            Relation::Any => true,
            Relation::Is(text) => bytes == text.as_slice(),
            Relation::Begins(text) => bytes.starts_with(text.as_slice()),
            Relation::Ends(text) => bytes.ends_with(text.as_slice()),
            Relation::Has(text) => has(bytes, text.as_slice()),
            Relation::Lines(count) => line_count(bytes) == Some(*count),
        }
    }
}

/// Whether the part stands in the text.
fn has(text: &[u8], part: &[u8]) -> bool {
    match (str::from_utf8(text), str::from_utf8(part)) {
        (Ok(text), Ok(part)) => text.contains(part),
        _ => false,
    }
}

/// How many lines the text has, where each is ended by a line feed.
fn line_count(text: &[u8]) -> Option<u64> {
    let count = text.iter().filter(|byte| **byte == b'\n').count();
    let ended = text.is_empty() || text.ends_with(b"\n");
    ended.then_some(count as u64)
}
