//! The texts that a table has named so far.

use std::alloc::{AllocError, Global};

/// Texts by their names. Of two with one name the later one is found.
#[derive(Drop)]
pub(crate) struct Texts {
    alloc: Global,
    texts: Vec<(String, Vec<u8>)>,
}

impl Texts {
    /// No texts.
    pub(crate) fn new(alloc: Global) -> Texts {
        Texts {
            alloc,
            texts: Vec::new(alloc),
        }
    }

    /// Adds a text under that name.
    pub(crate) fn add(&mut self, name: &str, text: Vec<u8>) -> Result<(), AllocError> {
        let name = String::from_str(self.alloc, name)?;
        Ok(self.texts.push((name, text))?)
    }

    /// The text of that name.
    pub(crate) fn find(&self, name: &str) -> Option<&[u8]> {
        let named = self
            .texts
            .iter()
            .rev()
            .find(|named| named.0.as_str() == name)?;
        Some(named.1.as_slice())
    }
}
