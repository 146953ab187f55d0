//! The files that the calls of a table find.

use sched_io::MemoryFiles;
use std::alloc::{AllocError, Global};

/// A file: its name, and its bytes.
type File = (String, Vec<u8>);

/// The files that the next calls find, each with a name of its own.
#[derive(Drop)]
pub(crate) struct Shelf {
    alloc: Global,
    files: Vec<File>,
}

impl Shelf {
    /// No files.
    pub(crate) fn new(alloc: Global) -> Shelf {
        Shelf {
            alloc,
            files: Vec::new(alloc),
        }
    }

    /// Takes all files away.
    pub(crate) fn clear(&mut self) {
        self.files = Vec::new(self.alloc);
    }

    /// Gives the file of that name that text. A file that had the name is replaced.
    pub(crate) fn put(&mut self, name: &str, text: Vec<u8>) -> Result<(), AllocError> {
        match self.files.iter_mut().find(|file| file.0.as_str() == name) {
            Some(file) => {
                file.1 = text;
                Ok(())
            }
            None => Ok(
                self.files
                    .push((String::from_str(self.alloc, name)?, text))?,
            ),
        }
    }

    /// The text of the file of that name.
    pub(crate) fn text(&self, name: &str) -> Option<&[u8]> {
        let file = self.files.iter().find(|file| file.0.as_str() == name)?;
        Some(file.1.as_slice())
    }

    /// The files for one call, of which these loads fail. The file in front, if any, stands for the one of its name.
    pub(crate) fn files(
        &self,
        front: Option<(&str, &[u8])>,
        loads: Vec<u64>,
    ) -> Result<MemoryFiles, AllocError> {
        let mut files = Vec::new(self.alloc);
        if let Some((name, text)) = front {
            files.push(self.copy(name, text)?)?;
        }
        for (name, text) in self.files.iter() {
            files.push(self.copy(name.as_str(), text.as_slice())?)?;
        }
        Ok(MemoryFiles::new(self.alloc, files, loads))
    }

    /// A file of that name and that text.
    fn copy(&self, name: &str, text: &[u8]) -> Result<File, AllocError> {
        Ok((
            String::from_str(self.alloc, name)?,
            Vec::from_slice(self.alloc, text)?,
        ))
    }
}
