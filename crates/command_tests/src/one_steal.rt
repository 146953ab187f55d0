//! Two cores and one steal, as files for the checks in code.

use sched_io::MemoryFiles;
use std::alloc::{AllocError, Global};

const POLICY: &str =
    "policy basic\nload count\nfilter victim.nr - self.nr >= 2\nchoose first\nsteal first\n";

/// Its trace, of one round.
pub(crate) const TRACE: &str =
    "cores 2\nrounds 1\nthread 1 core 0 round 1 forever\nthread 2 core 0 round 1 forever\n";

/// The same in two rounds.
pub(crate) const TWO_ROUNDS: &str =
    "cores 2\nrounds 2\nthread 1 core 0 round 1 forever\nthread 2 core 0 round 1 forever\n";

/// The history that `play` writes.
pub(crate) const HISTORY: &str =
    "history 2 cores 2\nround 1\nenter 1 0 0\nenter 2 0 0\nwork 0 1 keep\npass 0 : 3 0\nwork 1 -\n\
    steal 1 0 2 : 4 5\n";

/// The policy as the file `p`, and this trace as `t`.
pub(crate) fn files(alloc: Global, trace: &str) -> Result<MemoryFiles, AllocError> {
    let mut files = Vec::new(alloc);
    for (name, text) in [("p", POLICY), ("t", trace)] {
        let bytes = Vec::from_slice(alloc, text.as_bytes())?;
        files.push((String::from_str(alloc, name)?, bytes))?;
    }
    Ok(MemoryFiles::new(alloc, files, Vec::new(alloc)))
}

/// The words of a call, as the program gets them.
pub(crate) fn words(alloc: Global, list: &[&str]) -> Result<Vec<String>, AllocError> {
    let mut words = Vec::new(alloc);
    for word in list {
        words.push(String::from_str(alloc, word)?)?;
    }
    Ok(words)
}
