//! What is printed of a check that is no table.

use std::io;

/// Prints whether a check came out as expected.
pub fn told<R: Print>(rt: &R, name: &str, holds: bool) -> io::Result<()> {
    println!(rt;
        "{name}: {}",
        if holds { "as expected" } else { "otherwise" }
    )
}
