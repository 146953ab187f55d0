//! Writes a text that was made whole, line by line.

ghost use Rattle.std.specs.Prelude.{◌≢◌, []};
ghost use Rattle.sched_io.specs.Puts.{Puts};
ghost use Rattle.policy_answers.specs.TextLines.{IsLineLen, lines_in};

use sched_io::{PutFault, Sink, put_all};
use text_forms::cut;

/// Writes the text, a line at a time, each with its line feed.
pub fn put_text<S: Sink>(out: &mut S, text: &[u8]) -> Result<(), PutFault>
    ensures { Puts (lines_in text.now) result (S.shown out.old) (S.shown out.new) }
{
    let mut left = text;
    while !left.is_empty() {
        let (line, behind) = left.split_at(line_len(left));
        put_all(out, line)?;
        left = behind;
    }
    Ok(())
}

/// How many bytes the first line has, with its line feed if it has one.
fn line_len(text: &[u8]) -> usize
    requires { text.now ≢ [] }
    ensures { IsLineLen text.now result }
{
    match cut(text, b'\n') {
        Some((line, _behind)) => line.len() + 1,
        None => text.len(),
    }
}
