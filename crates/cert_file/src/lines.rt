//! The lines of a file that stand between its certificates.

ghost use Rattle.std.specs.Prelude.{◌≡◌, ◌≢◌, ℕ, ◌+◌, ◌<◌, ◌^◌, List, [], ◌∷◌, ◌++◌, IfErr, IfOk, MatchOption};
ghost use Rattle.std.specs.Prelude.{length, suc};
ghost use Rattle.obligations.specs.declared.names.ObName.{ObName};
ghost use Rattle.cert_file.specs.BadLines.{parts};
ghost use Rattle.cert_file.specs.Reading.{FailsFrom, HasNoLine, IsNextLine};
ghost use Rattle.cert_file.specs.Text.{obligation_line, system_line};

use cert_lines::{CertFault, narrow_in, unsigned_in};
use obligations::ObName;
use text_forms::cut;

/// What is left of a text, and the number of its first line.
#[derive(Drop)]
pub(crate) struct Rest<'a> {
    pub(crate) bytes: &'a [u8],
    pub(crate) number: u32,
}

/// The next line without its line feed, none where no line feed is left. Then the rest stays as it was.
pub(crate) fn next_line<'a>(rest: &mut Rest<'a>) -> Option<&'a [u8]>
    requires { rest.old.number + length rest.old.bytes.now < u32.MAX }
    ensures { MatchOption result
        (HasNoLine rest.old.bytes.now)
        (λ line. IsNextLine line.now rest.old.number rest.old.bytes.now rest.new.number rest.new.bytes.now) }
{
    match cut(rest.bytes, b'\n') {
        Some((line, behind)) => {
            rest.bytes = behind;
            rest.number += 1;
            Some(line)
        }
        None => None,
    }
}

/// How many systems the obligation's line announces, which comes next.
pub(crate) fn next_count(rest: &mut Rest<'_>, name: ObName) -> Result<u32, CertFault>
    requires { rest.old.number + length rest.old.bytes.now < u32.MAX }
    ensures line { IfOk result (λ systems. IsNextLine (obligation_line name systems)
        rest.old.number rest.old.bytes.now rest.new.number rest.new.bytes.now) }
    ensures fault { (names : List ObName) →
        IfErr result (FailsFrom (parts [] 0 0 (name ∷ names)) rest.old.number rest.old.bytes.now) }
{
    let number = rest.number;
    let line = match next_line(rest) {
        Some(line) => line,
        None => return Err(CertFault::BadText(number)),
    };
    match count_in(line, name) {
        Some(systems) => Ok(systems),
        None => Err(CertFault::BadText(number)),
    }
}

/// How many lines the system's line announces, which comes next.
pub(crate) fn next_length(rest: &mut Rest<'_>) -> Result<u64, CertFault>
    requires { rest.old.number + length rest.old.bytes.now < u32.MAX }
    ensures line { IfOk result (λ lines. IsNextLine (system_line lines)
        rest.old.number rest.old.bytes.now rest.new.number rest.new.bytes.now) }
    ensures some { IfOk result (λ lines. 0 < lines) }
    ensures fault { (systems : ℕ) (names : List ObName) →
        IfErr result (FailsFrom (parts [] 0 (suc systems) names) rest.old.number rest.old.bytes.now) }
{
    let number = rest.number;
    let line = match next_line(rest) {
        Some(line) => line,
        None => return Err(CertFault::BadText(number)),
    };
    match length_in(line) {
        Some(lines) => Ok(lines),
        None => Err(CertFault::BadText(number)),
    }
}

/// The number of systems in the line of that obligation.
fn count_in(line: &[u8], name: ObName) -> Option<u32>
    ensures { MatchOption result
        ((systems : ℕ) → systems < 2 ^ 32 → line.now ≢ obligation_line name systems)
        (λ systems. line.now ≡ obligation_line name systems) }
{
    let word = behind(line, b"obligation ".as_slice())?;
    let space = behind(word, name.text().as_bytes())?;
    let digits = behind(space, b" ".as_slice())?;
    narrow_in(digits)
}

/// The number of lines in the line of a system.
fn length_in(line: &[u8]) -> Option<u64>
    ensures { MatchOption result
        ((lines : ℕ) → 0 < lines → lines < 2 ^ 64 → line.now ≢ system_line lines)
        (λ lines. (0 < lines) × (line.now ≡ system_line lines)) }
{
    let digits = behind(line, b"system ".as_slice())?;
    let lines = unsigned_in(digits)?;
    if lines == 0 { None } else { Some(lines) }
}

/// What stands behind the word, where the text begins with it.
pub(crate) fn behind<'a>(text: &'a [u8], word: &[u8]) -> Option<&'a [u8]>
    ensures { MatchOption result
        ((rest : List ℕ) → text.now ≢ word.now ++ rest)
        (λ rest. text.now ≡ word.now ++ rest.now) }
{
    text.strip_prefix(word)
}
