//! What a line must keep behind the lines before it.

ghost use Rattle.std.specs.Prelude.{◌≡◌};
ghost use Rattle.job_trace.specs.Rules.{cores_in, cores_of, may_stand};

use crate::trace::{Numbered, TraceLine};

/// Whether the line may stand behind those.
pub(crate) fn may_stand(before: &[Numbered], line: &TraceLine) -> bool
    ensures { result ≡ may_stand before.now line.now }
{
    match before {
        [] => matches!(line, TraceLine::Cores(_)),
        [_first] => matches!(line, TraceLine::Rounds(_)),
        _ => true,
    }
}

/// The number of cores that the lines give.
pub(crate) fn cores_of(lines: &[Numbered]) -> u32
    ensures { result ≡ cores_of lines.now }
{
    match lines {
        [first, ..] => cores_in(&first.line),
        [] => 0,
    }
}

fn cores_in(line: &TraceLine) -> u32
    ensures { result ≡ cores_in line.now }
{
    match line {
        TraceLine::Cores(number) => *number,
        TraceLine::Rounds(_)
        | TraceLine::Entries(_)
        | TraceLine::Core(_)
        | TraceLine::Thread(_)
        | TraceLine::Order(_) => 0,
    }
}
