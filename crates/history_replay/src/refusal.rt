//! Why texts give no whole history.

ghost use Rattle.std.specs.Prelude.{◌≡◌};
ghost use Rattle.history_replay.specs.Lines.{refusal_line};

use history_reasons::numbered;
use sched_base::Pos;
use sched_io::Line;
use trace_play::LineFault;

/// Why texts give no whole history.
#[derive(Clone, Copy)]
pub enum HistoryRefusal {
    /// The trace's text is no trace, or its trace doesn't fit the policy: it has this fault.
    Trace(LineFault),
    /// That line of the history's text, from 1, is the first bad one.
    BadLine(u32),
    /// The entry at that position, from 0, is the first that isn't legal.
    Illegal(Pos),
    /// The history is legal, has so many entries, and stops too soon.
    Short(Pos),
}

impl HistoryRefusal {
    /// What is written of it.
    pub fn to_line(&self) -> Line
        ensures { result ≡ refusal_line self.now }
    {
        match self {
            HistoryRefusal::Trace(fault) => fault.to_line(),
            HistoryRefusal::BadLine(line) => numbered(b"history ", *line, b" bad-line\n"),
            HistoryRefusal::Illegal(position) => numbered(b"illegal ", *position, b"\n"),
            HistoryRefusal::Short(count) => numbered(b"short ", *count, b"\n"),
        }
    }
}
