//! A fault of a trace's text, or of a trace that doesn't fit its policy.

ghost use Rattle.std.specs.Prelude.{◌≡◌};
ghost use Rattle.trace_play.specs.Told.{fault_line, told_of_plan, told_of_trace, word_of};

use job_trace::{PlanFault, TraceFault};
use sched_io::Line;

/// The kinds of faults of a trace.
#[derive(Clone, Copy)]
pub enum FaultWord {
    /// The line has none of the forms.
    BadLine,
    /// A number of the line is out of its range.
    Limit,
    /// A line before gives the same thing.
    Twice,
    /// The policy's load doesn't allow the weight.
    WeightRange,
    /// A constant is out of the range that the policy declares.
    ConstRange,
    /// The policy declares no such attribute of cores.
    ConstName,
}

/// A fault, with the number of its line. Lines are counted from 1.
#[derive(Clone, Copy)]
pub struct LineFault {
    /// What the fault is.
    pub word: FaultWord,
    /// The number of the line.
    pub line: u32,
}

impl FaultWord {
    /// The word that is printed of it.
    pub fn text(&self) -> &'static str
        ensures { result.now ≡ word_of self.now }
    {
        match self {
            FaultWord::BadLine => "bad-line",
            FaultWord::Limit => "limit",
            FaultWord::Twice => "twice",
            FaultWord::WeightRange => "weight-range",
            FaultWord::ConstRange => "const-range",
            FaultWord::ConstName => "const-name",
        }
    }
}

impl LineFault {
    /// What is written of it: its line and its word.
    pub fn to_line(&self) -> Line
        ensures { result ≡ fault_line self.now }
    {
        let mut line = Line::new();
        line.add(b"trace ");
        line.add_number(u64::from(self.line));
        line.add(b" ");
        line.add(self.word.text().as_bytes());
        line.add(b"\n");
        line
    }
}

/// What is told of a fault of a trace's text, `None` for want of memory.
pub(crate) fn of_trace(fault: TraceFault) -> Option<LineFault>
    ensures { result ≡ told_of_trace fault }
{
    let (word, line) = match fault {
        TraceFault::BadLine(line) => (FaultWord::BadLine, line),
        TraceFault::Limit(line, _) => (FaultWord::Limit, line),
        TraceFault::Twice(line) => (FaultWord::Twice, line),
        TraceFault::Memory => return None,
    };
    Some(LineFault { word, line })
}

/// What is told of a trace that doesn't fit its policy, `None` for want of memory.
pub(crate) fn of_plan(fault: PlanFault) -> Option<LineFault>
    ensures { result ≡ told_of_plan fault }
{
    let (word, line) = match fault {
        PlanFault::WeightRange(line) => (FaultWord::WeightRange, line),
        PlanFault::ConstRange(line) => (FaultWord::ConstRange, line),
        PlanFault::ConstName(line) => (FaultWord::ConstName, line),
        PlanFault::Memory => return None,
    };
    Some(LineFault { word, line })
}
