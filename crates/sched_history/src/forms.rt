//! How the lines of a history are spelled. There are two formats: the second is written, and both are read.

ghost use Rattle.std.specs.Prelude.{◌≡◌, cond};
ghost use Rattle.round_model.specs.Kinds.{is_round};
ghost use Rattle.sched_history.specs.Lines.{form_behind};

use round_model::Entry;
use sched_base::Pos;

/// In the first format cores are numbered below this, and an entry has at most as many reads.
pub const FIRST_FORMAT_CORES: usize = 32;

/// How a line of a history is spelled.
#[derive(Clone, Copy)]
pub enum LineForm {
    /// As in the first format: the reads are positions.
    First,
    /// As in the second format, of a machine of so many cores: there is a read of each core, or none.
    Second {
        cores: u32,
        /// Where the round of the line starts: the number of entries up to and including the last Round before it, and
        /// 0 where there is none. The reads are distances from here.
        start: Pos,
    },
}

impl LineForm {
    /// How the line behind that entry is spelled, `count` being the number of entries up to and including it.
    pub fn behind(self, entry: &Entry, count: Pos) -> LineForm
        ensures { result ≡ form_behind count entry.now self }
    {
        match self {
            LineForm::First => LineForm::First,
            LineForm::Second { cores, start } => LineForm::Second {
                cores,
                start: start_behind(start, entry, count),
            },
        }
    }
}

/// Where the round starts in which the line behind that entry stands, `count` being the number of entries up to and
/// including it, and `start` where the entry's own round starts.
pub fn start_behind(start: Pos, entry: &Entry, count: Pos) -> Pos
    ensures { result ≡ cond (is_round entry.now) count start }
{
    if entry.is_round() { count } else { start }
}
