//! Why a run didn't come to its end.

use core_state::Closed;

/// Why no whole history was made.
#[derive(Drop)]
pub enum RunFault {
    /// The next round might not fit the plan's limit. The cores are as the complete rounds before it left them.
    HistoryFull(Closed),
}
