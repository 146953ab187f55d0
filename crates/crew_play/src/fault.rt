//! Why a run by a crew didn't come to its end.

use core_state::Closed;
use core_table::{Seat, Table};

/// Why no whole history was made.
#[derive(Drop)]
pub enum CrewFault {
    /// The next round might not fit the plan's limit. The cores are as the complete rounds before it left them.
    HistoryFull(Closed),
    /// There was no memory for the workers' lists. Nothing was played: table and seat are as they were.
    Memory(Table, Seat),
}
