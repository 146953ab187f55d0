//! The rows of a report, and its totals.

use lists::Items;
use sched_base::Pos;

/// What is told of a round as it opens.
#[derive(Clone, Copy)]
pub struct RoundRow {
    /// The number of the round, from 1.
    pub number: u32,
    /// How far the loads of the cores lie apart: the distances of each pair of cores, added up.
    pub spread: u64,
    /// How many cores are idle where some core is overloaded, and 0 elsewhere.
    pub idle: u32,
    /// Where no core may steal from another, how far the greatest load is above the least.
    pub rest: Option<u64>,
}

/// What is told of the first round of a stretch at whose opening no core may steal from another.
#[derive(Clone, Copy)]
pub struct RestRow {
    /// The number of the round.
    pub round: u32,
    /// How far the greatest load is above the least as it opens.
    pub gap: u64,
}

/// What is told of a longest stretch of still rounds.
#[derive(Clone, Copy)]
pub struct StillRow {
    /// The number of its first round.
    pub first: u32,
    /// The number of its last round.
    pub last: u32,
    /// The spread as the first round opens.
    pub spread: u64,
    /// How many of its rounds are bad.
    pub bad: u32,
    /// The first of its rounds that opens with the cores at rest, if one does.
    pub rest: Option<RestRow>,
}

/// What is told of a failed steal.
#[derive(Clone, Copy)]
pub struct FailRow {
    /// The position of the Fail.
    pub at: Pos,
    /// The position of the first entry that explains it.
    pub by: Pos,
}

/// What is told of a failed steal that may have no explanation.
#[derive(Clone, Copy)]
pub struct CauseRow {
    /// The position of the Fail.
    pub at: Pos,
    /// The position of the first entry that explains it, if any does.
    pub by: Option<Pos>,
}

/// What is told of a longest stretch of still rounds, and of its steals.
#[derive(Clone, Copy)]
pub struct StretchRow {
    /// The stretch.
    pub still: StillRow,
    /// How many threads are stolen in its rounds.
    pub steals: u32,
}

/// A row for each round, in order.
pub type RoundRows = Items<RoundRow>;
/// A row for each longest stretch of still rounds, in order.
pub type StillRows = Items<StillRow>;
/// A row for each Fail, in order.
pub type FailRows = Items<FailRow>;
/// A row for each Fail, in order, whether anything explains it or not.
pub type CauseRows = Items<CauseRow>;
/// A row for each longest stretch of still rounds with its steals, in order.
pub type StretchRows = Items<StretchRow>;

/// What a history comes to.
#[derive(Clone, Copy)]
pub struct Totals {
    /// How many rounds began.
    pub rounds: u32,
    /// How many entries there are.
    pub entries: u32,
    /// How many threads were stolen.
    pub steals: u32,
    /// How many steals failed.
    pub fails: u32,
    /// How many rounds are bad.
    pub bad: u32,
    /// How many rounds the cores wasted, core by core: the idle cores of all rounds, added up.
    pub wasted: u32,
}

/// What is told of a whole history.
#[derive(Drop)]
pub struct FullReport {
    pub rounds: RoundRows,
    pub stills: StillRows,
    pub fails: FailRows,
    pub totals: Totals,
}

/// What is told of a history of a policy that may waste cores.
#[derive(Drop)]
pub struct WasteReport {
    pub rounds: RoundRows,
    pub stretches: StretchRows,
    pub causes: CauseRows,
    pub totals: Totals,
}
