//! The statements that the names stand for.

ghost use Rattle.std.specs.Prelude.{◌≡◌};
ghost use Rattle.obligations.specs.Demands.{statement_seen};
ghost use Rattle.obligations.specs.Names.{statement_of};

use crate::names::ObName;
use policy_tree::Event;

/// What is asked of a policy: what it owes, who may take the last waiting thread of a core, and how wide a gap between
/// two loads the filter leaves.
#[derive(Clone, Copy)]
pub enum Statement {
    IdleSeesOverloaded,
    VictimIsOverloaded,
    MoveNarrowsGap,
    FurtherMoveNarrowsGap,
    NoOverlap(Event),
    NoGap(Event),
    FilterLeavesLast,
    BatchLeavesLast,
    RestGap(u32),
}

/// The statement that goes by that name.
pub fn statement_of(name: ObName) -> Statement
    ensures { statement_seen result ≡ statement_of name }
{
    match name {
        ObName::B1 => Statement::IdleSeesOverloaded,
        ObName::B2 => Statement::VictimIsOverloaded,
        ObName::B3 => Statement::MoveNarrowsGap,
        ObName::B4 => Statement::FurtherMoveNarrowsGap,
        ObName::H1Enqueue => Statement::NoOverlap(Event::Enqueue),
        ObName::H2Enqueue => Statement::NoGap(Event::Enqueue),
        ObName::H1Tick => Statement::NoOverlap(Event::Tick),
        ObName::H2Tick => Statement::NoGap(Event::Tick),
        ObName::H1Yield => Statement::NoOverlap(Event::Yield),
        ObName::H2Yield => Statement::NoGap(Event::Yield),
        ObName::H1Block => Statement::NoOverlap(Event::Block),
        ObName::H2Block => Statement::NoGap(Event::Block),
    }
}
