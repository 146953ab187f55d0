//! A trace: its lines in their order, each with its number.

ghost use Rattle.std.specs.Prelude.{◌≡◌, ◌≤◌, length};

use lists::Items;
use policy_tree::Name;
use round_model::{OrderLine, Planned};
use sched_base::CoreId;
use std::marker::Model;

/// The constants of a core that a line gives, from left to right.
pub type NamedConstList = Items<NamedConst>;

/// A constant of a core.
#[derive(Drop)]
pub struct NamedConst {
    /// The attribute of cores that it is.
    pub name: Name,
    pub value: i32,
}

/// Constants of one core.
#[derive(Drop)]
pub struct CoreConsts {
    pub core: CoreId,
    pub consts: NamedConstList,
}

/// What a line of a trace says.
#[derive(Drop)]
pub enum TraceLine {
    /// The number of cores.
    Cores(u32),
    /// The number of rounds.
    Rounds(u32),
    /// The most entries of a history.
    Entries(u32),
    /// Constants of a core.
    Core(CoreConsts),
    /// A thread. Its weight is 1 where the line names none.
    Thread(Planned),
    /// The order in which the cores take their steps in a round.
    Order(OrderLine),
}

/// A line of a trace, with its number in the text.
#[derive(Drop)]
pub struct Numbered {
    /// Its number. Lines that say nothing are counted too.
    pub number: u32,
    /// What it says.
    pub line: TraceLine,
}

/// The lines of a trace that say something. None of them breaks a rule, and cores and rounds are among them.
///
/// A contract sees the list of the lines.
#[derive(Drop)]
pub struct Trace {
    lines: Items<Numbered>,
}

impl Model for Trace {
    ghost use Rattle.std.specs.Prelude.{List};
    ghost use Rattle.job_trace.specs.declared.trace.Numbered.{Numbered};
    ghost use Rattle.job_trace.specs.Rules.{KeepsRules};

    ghost Value = { List Numbered };

    ghost view = { λ trace. trace.lines };

    ghost invariant = { λ trace. KeepsRules trace.lines };
}

impl Trace {
    ghost use Rattle.job_trace.specs.Rules.{KeepsRules};

    /// The trace of these lines. It takes no memory.
    pub fn from_lines(lines: Items<Numbered>) -> Trace
        requires { KeepsRules lines }
        ensures { result ≡ lines }
    {
        Trace { lines }
    }

    /// The lines in their order.
    pub fn lines(&self) -> &[Numbered]
        ensures lines { result.now ≡ self.now }
        ensures rules { KeepsRules result.now }
        ensures few { length result.now ≤ u32.MAX }
    {
        self.lines.as_slice()
    }
}
