//! The worked rows, each a function whose contract is the row.

ghost use Rattle.level_tests.specs.CompiledRows.{CompiledOwes, CompiledParts};
ghost use Rattle.level_tests.specs.LevelPlans.{TakesFullest, TakesNear};
ghost use Rattle.level_tests.specs.LevelRows.{FirstLevelCounts, NearIsTaken, OwnFilterAlone};
ghost use Rattle.level_tests.specs.ResolvedRows.{LevelsAreResolved, LevelsMiss};

/// The own node before a fuller core of the other one.
pub fn near_is_taken()
    ensures { NearIsTaken }
{}

/// A core that two levels take in belongs to the first of them.
pub fn first_level_counts()
    ensures { FirstLevelCounts }
{}

/// Of a core the filter of its own level is asked alone.
pub fn own_filter_alone()
    ensures { OwnFilterAlone }
{}

/// The compiled policies, written out.
pub fn compiled_parts()
    ensures { CompiledParts }
{}

/// What the compiled policies owe.
pub fn compiled_owes()
    ensures { CompiledOwes }
{}

/// Levels as a text has them.
pub fn levels_are_resolved()
    ensures { LevelsAreResolved }
{}

/// Changes of one thing in them.
pub fn levels_miss()
    ensures { LevelsMiss }
{}

/// Serial play of two nodes.
pub fn takes_near()
    ensures { TakesNear }
{}

/// Serial play of cores that lie in several levels.
pub fn takes_fullest()
    ensures { TakesFullest }
{}
