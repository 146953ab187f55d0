//! Laws over all policies by levels, each a function without parameters whose contract is the law.

ghost use Rattle.level_laws.specs.LevelChoiceLaw.{LevelChoiceLaw};

/// Whatever was read of the cores, each core's choice under the compiled policy is its choice by levels. So all that
/// holds of a policy's choices and attempts holds of those by levels.
pub fn law_level_choice()
    ensures { LevelChoiceLaw }
{}
