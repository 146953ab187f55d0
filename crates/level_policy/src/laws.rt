//! Laws of the definitions, each a function without parameters whose contract is the law.

ghost use Rattle.level_policy.specs.Laws.{LevelFilterLaw, LevelStaysLaw};
ghost use Rattle.level_policy.specs.NearestBest.{NearestBestLaw};

/// A core passes the compiled filter, whatever the values, exactly where it passes the filter of its level.
pub fn law_level_filter()
    ensures { LevelFilterLaw }
{}

/// The choice by levels is the best candidate of the nearest level that has one, and none where no level has one.
pub fn law_nearest_best()
    ensures { NearestBestLaw }
{}

/// Which level a core belongs to, as another one sees it, depends on the attributes of the two alone.
pub fn law_level_stays()
    ensures { LevelStaysLaw }
{}
