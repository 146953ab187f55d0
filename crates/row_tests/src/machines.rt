//! The laws on a machine with more cores than the program plays.

ghost use Rattle.row_tests.specs.HundredCores.{HundredCoresKeepLaws};

/// A core of a hundred steals from another, and a third one comes too late: the laws hold of that history too.
pub fn law_on_hundred_cores()
    ensures { HundredCoresKeepLaws }
{}
