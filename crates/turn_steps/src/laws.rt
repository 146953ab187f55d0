//! Laws of the definitions, each a function without parameters whose contract is the law.

ghost use Rattle.turn_steps.specs.Shares.{OneWorkerLaw, SharesLaw};

/// Each core has exactly one worker.
pub fn law_one_worker()
    ensures { OneWorkerLaw }
{}

/// Where there are no more workers than cores, each of them plays one at least.
pub fn law_shares()
    ensures { SharesLaw }
{}
