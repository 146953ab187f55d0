//! Laws of the model, each a function without parameters whose contract is the law.

ghost use Rattle.round_model.specs.Between.{HasEndedLaw, SameCoreLaw};
ghost use Rattle.round_model.specs.Bursts.{BurstsLaw};
ghost use Rattle.round_model.specs.BoundsLaws.{BoundsLaw, OpenRoundLaw};
ghost use Rattle.round_model.specs.Laws.{ActingLaw, ConstantsLaw, EnteringLaw, LegalGrows, OneMoreLaw, OpeningLaw};
ghost use Rattle.round_model.specs.Laws.{PrefixLaw, UntouchedLaw};
ghost use Rattle.round_model.specs.Local.{LocalLaw};
ghost use Rattle.round_model.specs.OwedLaws.{NoneFallsDueLaw, OwedBoundLaw, OwedLaw};

/// The state after a longer history is what its last entry makes of the state before it.
pub fn law_one_more()
    ensures { OneMoreLaw }
{}

/// An entry leaves the cores that it doesn't touch.
pub fn law_untouched()
    ensures { UntouchedLaw }
{}

/// A core is the same at two positions between which no entry touches it.
pub fn law_same_core()
    ensures { SameCoreLaw }
{}

/// A thread has ended exactly where it had as the open round began, or ends in what some core has done in it.
pub fn law_has_ended()
    ensures { HasEndedLaw }
{}

/// A legal history with an entry more is legal exactly where that entry is legal next.
pub fn law_legal_grows()
    ensures { LegalGrows }
{}

/// The first entries of a legal history are a legal history.
pub fn law_prefix()
    ensures { PrefixLaw }
{}

/// No entry changes the constants of a core.
pub fn law_constants()
    ensures { ConstantsLaw }
{}

/// The opening state is in bounds, with no thread.
pub fn law_opening()
    ensures { OpeningLaw }
{}

/// A core acts in an entry exactly where it is the acting core.
pub fn law_acting()
    ensures { ActingLaw }
{}

/// In a legal history a thread enters by its planned core in its planned round.
pub fn law_entering()
    ensures { EnteringLaw }
{}

/// Each thread that stands at a core has a burst to run next.
pub fn law_bursts()
    ensures { BurstsLaw }
{}

/// In a legal history the number of the open round is how many rounds have begun.
pub fn law_open_round()
    ensures { OpenRoundLaw }
{}

/// An entry of a core is legal next exactly where it is so in every moment of which as much is known as the entry
/// needs.
pub fn law_local()
    ensures { LocalLaw }
{}

/// After a legal history numbers lie in their ranges, and threads stand once at most and come from the plan alone.
pub fn law_bounds()
    ensures { BoundsLaw }
{}

/// A legal entry of a core is one of those that it owed, and leaves what the others owe.
pub fn law_owed()
    ensures { OwedLaw }
{}

/// No entry makes a thread due in its round.
pub fn law_none_falls_due()
    ensures { NoneFallsDueLaw }
{}

/// No more is ever owed than an entry for each thread and two for each core.
pub fn law_owed_bound()
    ensures { OwedBoundLaw }
{}
