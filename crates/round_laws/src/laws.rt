//! Laws over all policies, plans and legal histories, each a function without parameters whose contract is the law.
//!
//! Work conservation, after some number of rounds no core idle while another is overloaded, is that of Lepers et al.,
//! "Provable Multicore Schedulers with Ipanema: Application to Work Conservation" (EuroSys 2020) and "Towards Proving
//! Optimistic Multicore Schedulers" (HotOS 2017). This project's own are the numbers of rounds: half the first spread
//! of the loads, or the cores that were idle at first. So it is that they are claimed of rounds in which nobody enters,
//! wakes, blocks or ends.

ghost use Rattle.policy_eval.specs.LastWaiting.{EqualWeightsLaw};
ghost use Rattle.round_model.specs.FailsExplained.{FailedStealsLaw};
ghost use Rattle.round_model.specs.OnePlace.{OnePlaceLaw};
ghost use Rattle.round_model.specs.StillRounds.{StillRoundsLaw};
ghost use Rattle.round_laws.specs.IdleBound.{WasteIsPaidLaw};
ghost use Rattle.round_laws.specs.MainTheorem.{MainTheorem};
ghost use Rattle.round_laws.specs.Rest.{RestLaw};

/// Each live thread stands at exactly one core, each blocked one in exactly one blocked list, every other nowhere; and
/// every number lies in its range. For this exactly one case of each handler has to hold, and no more.
pub fn law_one_place()
    ensures { OnePlaceLaw }
{}

/// Each failed steal follows a change of its thief or its victim in its round, and in a still round a steal changed it.
pub fn law_failed_steals()
    ensures { FailedStealsLaw }
{}

/// In still rounds each bad round has a steal, each steal lowers the spread of the loads by 2 at least for each thread
/// that it moves, and no core is idle beside an overloaded one from the Round on that comes N rounds after the first,
/// for each N with 2 N at least the first spread.
pub fn law_still_rounds()
    ensures { StillRoundsLaw }
{}

/// A policy that meets its obligations wastes no core in still rounds, in every legal history of
/// every plan that fits it: for every number of cores, rounds and entries, up to 1,023 threads, and every
/// interleaving of the cores' turns within a round.
pub fn law_main_theorem()
    ensures { MainTheorem }
{}

/// Where a policy lets only idle cores take the last waiting thread of another, each bad and still round fills an idle
/// core. Of any rounds, still or not, the bad ones are at most the cores that were idle as the first began, and the
/// entries since that block or end a thread. In a still stretch that is fewer rounds than the plan has cores, however
/// heavy and however many the threads.
pub fn law_waste_is_paid()
    ensures { WasteIsPaidLaw }
{}

/// Where all threads weigh the same, a policy that meets its obligations is one of those.
pub fn law_equal_weights()
    ensures { EqualWeightsLaw }
{}

/// In still rounds the cores come to rest. As long as the filter holds of some thief and some victim as a round begins, the
/// round has a steal, and twice the number of such rounds is at most the first spread. Once it holds of none, no entry of
/// the still stretch is a steal and it holds of none later. So it is from the Round on that comes N rounds after the
/// first, for each N with 2 N + 1 at least the first spread. A policy need not let idle cores see every overloaded one for this.
pub fn law_rest()
    ensures { RestLaw }
{}
