//! The sharp law on worked histories, where its bound is met, and that it needs what it asks; and the law of rest.

ghost use Rattle.row_tests.specs.BoundMet.{BoundIsMet, MendedMisses, NoRoundLess};
ghost use Rattle.row_tests.specs.Rests.{ChainTakesFour, RestBoundMet, RestIsLeft};
ghost use Rattle.row_tests.specs.Stirred.{NeedsStillness};
ghost use Rattle.row_tests.specs.TakenLast.{NeedsItsPremise, ThreeCoresCounts};

/// Idle cores and waiting threads as the rounds of three cores begin.
pub fn three_cores_counts()
    ensures { ThreeCoresCounts }
{}

/// Where a core that isn't idle may take the last waiting thread, the sharp law is false.
pub fn law_needs_its_premise()
    ensures { NeedsItsPremise }
{}

/// Two idle cores, two waiting threads and two bad rounds, under a weighted policy that leaves the last waiting thread.
pub fn bound_is_met()
    ensures { BoundIsMet }
{}

/// So no law with one bad round less holds, nor one that conserves work one Round sooner.
pub fn no_round_less()
    ensures { NoRoundLess }
{}

/// Under that policy the history of three cores isn't legal.
pub fn mended_misses()
    ensures { MendedMisses }
{}

/// A bad round in which a thread ends needn't fill an idle core.
pub fn law_needs_stillness()
    ensures { NeedsStillness }
{}

/// Two threads on one of two cores: twice the one round before rest is the spread.
pub fn rest_bound_met()
    ensures { RestBoundMet }
{}

/// Cores at rest leave it by threads that come, and come to rest again once they have moved.
pub fn rest_is_left()
    ensures { RestIsLeft }
{}

/// A policy whose thieves look at their place in a chain takes more rounds than the law of the lowest core allows.
pub fn chain_takes_four()
    ensures { ChainTakesFour }
{}
