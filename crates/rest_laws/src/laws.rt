//! Laws over all policies, plans and legal histories, each a function without parameters whose contract is the law.

ghost use Rattle.rest_laws.specs.Gap.{EvenCountsLaw, RestGapLaw};
ghost use Rattle.rest_laws.specs.LowestFirst.{EvenSoonLaw, LowestFirstLaw, StepsByOneLaw};
ghost use Rattle.rest_laws.specs.TwoApart.{TwoApartLaw};

/// Where the filter fails only of a victim whose load is at most g greater than the thief's, no two loads of cores at
/// rest differ by more than g. For this the policy need meet no more than the handlers' obligations.
pub fn law_rest_gap()
    ensures { RestGapLaw }
{}

/// So where all threads weigh the same and g is one thread's weight, no two cores at rest differ by more than one
/// thread.
pub fn law_even_counts()
    ensures { EvenCountsLaw }
{}

/// Where all threads weigh the same, and a core sees whom one with more threads sees if it is as far behind him, each
/// restless round raises a core with the fewest threads. So with N cores and T threads beyond those that each core has
/// as a still stretch begins, its restless rounds are at most T less T / N rounded up.
pub fn law_lowest_first()
    ensures { LowestFirstLaw }
{}

/// For that it is enough to look at a thread more and a thread fewer: whom a core sees it sees with a thread more, and
/// sees where both have a thread fewer, whatever its attributes; and where a batch goes on, a core with two threads
/// fewer than the thief sees the victim with a thread fewer.
pub fn law_steps_by_one()
    ensures { StepsByOneLaw }
{}

/// A policy with loads that are counts, whose filter asks for two threads more, and whose batch, if it has one, does so
/// too, is one of those, and leaves no gap but one. For it the handlers' obligations are the only ones.
pub fn law_two_apart()
    ensures { TwoApartLaw }
{}

/// Where both hold, of the fewest threads first and of the gap, any two cores differ by at most one thread from the
/// Round on that comes that many rounds after the first of a still stretch.
pub fn law_even_soon()
    ensures { EvenSoonLaw }
{}
