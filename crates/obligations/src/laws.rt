//! Laws of the definitions, each a function without parameters whose contract is the law.

ghost use Rattle.obligations.specs.Laws.{ComparisonsGiveDifferences, CountsAreCases, NamesAreStatements};
ghost use Rattle.obligations.specs.Laws.{RefutationsAreTheirs, SystemsAreStatements};
ghost use Rattle.obligations.specs.Sizes.{SizesAreSaid};

/// The names stand for a policy's statements, all of them and in their order.
pub fn law_names()
    ensures { NamesAreStatements }
{}

/// A resolved policy meets a statement exactly where no values in its ranges refute it: what the definitions of the
/// refutations say.
pub fn law_refutations()
    ensures { RefutationsAreTheirs }
{}

/// A resolved policy meets a statement exactly where no system of the statement has a solution in whole numbers.
pub fn law_systems()
    ensures { SystemsAreStatements }
{}

/// There are as many cases as are counted.
pub fn law_counts()
    ensures { CountsAreCases }
{}

/// Where threads are counted and each comparison is one of a constant with a variable or with the difference of two,
/// all systems are of the form that is always decided.
pub fn law_differences()
    ensures { ComparisonsGiveDifferences }
{}

/// Counts of cases and names of obligations end at these numbers.
pub fn law_sizes()
    ensures { SizesAreSaid }
{}
