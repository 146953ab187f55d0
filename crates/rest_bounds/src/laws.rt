//! The law of the condition, a function without parameters whose contract is the law.

ghost use Rattle.rest_bounds.specs.Laws.{RaisesLowestLaw};

/// A resolved policy that is found to raise the lowest does so: with as many threads or fewer, a core sees whom another
/// sees, as long as it is as far behind him. What follows of its restless rounds is said by `law_lowest_first`.
pub fn law_raises_lowest()
    ensures { RaisesLowestLaw }
{}
