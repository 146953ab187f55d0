//! Laws of the classes, each a function without parameters whose contract is the law.

ghost use Rattle.wait_classes.specs.Laws.{BoundsLaw, ClassesLaw, QueueLaw};

/// To a resolved policy the law of its class applies.
pub fn law_classes()
    ensures { ClassesLaw }
{}

/// A policy has the first class exactly where the law of waiting applies to it.
pub fn law_queue()
    ensures { QueueLaw }
{}

/// So in each legal history threads wait no longer than that law says.
pub fn law_bounds()
    ensures { BoundsLaw }
{}
