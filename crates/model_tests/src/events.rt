//! What events do to threads, and what order lines do to serial play.

ghost use Rattle.model_tests.specs.EventRows.{GapsAndOverlaps, OverNumbersArePassedOver, Saturates, TiesGoToTheLowest};
ghost use Rattle.model_tests.specs.EventRows.{YieldGoesToTheQueue};

/// A thread that yields goes to the end of the queue.
pub fn yield_goes_to_the_queue()
    ensures { YieldGoesToTheQueue }
{}

/// A handler with a gap loses the thread, one with an overlap doubles it.
pub fn gaps_and_overlaps()
    ensures { GapsAndOverlaps }
{}

/// An attribute stops at the end of its range.
pub fn saturates()
    ensures { Saturates }
{}

/// The number of a core whose turn is over is passed over.
pub fn over_numbers_are_passed_over()
    ensures { OverNumbersArePassedOver }
{}

/// Of cores with one load the one with the lowest number is the target.
pub fn ties_go_to_the_lowest()
    ensures { TiesGoToTheLowest }
{}
