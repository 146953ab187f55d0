//! Laws of serial play, each a function without parameters whose contract is the law.

ghost use Rattle.serial_steps.specs.Room.{EntryBoundLaw, RoomSufficesLaw};
ghost use Rattle.serial_steps.specs.SerialLaws.{SerialRoundsLaw, SerialWholeLaw, StopsFullLaw};

/// A legal history has no more entries than its rounds may have.
pub fn law_entry_bound()
    ensures { EntryBoundLaw }
{}

/// In a plan with room for its rounds no round comes due that might not fit.
pub fn law_room_suffices()
    ensures { RoomSufficesLaw }
{}

/// So many rounds of serial play are complete, legal, and a beginning of the serial history.
pub fn law_serial_rounds()
    ensures { SerialRoundsLaw }
{}

/// The serial history of a plan is whole.
pub fn law_serial_whole()
    ensures { SerialWholeLaw }
{}

/// What is left where play stops before a round that might not fit begins the serial history, and has fewer rounds
/// than the plan.
pub fn law_stops_full()
    ensures { StopsFullLaw }
{}
