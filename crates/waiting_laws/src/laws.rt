//! Laws over all policies, plans and legal histories, each a function without parameters whose contract is the law.

ghost use Rattle.waiting_laws.specs.Least.{LeastLaw};
ghost use Rattle.waiting_laws.specs.Slices.{SlicesLaw};
ghost use Rattle.waiting_laws.specs.Waiting.{WaitingLaw};

/// Where a policy elects the first that waits and puts each thread to the queue's end after its unit, every unit of a
/// core brings each thread that waits there one place ahead at least, until it runs or is stolen. So a thread that
/// isn't stolen runs among as many units of its core as its place says, and one more, however many others enter, wake
/// or are stolen, still rounds or not. Counted in rounds: in the one that begins, or in one of as many after it as its
/// place says.
pub fn law_waiting()
    ensures { WaitingLaw }
{}

/// Where a policy elects the first that waits, and keeps a thread only where an attribute of it falls, a thread may be
/// kept as often in a row as the attribute's range is long, and no more. So a thread that isn't stolen runs among as
/// many slices of its core as its place says, and one more: each has as many units as the range has numbers.
pub fn law_slices()
    ensures { SlicesLaw }
{}

/// Where a policy elects a thread with the least value of one attribute, and a tick or a yield raises that value and
/// puts the thread to the queue's end, a thread that isn't stolen runs, as long as no thread comes to its core, among
/// one unit more than its place and the sum of what each other that waits there lags behind its value.
pub fn law_least()
    ensures { LeastLaw }
{}
