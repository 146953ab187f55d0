//! Laws over all policies, plans and legal histories, each a function without parameters whose contract is the law.

ghost use Rattle.turn_laws.specs.Turns.{FairShareLaw, TurnsAtRestLaw};

/// Where a policy elects the first that waits and puts each thread to the queue's end after its unit, a thread of a
/// core at rest runs in one of as many rounds of a still stretch as the core has threads.
pub fn law_turns_at_rest()
    ensures { TurnsAtRestLaw }
{}

/// Where all threads weigh the same and cores at rest differ by one thread at most, each thread runs in one of as many
/// rounds as there are threads to a core, rounded up: with T threads on N cores, of T / N. So the cores are shared by
/// all threads alike.
pub fn law_fair_share()
    ensures { FairShareLaw }
{}
