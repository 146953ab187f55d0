//! The calls on two cores at once.

ghost use Rattle.std.specs.Prelude.{◌≡◌, ◌≢◌, ◌<◌, [], ◌∷◌};
ghost use Rattle.core_table.specs.Above.{IsAbove};
ghost use Rattle.core_table.specs.Pairs.{HasMovedTwo, HasTwo, MayGiveTwo, holding_two};
ghost use Rattle.core_table.specs.Plays.{Draws};
ghost use Rattle.core_table.specs.Public.{Becomes, IsActors, IsOf, plan_of, publishing, view_of};
ghost use Rattle.core_table.specs.Told.{IsLocalIn};
ghost use Rattle.core_table.specs.Views.{giving, holding, taken};

use crate::seat::{Held, HeldTwo, Seat, Table};
use crate::steps::hold;
use round_model::Entry;
use sched_base::{CoreId, Pos};
use std::sync::Wait;

impl Table {
    /// Two different cores, in any order. The one with the lower number is taken first. Where all threads do so, no two
    /// of them wait for each other; no clause says either.
    pub fn hold_two<R: Wait>(&self, rt: &R, seat: &mut Seat, a: CoreId, b: CoreId) -> HeldTwo
        requires seat { IsOf self.now seat.old }
        requires different { a ≢ b }
        requires cores { (a < (plan_of self.now).cores) × (b < (plan_of self.now).cores) }
        requires free { (view_of seat.old).held ≡ [] }
        ensures first { result.first.core ≡ a }
        ensures second { result.second.core ≡ b }
        ensures held { Becomes self.now seat.new
            (holding_two a result.first.state b result.second.state (view_of seat.old)) }
    {
        if a < b {
            let (first, second) = self.hold_rising(rt, seat, a, b);
            HeldTwo { first, second }
        } else {
            let (second, first) = self.hold_rising(rt, seat, b, a);
            HeldTwo { first, second }
        }
    }

    /// Two cores in the order of their numbers, in which they are taken.
    fn hold_rising<R: Wait>(
        &self,
        rt: &R,
        seat: &mut Seat,
        low: CoreId,
        high: CoreId,
    ) -> (Held, Held)
        requires seat { IsOf self.now seat.old }
        requires order { low < high }
        requires core { high < (plan_of self.now).cores }
        requires free { (view_of seat.old).held ≡ [] }
        ensures cores { (result.0.core ≡ low) × (result.1.core ≡ high) }
        ensures held { Becomes self.now seat.new
            (holding high result.1.state (holding low result.0.state (view_of seat.old))) }
    {
        let lower = self.hold(rt, seat, low);
        let state = hold(rt, &self.inner.shared, &mut seat.place, high);
        (lower, Held { core: high, state })
    }

    /// The position of the entry, which touches just the two held cores. The logs of both get it.
    ///
    /// The held values are the cores as the entry leaves them, and by what the seat knows the entry is legal next.
    pub fn draw_two(&self, seat: &mut Seat, held: &mut HeldTwo, entry: Entry) -> Pos
        requires seat { IsOf self.now seat.old }
        requires actor { IsActors (view_of seat.old) entry }
        requires moved { HasMovedTwo entry (view_of seat.old)
            held.old.first.core held.old.first.state held.old.second.core held.old.second.state }
        requires legal { IsLocalIn (view_of seat.old) entry }
        ensures seat { IsOf self.now seat.new }
        ensures drawn { Draws entry (view_of seat.old) result (view_of seat.new) }
        ensures above { IsAbove (view_of seat.old) result }
        ensures cores { (held.new.first.core ≡ held.old.first.core) × (held.new.second.core ≡ held.old.second.core) }
        ensures held { HasTwo (view_of seat.new)
            held.new.first.core held.new.first.state held.new.second.core held.new.second.state }
    {
        let at = self.write_entry(seat, &entry);
        held.first.state.log(at, entry);
        held.second.state.log(at, entry);
        at
    }

    /// Others see the held cores as they are, one after the other.
    pub fn publish_two(&self, seat: &mut Seat, held: &HeldTwo)
        requires seat { IsOf self.now seat.old }
        requires held { HasTwo (view_of seat.old)
            held.now.first.core held.now.first.state held.now.second.core held.now.second.state }
        requires different { held.now.first.core ≢ held.now.second.core }
        requires cores { (held.now.first.core < (plan_of self.now).cores)
            × (held.now.second.core < (plan_of self.now).cores) }
        ensures seen { Becomes self.now seat.new (publishing held.now.second.core held.now.second.state
            (publishing held.now.first.core held.now.first.state (view_of seat.old))) }
        ensures ready { MayGiveTwo (view_of seat.new)
            held.now.first.core held.now.first.state held.now.second.core held.now.second.state }
    {
        self.publish(seat, &held.first);
        self.publish(seat, &held.second);
    }

    /// Lets both cores go. They are published as they are.
    pub fn release_two(&self, seat: &mut Seat, held: HeldTwo)
        requires seat { IsOf self.now seat.old }
        requires newest { MayGiveTwo (view_of seat.old)
            held.first.core held.first.state held.second.core held.second.state }
        requires different { held.first.core ≢ held.second.core }
        requires cores { (held.first.core < (plan_of self.now).cores)
            × (held.second.core < (plan_of self.now).cores) }
        ensures home { Becomes self.now seat.new (giving (giving (view_of seat.old))) }
        ensures free { (view_of seat.new).held ≡ [] }
    {
        let HeldTwo { first, second } = held;
        if first.core < second.core {
            self.release_falling(seat, first, second);
        } else {
            self.release_falling(seat, second, first);
        }
    }

    /// Lets two cores go against the order of their numbers, in which they were taken.
    fn release_falling(&self, seat: &mut Seat, low: Held, high: Held)
        requires seat { IsOf self.now seat.old }
        requires newest { (view_of seat.old).held ≡ taken (view_of seat.old).plan.cores high.core high.state
            ∷ taken (view_of seat.old).plan.cores low.core low.state ∷ [] }
        requires cores { (low.core < high.core) × (high.core < (plan_of self.now).cores) }
        ensures home { Becomes self.now seat.new (giving (giving (view_of seat.old))) }
        ensures free { (view_of seat.new).held ≡ [] }
    {
        self.release(seat, high);
        self.release(seat, low);
    }
}
