//! The calls on a table.

ghost use Rattle.std.specs.Prelude.{◌≡◌, ◌<◌, ◌≤◌, [], IfOk, List, Some, slice_get};
ghost use Rattle.policy_tree.specs.Meaning.{meaning_of};
ghost use Rattle.policy_eval.specs.Obligations.{MeetsHandlerObligations};
ghost use Rattle.round_model.specs.Fits.{Fits};
ghost use Rattle.round_model.specs.Limits.{IsWithinLimits};
ghost use Rattle.core_table.specs.declared.views.HeldCore.{HeldCore};
ghost use Rattle.core_table.specs.Above.{IsAbove};
ghost use Rattle.core_table.specs.Ends.{IsClosed};
ghost use Rattle.core_table.specs.Plays.{Begins, Draws};
ghost use Rattle.core_table.specs.Public.{Becomes, HasCore, HasMoved, HasOne, IsActors, IsOf, plan_of, policy_of};
ghost use Rattle.core_table.specs.Public.{publishing, view_of};
ghost use Rattle.core_table.specs.Seats.{IsNewest};
ghost use Rattle.core_table.specs.Told.{Each, HasAllBack, HoldsTouched, IsLocalIn, MayBeginRound};
ghost use Rattle.core_table.specs.Views.{first_view, giving, holding, noted, noting};

use crate::draws::draw;
use crate::ends::{close, copy_consts, open};
use crate::fault::TableFault;
use crate::seat::{Held, Read, Seat, Table};
use crate::steps::{OUT, hold, publish, read, release};
use crate::writes::write_round;
use core_state::{Closed, end_of};
use load_words::{pack, unpack};
use policy_tree::Policy;
use round_model::{Entry, Plan};
use sched_base::{CoreId, MAX_ATTRIBUTES, Pos};
use std::alloc::Global;
use std::sync::Wait;

impl Table {
    /// The table before the first entry, and the opening seat. It takes memory for every core, all entries and the
    /// end, so that no other call takes any.
    ///
    /// # Errors
    ///
    /// `TableFault::Memory` where there isn't so much.
    pub fn open(alloc: Global, policy: &Policy, plan: &Plan) -> Result<(Table, Seat), TableFault>
        requires fits { Fits (meaning_of policy.now) plan.now }
        requires limits { IsWithinLimits plan.now }
        requires handlers { MeetsHandlerObligations (meaning_of policy.now) }
        ensures opening { IfOk result (λ t. (policy_of t.0 ≡ policy.now) × (plan_of t.0 ≡ plan.now)) }
        ensures seat { IfOk result (λ t. Becomes t.0 t.1 (first_view policy.now plan.now)) }
    {
        let consts = copy_consts(alloc, &plan.consts)?;
        let room = Vec::with_capacity(alloc, plan.cores as usize)?;
        let (inner, place) = open(alloc, policy, plan)?;
        let table = Table {
            inner,
            cores: plan.cores,
            consts,
            room,
        };
        Ok((table, Seat { place, start: 0 }))
    }

    /// The number of cores.
    pub fn cores(&self) -> u32
        ensures { result ≡ (plan_of self.now).cores }
    {
        self.cores
    }

    /// The values of the core's attributes, which never change.
    pub fn consts(&self, core: CoreId) -> &[i32; MAX_ATTRIBUTES]
        requires { core < (plan_of self.now).cores }
        ensures { slice_get (plan_of self.now).consts core ≡ Some result.now }
    {
        &self.consts[core as usize]
    }

    /// The core itself, once no other seat holds it. Between two tries it spins, and touches nothing of the table.
    pub fn hold<R: Wait>(&self, rt: &R, seat: &mut Seat, core: CoreId) -> Held
        requires seat { IsOf self.now seat.old }
        requires core { core < (plan_of self.now).cores }
        requires free { (view_of seat.old).held ≡ [] }
        ensures core { result.core ≡ core }
        ensures held { Becomes self.now seat.new (holding core result.state (view_of seat.old)) }
    {
        let state = hold(rt, &self.inner.shared, &mut seat.place, core);
        Held { core, state }
    }

    /// The position of the entry, which stands in no log yet.
    pub(crate) fn write_entry(&self, seat: &mut Seat, entry: &Entry) -> Pos
        requires seat { IsOf self.now seat.old }
        requires actor { IsActors (view_of seat.old) entry.now }
        requires touched { HoldsTouched (view_of seat.old) entry.now }
        requires legal { IsLocalIn (view_of seat.old) entry.now }
        ensures seat { IsOf self.now seat.new }
        ensures drawn { Draws entry.now (view_of seat.old) result (view_of seat.new) }
        ensures above { IsAbove (view_of seat.old) result }
    {
        draw(&self.inner.shared, &mut seat.place, entry) as Pos
    }

    /// The position of the entry, which touches just the held core. The core's log gets it.
    ///
    /// The held value is the core as the entry leaves it, and by what the seat knows the entry is legal next.
    pub fn draw_one(&self, seat: &mut Seat, held: &mut Held, entry: Entry) -> Pos
        requires seat { IsOf self.now seat.old }
        requires actor { IsActors (view_of seat.old) entry }
        requires moved { HasMoved entry (view_of seat.old) held.old.core held.old.state }
        requires legal { IsLocalIn (view_of seat.old) entry }
        ensures seat { IsOf self.now seat.new }
        ensures drawn { Draws entry (view_of seat.old) result (view_of seat.new) }
        ensures above { IsAbove (view_of seat.old) result }
        ensures core { held.new.core ≡ held.old.core }
        ensures held { HasOne (view_of seat.new) held.new.core held.new.state }
    {
        let at = self.write_entry(seat, &entry);
        held.state.log(at, entry);
        at
    }

    /// The position at which that round begins. The log of the rounds gets it.
    ///
    /// No seat of a core is out, and by what the opening seat knows the round is the next and fits the limit.
    pub fn draw_round<R: Wait>(&self, rt: &R, seat: &mut Seat, number: u32) -> Pos
        requires seat { IsOf self.now seat.old }
        requires back { HasAllBack (view_of seat.old) }
        requires free { (view_of seat.old).held ≡ [] }
        requires may { MayBeginRound (view_of seat.old) number }
        ensures seat { IsOf self.now seat.new }
        ensures begun { Begins number (view_of seat.old) result (view_of seat.new) }
        ensures above { IsAbove (view_of seat.old) result }
    {
        let shared = &self.inner.shared;
        let at = write_round(rt, shared, &mut seat.place, self.cores, number);
        seat.start = at + 1;
        at
    }

    /// Others see the held core as it is.
    pub fn publish(&self, seat: &mut Seat, held: &Held)
        requires seat { IsOf self.now seat.old }
        requires core { held.now.core < (plan_of self.now).cores }
        requires held { HasCore (view_of seat.old) held.now.core held.now.state }
        ensures seen { Becomes self.now seat.new (publishing held.now.core held.now.state (view_of seat.old)) }
    {
        let state = &held.state;
        let word = pack(end_of(state.entries()), state.nr(), state.load());
        publish(&self.inner.shared, &mut seat.place, held.core, word);
    }

    /// Lets the core go that was taken last. It is published as it is.
    pub fn release(&self, seat: &mut Seat, held: Held)
        requires seat { IsOf self.now seat.old }
        requires core { held.core < (plan_of self.now).cores }
        requires newest { (earlier : List HeldCore) × IsNewest (view_of seat.old) held.core held.state earlier }
        ensures home { Becomes self.now seat.new (giving (view_of seat.old)) }
    {
        let Held { core, state } = held;
        release(&self.inner.shared, &mut seat.place, core, state);
    }

    /// What others see of the core, without waiting for it.
    pub fn read(&self, seat: &mut Seat, core: CoreId) -> Read
        requires seat { IsOf self.now seat.old }
        requires core { core < (plan_of self.now).cores }
        ensures noted { Becomes self.now seat.new
            (noting (noted core result.at (record { nr = result.nr; load = result.load })) (view_of seat.old)) }
        ensures latest { Each (λ x. x.core ≡ core → x.at ≤ result.at) (view_of seat.old).notes }
    {
        let found = read(&self.inner.shared, &mut seat.place, core);
        let word = unpack(found % OUT);
        Read {
            at: word.version.max(seat.start),
            nr: word.nr,
            load: word.load,
        }
    }

    /// The cores and the logs at the end. No seat of a core is out, and the opening seat holds nothing.
    pub fn close(self, seat: Seat) -> Closed
        requires seat { IsOf self seat }
        requires back { HasAllBack (view_of seat) }
        requires free { (view_of seat).held ≡ [] }
        ensures closed { IsClosed (view_of seat) result }
    {
        let Table {
            inner,
            cores,
            room,
            ..
        } = self;
        let Seat { place, .. } = seat;
        close(inner, place, cores, room)
    }
}
