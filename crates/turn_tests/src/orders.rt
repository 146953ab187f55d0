//! Every order of answers that a small turn can be told, beside what it is to ask.

ghost use Rattle.std.specs.Prelude.{IfSome};
ghost use Rattle.turn_steps.specs.Answers.{Answers};

use crate::asked::is_same;
use crate::finding::{Finding, all_hold};
use crate::texts::plan_of_text;
use model_tests::builders::basic_policy;
use round_model::{Did, Plan};
use sched_base::{CoreId, Reads, ThreadId};
use select_phase::Look;
use std::alloc::Global;
use turn_steps::{Ask, Told, Turning};

/// One order of answers: who enters, how many wake, what becomes of the thread that runs, who then ended, and the look.
#[derive(Clone, Copy)]
struct Order {
    core: CoreId,
    entering: [Option<ThreadId>; 2],
    waking: u32,
    did: Did,
    ended: Option<ThreadId>,
    look: Look,
}

/// Who enters in the first round of `orders.trace`, core by core.
const ENTERING: [[Option<ThreadId>; 2]; 3] = [[None, None], [Some(4), None], [Some(2), Some(6)]];

/// What may become of the thread that runs, and who then ended.
const UNITS: [(Did, Option<ThreadId>); 5] = [
    (Did::Nothing, None),
    (Did::Kept(3), None),
    (Did::Queued(3), None),
    (Did::Blocked(3), None),
    (Did::Ended(3), Some(3)),
];

/// What a look may choose.
const CHOICES: [Option<CoreId>; 2] = [None, Some(1)];

/// So many orders there are, with at most two threads that wake.
const ORDERS: usize = 90;

/// The longest of them asks so often, the last time for nothing.
const LONGEST: u32 = 9;

/// What is found of all orders, by the plan of that trace.
pub(crate) fn of_trace(alloc: Global, trace: &str) -> Option<Finding> {
    let Ok(policy) = basic_policy(alloc) else {
        return None;
    };
    let plan = plan_of_text(alloc, &policy, trace)?;
    Some(all_hold(&[("each turn asks for what its order says", are_asked(&plan))]))
}

/// Whether each turn of that plan asks for just what its order says, whatever it is told.
fn are_asked(plan: &Plan) -> bool {
    for number in 0..ORDERS {
        if !is_asked(plan, &order_of(number)) {
            return false;
        }
    }
    true
}

/// The order of that number.
fn order_of(number: usize) -> Order {
    let (did, ended) = UNITS[number / 9 % 5];
    let core = number % 3;
    let mut reads = Reads::empty();
    reads.push(7);
    reads.push(8);
    reads.push(9);
    Order {
        core: core as u32,
        entering: ENTERING[core],
        waking: (number / 3 % 3) as u32,
        did,
        ended,
        look: Look {
            by: core as u32,
            reads,
            choice: CHOICES[number / 45 % 2],
        },
    }
}

/// Whether a turn that is told this order asks for just that, and tells what came of it.
fn is_asked(plan: &Plan, order: &Order) -> bool {
    let mut turning = Turning::new(plan, order.core, 1);
    for at in 0..LONGEST {
        let asked = turning.asks(plan);
        if !is_same(&asked, &order.asked(at)) {
            return false;
        }
        match order.answer(&asked, at) {
            Some(told) => turning.told(told),
            None => return turning.turned() == (at.saturating_sub(2), order.ended),
        }
    }
    false
}

impl Order {
    /// How many threads enter.
    fn arrivals(&self) -> u32 {
        self.entering
            .iter()
            .filter(|thread| thread.is_some())
            .count() as u32
    }

    /// What is asked in that place, from 0.
    fn asked(&self, at: u32) -> Ask {
        let arrivals = self.arrivals();
        if let Some(thread) = self.entering.get(at as usize).copied().flatten() {
            return Ask::Arrive(thread);
        }
        match at.saturating_sub(arrivals).checked_sub(self.waking) {
            None | Some(0) => Ask::Wake,
            Some(1) => Ask::Work,
            Some(2) => Ask::Look,
            Some(3) => Ask::Act(self.look),
            Some(_) => Ask::Over,
        }
    }

    /// What is told of that which is asked in that place, if anything is.
    fn answer(&self, asked: &Ask, at: u32) -> Option<Told>
        ensures { IfSome result (Answers asked.now) }
    {
        match asked {
            Ask::Arrive(_) => Some(Told::Arrived),
            Ask::Wake if at < self.arrivals().saturating_add(self.waking) => Some(Told::Woke),
            Ask::Wake => Some(Told::NothingDue),
            Ask::Work => Some(Told::Worked(self.did)),
            Ask::Look => Some(Told::Looked(self.look)),
            Ask::Act(_) => Some(Told::Acted),
            Ask::Over => None,
        }
    }
}
