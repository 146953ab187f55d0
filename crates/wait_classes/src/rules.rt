//! What is asked of the cases of tick and of yield, class by class.

ghost use Rattle.std.specs.Prelude.{◌≡◌};
ghost use Rattle.policy_tree.specs.Meaning.{case_tree, meaning_of};
ghost use Rattle.wait_classes.specs.Rules.{obeys, obeys_after_units, obeys_on};

use crate::attributes::{Aim, is_moved, never};
use policy_tree::{Case, Event, Policy, Put};

/// What a case does with its thread.
#[derive(Clone, Copy)]
pub enum Rule {
    /// It puts the thread to the queue's end.
    Queues,
    /// Where it keeps the thread, it lowers the attribute, whose lower end this is.
    Falls { attribute: u32, low: i64 },
    /// It puts the thread to the queue's end and raises the attribute, whose upper end this is, or leaves it there.
    Rises { attribute: u32, high: i64 },
}

/// Whether each case of tick and of yield obeys the rule.
pub fn obeys_after_units(rule: Rule, policy: &Policy) -> bool
    ensures { result ≡ obeys_after_units rule (meaning_of policy.now) }
{
    obeys_on(rule, policy, Event::Tick) && obeys_on(rule, policy, Event::Yield)
}

/// Whether each case of that event obeys the rule.
fn obeys_on(rule: Rule, policy: &Policy, event: Event) -> bool
    ensures { result ≡ obeys_on rule (meaning_of policy.now) event }
{
    let cases = policy.handlers.cases(event);
    for at in 0..cases.len() {
        if !obeys(rule, cases.get(at)) {
            return false;
        }
    }
    true
}

/// Whether the case obeys the rule.
fn obeys(rule: Rule, case: &Case) -> bool
    ensures { result ≡ obeys rule (case_tree case.now) }
{
    match rule {
        Rule::Queues => case.put == Put::Queue,
        Rule::Falls { attribute, low } => {
            case.put != Put::Keep
                || never(attribute, low, true, &case.guard)
                    && is_moved(attribute, Aim::Down { low }, &case.sets)
        }
        Rule::Rises { attribute, high } => {
            case.put == Put::Queue && is_moved(attribute, Aim::Up { high }, &case.sets)
        }
    }
}
