//! How many conjunctive cases a condition and an obligation have: known before one of them is made.

ghost use Rattle.std.specs.Prelude.{◌≡◌, ℕ, ◌+◌, ◌*◌, ◌≤◌, cond};
ghost use Rattle.policy_tree.specs.Trees.{cond_tree};
ghost use Rattle.obligations.specs.Counts.{count_of, reported};
ghost use Rattle.obligations.specs.Tallies.{IsSmall, worth};

use crate::comparisons::{asked, count_of_test};
use policy_tree::Cond;

/// The greatest count of cases that is reported. A greater one is reported as this.
pub const MAX_COUNT: u32 = 65_535;

/// The number of cases in which the condition has the outcome. It takes no memory, and goes along a chain by a loop.
pub fn count(cond: &Cond, outcome: bool) -> u32
    ensures { result ≡ reported (count_of outcome (cond_tree cond.now)) }
{
    let mut tally = Tally { times: 1, plus: 0 };
    let mut rest = cond;
    loop {
        match rest {
            Cond::Always => return tally.total(u32::from(outcome)),
            Cond::Test(how, _, _) => return tally.total(count_of_test(asked(outcome, *how))),
            Cond::Not(inner) => return tally.total(count(inner, !outcome)),
            Cond::And(left, right) => {
                tally = tally.linked(outcome, count(right, outcome));
                rest = left;
            }
            Cond::Or(left, right) => {
                tally = tally.linked(!outcome, count(right, outcome));
                rest = left;
            }
        }
    }
}

/// What the links of a chain make of the count of its left end: a multiple of it, and more.
#[derive(Clone, Copy)]
struct Tally {
    times: u32,
    plus: u32,
}

impl Tally {
    /// The count of the whole chain.
    fn total(self, end: u32) -> u32
        requires small { IsSmall self }
        ensures { (n : ℕ) → end ≡ reported n → result ≡ reported (worth self n) }
    {
        sum(product(self.times, end.min(MAX_COUNT)), self.plus)
    }

    /// With one link more at the left end: it multiplies by its count, or adds it.
    fn linked(self, multiplies: bool, count: u32) -> Tally
        requires small { IsSmall self }
        ensures small { IsSmall result }
        ensures worth { (n m : ℕ) → count ≡ reported m →
            reported (worth result n) ≡ reported (worth self (cond multiplies (n * m) (n + m))) }
    {
        let scaled = product(self.times, count.min(MAX_COUNT));
        if multiplies {
            Tally {
                times: scaled,
                plus: self.plus,
            }
        } else {
            Tally {
                times: self.times,
                plus: sum(scaled, self.plus),
            }
        }
    }
}

/// The product of two counts, as it is reported.
pub fn product(left: u32, right: u32) -> u32
    requires left { left ≤ MAX_COUNT }
    requires right { right ≤ MAX_COUNT }
    ensures { result ≡ reported (left * right) }
{
    (left * right).min(MAX_COUNT)
}

/// The sum of two counts, as it is reported.
pub fn sum(left: u32, right: u32) -> u32
    requires left { left ≤ MAX_COUNT }
    requires right { right ≤ MAX_COUNT }
    ensures { result ≡ reported (left + right) }
{
    (left + right).min(MAX_COUNT)
}
