//! Prints conditions.

ghost use Rattle.std.specs.Prelude.{◌≡◌, OnOk};
ghost use Rattle.policy_tree.specs.Meaning.{meaning_of};
ghost use Rattle.policy_tree.specs.Trees.{cond_tree, expr_tree};
ghost use Rattle.c_printer.specs.Adds.{Prints};
ghost use Rattle.c_printer.specs.ConditionTexts.{cond_texts, opens_both, opens_cond, opens_either, opens_test};
ghost use Rattle.c_printer.specs.ConditionTexts.{test_texts};
ghost use Rattle.c_printer.specs.ExpressionTexts.{enclosed};

use crate::printer::Printer;
use crate::words::{Place, View, closing_text, compare_text, opening_text};
use policy_tree::{Cmp, Cond, Expr, Policy};
use std::alloc::AllocError;

impl Printer {
    /// A condition.
    #[cycle(nested)]
    pub(crate) fn condition(
        &mut self,
        policy: &Policy,
        view: View,
        cond: &Cond,
    ) -> Result<(), AllocError>
        ensures { OnOk result
            (Prints (cond_texts (meaning_of policy.now) view (cond_tree cond.now)) self.old self.new) }
    {
        match cond {
            Cond::Always => self.word("true"),
            Cond::Not(inner) => {
                self.word("!")?;
                self.part(policy, view, Place::Negated, inner)
            }
            Cond::And(left, right) => {
                self.part(policy, view, Place::LeftOfAnd, left)?;
                self.word(" && ")?;
                self.part(policy, view, Place::Right, right)
            }
            Cond::Or(left, right) => {
                self.part(policy, view, Place::LeftOfOr, left)?;
                self.word(" || ")?;
                self.part(policy, view, Place::Right, right)
            }
            Cond::Test(compare, left, right) => self.test(policy, view, *compare, left, right),
        }
    }

    /// A comparison.
    fn test(
        &mut self,
        policy: &Policy,
        view: View,
        compare: Cmp,
        left: &Expr,
        right: &Expr,
    ) -> Result<(), AllocError>
        ensures { OnOk result (Prints
            (test_texts (meaning_of policy.now) view compare (expr_tree left.now) (expr_tree right.now))
            self.old self.new) }
    {
        self.value(policy, view, left)?;
        self.word(compare_text(compare))?;
        self.value(policy, view, right)
    }

    /// A part of a condition, in parentheses where those are needed.
    #[cycle(nested)]
    fn part(
        &mut self,
        policy: &Policy,
        view: View,
        place: Place,
        cond: &Cond,
    ) -> Result<(), AllocError>
        ensures { OnOk result (Prints
            (enclosed (opens_cond place (cond_tree cond.now))
            (cond_texts (meaning_of policy.now) view (cond_tree cond.now)))
            self.old self.new) }
    {
        let opens = opens_cond(place, cond);
        self.word(opening_text(opens))?;
        self.condition(policy, view, cond)?;
        self.word(closing_text(opens))
    }
}

/// Whether parentheses stand round the condition there.
fn opens_cond(place: Place, cond: &Cond) -> bool
    ensures { result ≡ opens_cond place (cond_tree cond.now) }
{
    match cond {
        Cond::Always | Cond::Not(_) => false,
        Cond::And(_, _) => opens_both(place),
        Cond::Or(_, _) => opens_either(place),
        Cond::Test(_, _, _) => opens_test(place),
    }
}

fn opens_both(place: Place) -> bool
    ensures { result ≡ opens_both place }
{
    match place {
        Place::LeftOfAnd => false,
        Place::LeftOfOr | Place::Right | Place::Negated => true,
    }
}

fn opens_either(place: Place) -> bool
    ensures { result ≡ opens_either place }
{
    match place {
        Place::LeftOfOr => false,
        Place::LeftOfAnd | Place::Right | Place::Negated => true,
    }
}

fn opens_test(place: Place) -> bool
    ensures { result ≡ opens_test place }
{
    match place {
        Place::LeftOfAnd | Place::LeftOfOr | Place::Right => false,
        Place::Negated => true,
    }
}
