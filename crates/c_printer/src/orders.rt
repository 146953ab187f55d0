//! Prints the filter, orders, the placement and the batch.

ghost use Rattle.std.specs.Prelude.{OnOk, option_map};
ghost use Rattle.policy_tree.specs.Meaning.{batch_tree, key_tree, meaning_of, order_tree};
ghost use Rattle.policy_tree.specs.Trees.{cond_tree, expr_tree};
ghost use Rattle.c_printer.specs.Adds.{Prints};
ghost use Rattle.c_printer.specs.OrderTexts.{asked_texts, batch_texts, choose_texts, core_texts, elect_texts};
ghost use Rattle.c_printer.specs.OrderTexts.{filter_texts, key_texts, order_texts, pair_texts, place_texts};
ghost use Rattle.c_printer.specs.OrderTexts.{ranked_texts, steal_texts, thread_texts, two_cores_texts};
ghost use Rattle.c_printer.specs.OrderTexts.{going_on_texts, limit_texts, placed_texts, preferred_texts};
ghost use Rattle.c_printer.specs.OrderTexts.{never_placed_texts, not_going_on_texts, two_threads_texts};

use crate::printer::Printer;
use crate::words::View;
use policy_tree::{Cond, Expr, Key, Order, PlaceRule, Policy};
use std::alloc::AllocError;

impl Printer {
    pub(crate) fn filter(&mut self, policy: &Policy) -> Result<(), AllocError>
        ensures { OnOk result (Prints (filter_texts (meaning_of policy.now)) self.old self.new) }
    {
        self.asked(
            policy,
            "\n/* Whether self may take a thread from victim. Ask it in a choice, and again with both cores held. */\n",
            "_may_steal",
        )?;
        self.two_cores(policy, "self", "victim")?;
        self.word(")\n{\n\treturn ")?;
        self.condition(policy, View::Named, &policy.filter)?;
        self.word(";\n}\n")
    }

    pub(crate) fn choose(&mut self, policy: &Policy) -> Result<(), AllocError>
        ensures { OnOk result (Prints (choose_texts (meaning_of policy.now)) self.old self.new) }
    {
        self.asked(
            policy,
            "\n/* Whether self chooses a rather than b. Of equals it chooses the core with the lowest number. */\n",
            "_choose_before",
        )?;
        self.core(policy, "self")?;
        self.word(", ")?;
        self.two_cores(policy, "a", "b")?;
        self.order(policy, &policy.choose)
    }

    pub(crate) fn elect(&mut self, policy: &Policy) -> Result<(), AllocError>
        ensures { OnOk result (Prints (elect_texts (meaning_of policy.now)) self.old self.new) }
    {
        self.asked(
            policy,
            "\n/* Whether a runs rather than b. Of equals the one that stands first in the queue runs. */\n",
            "_elect_before",
        )?;
        self.two_threads(policy)?;
        self.order(policy, &policy.elect)
    }

    pub(crate) fn steal(&mut self, policy: &Policy) -> Result<(), AllocError>
        ensures { OnOk result (Prints (steal_texts (meaning_of policy.now)) self.old self.new) }
    {
        self.asked(
            policy,
            "\n/* Whether a is stolen rather than b. Of equals the one that stands first in the queue is stolen. */\n",
            "_steal_before",
        )?;
        self.two_threads(policy)?;
        self.order(policy, &policy.steal)
    }

    /// Where a thread is placed.
    pub(crate) fn place(&mut self, policy: &Policy) -> Result<(), AllocError>
        ensures { OnOk result (Prints (place_texts (meaning_of policy.now)) self.old self.new) }
    {
        self.word("\n/* 1 where a thread stays on the core that lets it in, else 0. */\n#define ")?;
        self.name(policy.name.as_slice())?;
        match &policy.place {
            PlaceRule::Here => {
                self.word("_PLACE_HERE 1\n")?;
                self.never_placed(policy)
            }
            PlaceRule::Least(expr) => {
                self.word("_PLACE_HERE 0\n")?;
                self.placed(policy, expr)
            }
        }
    }

    /// Which of two cores a thread is placed on.
    fn placed(&mut self, policy: &Policy, expr: &Expr) -> Result<(), AllocError>
        ensures { OnOk result
            (Prints (placed_texts (meaning_of policy.now) (expr_tree expr.now)) self.old self.new) }
    {
        self.asked(
            policy,
            "\n/* Whether a thread is placed on a rather than on b. Of equals it is the lowest number. */\n",
            "_place_before",
        )?;
        self.two_cores(policy, "a", "b")?;
        self.word(")\n{\n\treturn ")?;
        self.pair(policy, " < ", expr)?;
        self.word(";\n}\n")
    }

    /// The same where a thread stays on the core that lets it in.
    fn never_placed(&mut self, policy: &Policy) -> Result<(), AllocError>
        ensures { OnOk result (Prints (never_placed_texts (meaning_of policy.now)) self.old self.new) }
    {
        self.asked(
            policy,
            "\n/* Not asked: a thread stays on the core that lets it in. */\n",
            "_place_before",
        )?;
        self.two_cores(policy, "a", "b")?;
        self.word(")\n{\n\treturn false;\n}\n")
    }

    /// When a steal goes on to another thread.
    pub(crate) fn batch(&mut self, policy: &Policy) -> Result<(), AllocError>
        ensures { OnOk result (Prints
            (batch_texts (meaning_of policy.now) (option_map batch_tree policy.now.batch))
            self.old self.new) }
    {
        match &policy.batch {
            None => {
                self.limit(policy, 1)?;
                self.not_going_on(policy)
            }
            Some(batch) => {
                self.limit(policy, batch.limit)?;
                self.going_on(policy, &batch.cond)
            }
        }
    }

    fn limit(&mut self, policy: &Policy, limit: u32) -> Result<(), AllocError>
        ensures { OnOk result (Prints (limit_texts (meaning_of policy.now) limit) self.old self.new) }
    {
        self.word("\n/* The most threads that one steal moves. */\n#define ")?;
        self.name(policy.name.as_slice())?;
        self.word("_STEAL_LIMIT ")?;
        self.number(u64::from(limit))?;
        self.word("\n")
    }

    fn going_on(&mut self, policy: &Policy, cond: &Cond) -> Result<(), AllocError>
        ensures { OnOk result
            (Prints (going_on_texts (meaning_of policy.now) (cond_tree cond.now)) self.old self.new) }
    {
        self.asked(
            policy,
            "\n/* Whether a steal goes on to this thread, with both cores as the moves so far left them. */\n",
            "_steal_on",
        )?;
        self.two_cores(policy, "self", "victim")?;
        self.word(",\n\t")?;
        self.thread(policy, "thread")?;
        self.word(")\n{\n\treturn ")?;
        self.condition(policy, View::Named, cond)?;
        self.word(";\n}\n")
    }

    /// The same where a steal moves one thread.
    fn not_going_on(&mut self, policy: &Policy) -> Result<(), AllocError>
        ensures { OnOk result (Prints (not_going_on_texts (meaning_of policy.now)) self.old self.new) }
    {
        self.asked(
            policy,
            "\n/* Not asked: a steal moves one thread. */\n",
            "_steal_on",
        )?;
        self.two_cores(policy, "self", "victim")?;
        self.word(",\n\t")?;
        self.thread(policy, "thread")?;
        self.word(")\n{\n\treturn false;\n}\n")
    }

    /// The head of a function that answers whether, up to its parameters.
    fn asked(&mut self, policy: &Policy, comment: &str, word: &str) -> Result<(), AllocError>
        ensures { OnOk result
            (Prints (asked_texts (meaning_of policy.now) comment.now word.now) self.old self.new) }
    {
        self.word(comment)?;
        self.word("static inline bool\n")?;
        self.name(policy.name.as_slice())?;
        self.word(word)?;
        self.word("(")
    }

    /// A parameter that is a core.
    pub(crate) fn core(&mut self, policy: &Policy, word: &str) -> Result<(), AllocError>
        ensures { OnOk result (Prints (core_texts (meaning_of policy.now) word.now) self.old self.new) }
    {
        self.word("const struct ")?;
        self.name(policy.name.as_slice())?;
        self.word("_core *")?;
        self.word(word)
    }

    /// A parameter that is a thread.
    fn thread(&mut self, policy: &Policy, word: &str) -> Result<(), AllocError>
        ensures { OnOk result (Prints (thread_texts (meaning_of policy.now) word.now) self.old self.new) }
    {
        self.word("const struct ")?;
        self.name(policy.name.as_slice())?;
        self.word("_thread *")?;
        self.word(word)
    }

    fn two_cores(&mut self, policy: &Policy, one: &str, other: &str) -> Result<(), AllocError>
        ensures { OnOk result
            (Prints (two_cores_texts (meaning_of policy.now) one.now other.now) self.old self.new) }
    {
        self.core(policy, one)?;
        self.word(", ")?;
        self.core(policy, other)
    }

    fn two_threads(&mut self, policy: &Policy) -> Result<(), AllocError>
        ensures { OnOk result (Prints (two_threads_texts (meaning_of policy.now)) self.old self.new) }
    {
        self.thread(policy, "a")?;
        self.word(", ")?;
        self.thread(policy, "b")
    }

    /// The body of an order: the first key that tells the two apart decides.
    fn order(&mut self, policy: &Policy, order: &Order) -> Result<(), AllocError>
        ensures { OnOk result
            (Prints (order_texts (meaning_of policy.now) (order_tree order.now)) self.old self.new) }
    {
        self.word(")\n{\n")?;
        for key in order.as_slice() {
            self.key(policy, key)?;
        }
        self.word("\treturn false;\n}\n")
    }

    fn key(&mut self, policy: &Policy, key: &Key) -> Result<(), AllocError>
        ensures { OnOk result
            (Prints (key_texts (meaning_of policy.now) (key_tree key.now)) self.old self.new) }
    {
        match key {
            Key::Least(expr) => self.ranked(policy, " < ", expr),
            Key::Greatest(expr) => self.ranked(policy, " > ", expr),
            Key::Prefer(cond) => self.preferred(policy, cond),
        }
    }

    /// A key by values.
    fn ranked(&mut self, policy: &Policy, sign: &str, expr: &Expr) -> Result<(), AllocError>
        ensures { OnOk result
            (Prints (ranked_texts (meaning_of policy.now) sign.now (expr_tree expr.now)) self.old self.new) }
    {
        self.word("\tif (")?;
        self.pair(policy, " != ", expr)?;
        self.word(")\n\t\treturn ")?;
        self.pair(policy, sign, expr)?;
        self.word(";\n")
    }

    /// The value of the first, the sign, and the value of the second.
    fn pair(&mut self, policy: &Policy, sign: &str, expr: &Expr) -> Result<(), AllocError>
        ensures { OnOk result
            (Prints (pair_texts (meaning_of policy.now) sign.now (expr_tree expr.now)) self.old self.new) }
    {
        self.value(policy, View::First, expr)?;
        self.word(sign)?;
        self.value(policy, View::Second, expr)
    }

    /// A key by a condition.
    fn preferred(&mut self, policy: &Policy, cond: &Cond) -> Result<(), AllocError>
        ensures { OnOk result
            (Prints (preferred_texts (meaning_of policy.now) (cond_tree cond.now)) self.old self.new) }
    {
        self.word("\tif ((")?;
        self.condition(policy, View::First, cond)?;
        self.word(") != (")?;
        self.condition(policy, View::Second, cond)?;
        self.word("))\n\t\treturn ")?;
        self.condition(policy, View::First, cond)?;
        self.word(";\n")
    }
}
