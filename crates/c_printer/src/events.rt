//! Prints what events do.

ghost use Rattle.std.specs.Prelude.{◌≡◌, OnOk, map};
ghost use Rattle.policy_tree.specs.Meaning.{case_tree, meaning_of, set_tree};
ghost use Rattle.policy_tree.specs.Trees.{cond_tree, expr_tree};
ghost use Rattle.c_printer.specs.Adds.{Prints};
ghost use Rattle.c_printer.specs.EventTexts.{cases_texts, event_head_texts, guarded_texts, handler_texts, is_always};
ghost use Rattle.c_printer.specs.EventTexts.{end_texts, narrow_texts, outcome_texts, set_texts};
ghost use Rattle.c_printer.specs.EventTexts.{wide_cut_texts, wide_texts};

use crate::expressions::attribute_name;
use crate::printer::Printer;
use crate::widths::width_of;
use crate::words::{View, Width, event_comment, event_text, fresh_text, put_text};
use policy_tree::{Case, Cond, Event, Expr, Policy, Set};
use std::alloc::AllocError;

impl Printer {
    /// The function of one event.
    pub(crate) fn handler(&mut self, policy: &Policy, event: Event) -> Result<(), AllocError>
        ensures { OnOk result (Prints (handler_texts (meaning_of policy.now) event) self.old self.new) }
    {
        self.event_head(policy, event)?;
        self.cases(policy, policy.handlers.cases(event).as_slice())?;
        self.word("}\n")
    }

    fn event_head(&mut self, policy: &Policy, event: Event) -> Result<(), AllocError>
        ensures { OnOk result (Prints (event_head_texts (meaning_of policy.now) event) self.old self.new) }
    {
        self.word(event_comment(event))?;
        self.word("static inline enum ")?;
        self.name(policy.name.as_slice())?;
        self.word("_put\n")?;
        self.name(policy.name.as_slice())?;
        self.word("_on_")?;
        self.word(event_text(event))?;
        self.word("(")?;
        self.core(policy, "self")?;
        self.word(", struct ")?;
        self.name(policy.name.as_slice())?;
        self.word("_thread *thread")?;
        self.word(fresh_text(event))?;
        self.word(")\n{\n")
    }

    /// The cases, up to one that always holds.
    fn cases(&mut self, policy: &Policy, cases: &[Case]) -> Result<(), AllocError>
        ensures { OnOk result
            (Prints (cases_texts (meaning_of policy.now) (map case_tree cases.now)) self.old self.new) }
    {
        for case in cases {
            if is_always(&case.guard) {
                return self.outcome(policy, "\t", case);
            }
            self.guarded(policy, case)?;
        }
        self.word(
            "\t/* Not reached: of a policy that can be played one case holds. */\n\treturn ",
        )?;
        self.name(policy.name.as_slice())?;
        self.word("_put_queue;\n")
    }

    fn guarded(&mut self, policy: &Policy, case: &Case) -> Result<(), AllocError>
        ensures { OnOk result
            (Prints (guarded_texts (meaning_of policy.now) (case_tree case.now)) self.old self.new) }
    {
        self.word("\tif (")?;
        self.condition(policy, View::Named, &case.guard)?;
        self.word(") {\n")?;
        self.outcome(policy, "\t\t", case)?;
        self.word("\t}\n")
    }

    /// What a case does.
    fn outcome(&mut self, policy: &Policy, indent: &str, case: &Case) -> Result<(), AllocError>
        ensures { OnOk result (Prints
            (outcome_texts (meaning_of policy.now) indent.now (case_tree case.now)) self.old self.new) }
    {
        for set in case.sets.as_slice() {
            self.set(policy, indent, set)?;
        }
        self.word(indent)?;
        self.word("return ")?;
        self.name(policy.name.as_slice())?;
        self.word(put_text(case.put))?;
        self.word(";\n")
    }

    /// An assignment.
    fn set(&mut self, policy: &Policy, indent: &str, set: &Set) -> Result<(), AllocError>
        ensures { OnOk result (Prints
            (set_texts (meaning_of policy.now) indent.now (set_tree set.now)) self.old self.new) }
    {
        let name = attribute_name(&policy.thread_attrs, set.attr);
        match width_of(policy, &set.expr) {
            Width::Small | Width::Long => self.narrow(policy, indent, name, &set.expr),
            Width::Wide => self.wide(policy, indent, name, &set.expr),
        }
    }

    /// An assignment of a value that fits.
    fn narrow(
        &mut self,
        policy: &Policy,
        indent: &str,
        name: &[u8],
        expr: &Expr,
    ) -> Result<(), AllocError>
        ensures { OnOk result (Prints
            (narrow_texts (meaning_of policy.now) indent.now name.now (expr_tree expr.now))
            self.old self.new) }
    {
        self.word(indent)?;
        self.word("thread->attr_")?;
        self.name(name)?;
        self.word(" = ")?;
        self.name(policy.name.as_slice())?;
        self.word("_cut(")?;
        self.value(policy, View::Named, expr)?;
        self.word(", ")?;
        self.end(policy, "_THREAD_MIN_", name)?;
        self.word(", ")?;
        self.end(policy, "_THREAD_MAX_", name)?;
        self.word(");\n")
    }

    /// An assignment of a wider value.
    fn wide(
        &mut self,
        policy: &Policy,
        indent: &str,
        name: &[u8],
        expr: &Expr,
    ) -> Result<(), AllocError>
        ensures { OnOk result (Prints
            (wide_texts (meaning_of policy.now) indent.now name.now (expr_tree expr.now))
            self.old self.new) }
    {
        self.word(indent)?;
        self.word("{\n")?;
        self.word(indent)?;
        self.word("\t__extension__ const __int128 value = ")?;
        self.value(policy, View::Named, expr)?;
        self.word(";\n")?;
        self.wide_cut(policy, indent, name)?;
        self.word(indent)?;
        self.word("}\n")
    }

    /// The value, cut before it is made narrow.
    fn wide_cut(&mut self, policy: &Policy, indent: &str, name: &[u8]) -> Result<(), AllocError>
        ensures { OnOk result (Prints
            (wide_cut_texts (meaning_of policy.now) indent.now name.now) self.old self.new) }
    {
        self.word(indent)?;
        self.word("\tthread->attr_")?;
        self.name(name)?;
        self.word(" = value < ")?;
        self.end(policy, "_THREAD_MIN_", name)?;
        self.word(" ? ")?;
        self.end(policy, "_THREAD_MIN_", name)?;
        self.word(" : value > ")?;
        self.end(policy, "_THREAD_MAX_", name)?;
        self.word(" ? ")?;
        self.end(policy, "_THREAD_MAX_", name)?;
        self.word(" : (int64_t)value;\n")
    }

    /// An end of the range of an attribute of threads.
    fn end(&mut self, policy: &Policy, word: &str, name: &[u8]) -> Result<(), AllocError>
        ensures { OnOk result (Prints
            (end_texts (meaning_of policy.now) word.now name.now) self.old self.new) }
    {
        self.name(policy.name.as_slice())?;
        self.word(word)?;
        self.name(name)
    }
}

/// Whether the condition is the one that always holds.
fn is_always(cond: &Cond) -> bool
    ensures { result ≡ is_always (cond_tree cond.now) }
{
    match cond {
        Cond::Always => true,
        Cond::Not(_) | Cond::And(_, _) | Cond::Or(_, _) | Cond::Test(_, _, _) => false,
    }
}
