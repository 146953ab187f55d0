//! Prints cores and threads as structs, with their ranges.

ghost use Rattle.std.specs.Prelude.{◌≡◌, OnOk};
ghost use Rattle.std.specs.List.{flat_map};
ghost use Rattle.policy_tree.specs.Meaning.{meaning_of};
ghost use Rattle.c_printer.specs.Adds.{Prints};
ghost use Rattle.c_printer.specs.ExpressionTexts.{plain_texts, signed_texts};
ghost use Rattle.c_printer.specs.StructTexts.{constant_texts, constants_texts, core_struct_texts, cut_texts};
ghost use Rattle.c_printer.specs.StructTexts.{field_texts, limit_constant_texts, put_enum_texts, range_texts};
ghost use Rattle.c_printer.specs.StructTexts.{applied_texts, digit_text, list_texts, lists_texts};
ghost use Rattle.c_printer.specs.StructTexts.{structs_texts, thread_struct_texts, wide_texts};

use crate::printer::Printer;
use crate::wide_rules::is_wide_policy;
use crate::widths::{greatest_weight, least_weight};
use policy_tree::{Attr, Policy};
use sched_base::MAX_THREADS;
use std::alloc::AllocError;

impl Printer {
    pub(crate) fn structs(&mut self, policy: &Policy) -> Result<(), AllocError>
        ensures { OnOk result (Prints (structs_texts (meaning_of policy.now)) self.old self.new) }
    {
        self.constants(policy)?;
        self.lists(policy)?;
        self.wide_rules(policy)?;
        self.core_struct(policy)?;
        self.thread_struct(policy)?;
        self.put_enum(policy)?;
        self.cut(policy)
    }

    /// All ranges.
    fn constants(&mut self, policy: &Policy) -> Result<(), AllocError>
        ensures { OnOk result (Prints (constants_texts (meaning_of policy.now)) self.old self.new) }
    {
        self.word("\n")?;
        self.limit_constant(policy, "_NR_MAX ", MAX_THREADS as u64)?;
        let greatest = u64::from(greatest_weight(policy.load));
        self.limit_constant(policy, "_LOAD_MAX ", MAX_THREADS as u64 * greatest)?;
        self.limit_constant(policy, "_WEIGHT_MIN ", u64::from(least_weight(policy.load)))?;
        self.limit_constant(policy, "_WEIGHT_MAX ", greatest)?;
        self.ranges(policy, "_CORE_", policy.core_attrs.as_slice())?;
        self.ranges(policy, "_THREAD_", policy.thread_attrs.as_slice())
    }

    fn limit_constant(&mut self, policy: &Policy, word: &str, number: u64) -> Result<(), AllocError>
        ensures { OnOk result
            (Prints (limit_constant_texts (meaning_of policy.now) word.now number) self.old self.new) }
    {
        self.word("#define ")?;
        self.name(policy.name.as_slice())?;
        self.word(word)?;
        self.number(number)?;
        self.word("\n")
    }

    /// The ranges of attributes of that kind, of cores or of threads.
    fn ranges(&mut self, policy: &Policy, kind: &str, attrs: &[Attr]) -> Result<(), AllocError>
        ensures { OnOk result
            (Prints (flat_map (range_texts (meaning_of policy.now) kind.now) attrs.now) self.old self.new) }
    {
        for attr in attrs {
            self.range(policy, kind, attr)?;
        }
        Ok(())
    }

    fn range(&mut self, policy: &Policy, kind: &str, attr: &Attr) -> Result<(), AllocError>
        ensures { OnOk result
            (Prints (range_texts (meaning_of policy.now) kind.now attr.now) self.old self.new) }
    {
        self.constant(policy, kind, "MIN_", attr)?;
        self.low(attr)?;
        self.word("\n")?;
        self.constant(policy, kind, "MAX_", attr)?;
        self.high(attr)?;
        self.word("\n")?;
        self.constant(policy, kind, "START_", attr)?;
        self.start(attr)?;
        self.word("\n")
    }

    /// A constant of an attribute, but for its number.
    fn constant(
        &mut self,
        policy: &Policy,
        kind: &str,
        end: &str,
        attr: &Attr,
    ) -> Result<(), AllocError>
        ensures { OnOk result (Prints
            (constant_texts (meaning_of policy.now) kind.now end.now attr.now) self.old self.new) }
    {
        self.word("#define ")?;
        self.name(policy.name.as_slice())?;
        self.word(kind)?;
        self.word(end)?;
        self.name(attr.name.as_slice())?;
        self.word(" ")
    }

    fn low(&mut self, attr: &Attr) -> Result<(), AllocError>
        ensures { OnOk result (Prints (plain_texts attr.now.lo) self.old self.new) }
    {
        self.plain(attr.lo)
    }

    fn high(&mut self, attr: &Attr) -> Result<(), AllocError>
        ensures { OnOk result (Prints (plain_texts attr.now.hi) self.old self.new) }
    {
        self.plain(attr.hi)
    }

    fn start(&mut self, attr: &Attr) -> Result<(), AllocError>
        ensures { OnOk result (Prints (plain_texts attr.now.start) self.old self.new) }
    {
        self.plain(attr.start)
    }

    /// The attributes as lists that a macro can walk.
    fn lists(&mut self, policy: &Policy) -> Result<(), AllocError>
        ensures { OnOk result (Prints (lists_texts (meaning_of policy.now)) self.old self.new) }
    {
        self.word(
            "\n/* The attributes of cores and of threads: each is given to a macro X of one parameter. */\n",
        )?;
        self.list(policy, "_CORE_ATTRS(X)", policy.core_attrs.as_slice())?;
        self.list(policy, "_THREAD_ATTRS(X)", policy.thread_attrs.as_slice())
    }

    fn list(&mut self, policy: &Policy, word: &str, attrs: &[Attr]) -> Result<(), AllocError>
        ensures { OnOk result
            (Prints (list_texts (meaning_of policy.now) word.now attrs.now) self.old self.new) }
    {
        self.word("#define ")?;
        self.name(policy.name.as_slice())?;
        self.word(word)?;
        self.applications(attrs)?;
        self.word("\n")
    }

    fn applications(&mut self, attrs: &[Attr]) -> Result<(), AllocError>
        ensures { OnOk result (Prints (flat_map applied_texts attrs.now) self.old self.new) }
    {
        for attr in attrs {
            self.applied(attr)?;
        }
        Ok(())
    }

    /// The macro, applied to the attribute's name.
    fn applied(&mut self, attr: &Attr) -> Result<(), AllocError>
        ensures { OnOk result (Prints (applied_texts attr.now) self.old self.new) }
    {
        self.word(" X(")?;
        self.name(attr.name.as_slice())?;
        self.word(")")
    }

    /// Whether some rule needs a type that not every compiler has.
    fn wide_rules(&mut self, policy: &Policy) -> Result<(), AllocError>
        ensures { OnOk result (Prints (wide_texts (meaning_of policy.now)) self.old self.new) }
    {
        self.word(
            "\n/* 1 where a rule is computed in __int128, which compilers for 32 bits and for BPF lack, else 0. */\n",
        )?;
        self.word("#define ")?;
        self.name(policy.name.as_slice())?;
        self.word("_WIDE ")?;
        self.word(digit_text(is_wide_policy(policy)))
    }

    fn core_struct(&mut self, policy: &Policy) -> Result<(), AllocError>
        ensures { OnOk result (Prints (core_struct_texts (meaning_of policy.now)) self.old self.new) }
    {
        self.word("\n/* A core, as another core may see it. */\nstruct ")?;
        self.name(policy.name.as_slice())?;
        self.word("_core {\n")?;
        self.word("\tint64_t nr; /* its threads, the running one counted: from 0 to ")?;
        self.number(MAX_THREADS as u64)?;
        self.word(" */\n\tint64_t load; /* the sum of their weights: from 0 to ")?;
        self.number(MAX_THREADS as u64 * u64::from(greatest_weight(policy.load)))?;
        self.word(" */\n")?;
        self.fields(policy.core_attrs.as_slice())?;
        self.word("};\n")
    }

    fn thread_struct(&mut self, policy: &Policy) -> Result<(), AllocError>
        ensures { OnOk result (Prints (thread_struct_texts (meaning_of policy.now)) self.old self.new) }
    {
        self.word("\n/* A thread. */\nstruct ")?;
        self.name(policy.name.as_slice())?;
        self.word("_thread {\n\tint64_t weight; /* from ")?;
        self.number(u64::from(least_weight(policy.load)))?;
        self.word(" to ")?;
        self.number(u64::from(greatest_weight(policy.load)))?;
        self.word(" */\n")?;
        self.fields(policy.thread_attrs.as_slice())?;
        self.word("};\n")
    }

    fn fields(&mut self, attrs: &[Attr]) -> Result<(), AllocError>
        ensures { OnOk result (Prints (flat_map field_texts attrs.now) self.old self.new) }
    {
        for attr in attrs {
            self.attr_field(attr)?;
        }
        Ok(())
    }

    /// A field with its range.
    fn attr_field(&mut self, attr: &Attr) -> Result<(), AllocError>
        ensures { OnOk result (Prints (field_texts attr.now) self.old self.new) }
    {
        self.word("\tint64_t attr_")?;
        self.name(attr.name.as_slice())?;
        self.word("; /* from ")?;
        self.least(attr)?;
        self.word(" to ")?;
        self.greatest(attr)?;
        self.word(", begins as ")?;
        self.beginning(attr)?;
        self.word(" */\n")
    }

    fn least(&mut self, attr: &Attr) -> Result<(), AllocError>
        ensures { OnOk result (Prints (signed_texts attr.now.lo) self.old self.new) }
    {
        self.signed(attr.lo)
    }

    fn greatest(&mut self, attr: &Attr) -> Result<(), AllocError>
        ensures { OnOk result (Prints (signed_texts attr.now.hi) self.old self.new) }
    {
        self.signed(attr.hi)
    }

    fn beginning(&mut self, attr: &Attr) -> Result<(), AllocError>
        ensures { OnOk result (Prints (signed_texts attr.now.start) self.old self.new) }
    {
        self.signed(attr.start)
    }

    /// Where an event puts a thread.
    fn put_enum(&mut self, policy: &Policy) -> Result<(), AllocError>
        ensures { OnOk result (Prints (put_enum_texts (meaning_of policy.now)) self.old self.new) }
    {
        self.word(
            "\n/* Where an event puts a thread: at the queue's end, still running, or among the blocked. */\n",
        )?;
        self.word("enum ")?;
        self.name(policy.name.as_slice())?;
        self.word("_put { ")?;
        self.name(policy.name.as_slice())?;
        self.word("_put_queue, ")?;
        self.name(policy.name.as_slice())?;
        self.word("_put_keep, ")?;
        self.name(policy.name.as_slice())?;
        self.word("_put_block };\n")
    }

    /// What brings a value to the nearest end of a range.
    fn cut(&mut self, policy: &Policy) -> Result<(), AllocError>
        ensures { OnOk result (Prints (cut_texts (meaning_of policy.now)) self.old self.new) }
    {
        self.word("\nstatic inline int64_t\n")?;
        self.name(policy.name.as_slice())?;
        self.word("_cut(int64_t value, int64_t least, int64_t greatest)\n{\n")?;
        self.word("\treturn value < least ? least : value > greatest ? greatest : value;\n}\n")
    }
}

fn digit_text(holds: bool) -> &'static str
    ensures { result.now ≡ digit_text holds }
{
    if holds { "1\n" } else { "0\n" }
}
