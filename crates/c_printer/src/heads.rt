//! Prints what stands before and behind everything else.

ghost use Rattle.std.specs.Prelude.{OnOk};
ghost use Rattle.policy_tree.specs.Meaning.{meaning_of};
ghost use Rattle.c_printer.specs.Adds.{Prints};
ghost use Rattle.c_printer.specs.HeadTexts.{accepted_texts, attempt_texts, comment_texts, foot_texts, head_texts};
ghost use Rattle.c_printer.specs.HeadTexts.{owed_texts};

use crate::printer::Printer;
use crate::words::{HeaderKind, accepted_text};
use policy_tree::Policy;
use sched_base::MAX_THREADS;
use std::alloc::AllocError;

impl Printer {
    /// The comment at the head: what was accepted, and what is proved of it.
    pub(crate) fn comment(&mut self, policy: &Policy) -> Result<(), AllocError>
        ensures { OnOk result (Prints (comment_texts (meaning_of policy.now)) self.old self.new) }
    {
        self.word("/*\n * The scheduling policy ")?;
        self.name(policy.name.as_slice())?;
        self.word(" as C99, printed from its text. Change the text,\n")?;
        self.word(" * and print it again.\n *\n")?;
        self.owed()
    }

    /// What is so in the model of which laws are proved.
    fn owed(&mut self) -> Result<(), AllocError>
        ensures { OnOk result (Prints owed_texts self.old self.new) }
    {
        self.word(" * The policy was accepted: it meets what policies owe. The laws of such\n")?;
        self.word(
            " * policies are proved of a model, and of no balancer. In the model it is so:\n",
        )?;
        self.word(" * - There are at most ")?;
        self.number(MAX_THREADS as u64)?;
        self.word(" threads in all, on any number of cores.\n")?;
        self.word(" * - The load of a core is the sum of the weights of its threads, the\n")?;
        self.word(" *   running one counted. A core that has threads runs one of them.\n")?;
        self.word(" * - Weights and attributes lie in their ranges. Neither weights nor the\n")?;
        self.word(" *   attributes of cores change.\n")?;
        self.attempts()
    }

    /// What an attempt is.
    fn attempts(&mut self) -> Result<(), AllocError>
        ensures { OnOk result (Prints attempt_texts self.old self.new) }
    {
        self.word(" * - In a round each core makes one attempt. It reads count and load of\n")?;
        self.word(" *   each core at one moment, which isn't before the start of the round.\n")?;
        self.word(" *   Of the cores of which the filter holds it takes the best, of equals\n")?;
        self.word(" *   the one with the lowest number.\n")?;
        self.word(" * - Both cores are held while the filter is asked again and threads are\n")?;
        self.word(" *   moved. They are moved out of the victim's queue, the best first. The\n")?;
        self.word(" *   one that runs stays.\n")?;
        self.word(" * - The next round begins once each core has made its attempt.\n")?;
        self.word(" * No proof of this project speaks of C. tools/prove_c has frama-c prove\n")?;
        self.word(" * that each function is the policy's rule.\n */\n")
    }

    /// What the functions need of the compiler.
    pub(crate) fn head(&mut self, policy: &Policy) -> Result<(), AllocError>
        ensures { OnOk result (Prints (head_texts (meaning_of policy.now)) self.old self.new) }
    {
        self.word("#ifndef ")?;
        self.name(policy.name.as_slice())?;
        self.word("_POLICY_H\n#define ")?;
        self.name(policy.name.as_slice())?;
        self.word("_POLICY_H\n\n")?;
        self.word("#if defined(__KERNEL__)\n#include <linux/types.h>\n")?;
        self.word("#elif !defined(__VMLINUX_H__) /* which has these types */\n")?;
        self.word("#include <stdbool.h>\n#include <stdint.h>\n#endif\n\n")?;
        self.word("/* A rule need not look at all that it is given, and may compare a number\n")?;
        self.word(" * with itself.\n */\n")?;
        self.word("#ifdef __GNUC__\n#pragma GCC diagnostic push\n")?;
        self.word("#pragma GCC diagnostic ignored \"-Wunused-parameter\"\n")?;
        self.word("#pragma GCC diagnostic ignored \"-Wtautological-compare\"\n#endif\n")
    }

    /// Whether the policy was accepted, as a macro.
    pub(crate) fn accepted(&mut self, policy: &Policy, kind: HeaderKind) -> Result<(), AllocError>
        ensures { OnOk result (Prints (accepted_texts kind (meaning_of policy.now)) self.old self.new) }
    {
        self.word("\n/* 1 where the policy was accepted, 0 in a draft. */\n#define ")?;
        self.name(policy.name.as_slice())?;
        self.word("_ACCEPTED ")?;
        self.word(accepted_text(kind))
    }

    pub(crate) fn foot(&mut self) -> Result<(), AllocError>
        ensures { OnOk result (Prints foot_texts self.old self.new) }
    {
        self.word("\n#ifdef __GNUC__\n#pragma GCC diagnostic pop\n#endif\n\n#endif\n")
    }
}
