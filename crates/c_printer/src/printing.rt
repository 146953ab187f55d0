//! The C header of a policy.

ghost use Rattle.std.specs.Prelude.{◌≡◌, IfOk, OnOk};
ghost use Rattle.policy_tree.specs.Meaning.{meaning_of};
ghost use Rattle.c_printer.specs.Adds.{Prints};
ghost use Rattle.c_printer.specs.CText.{body_texts, c_body, c_text, events_texts, header_texts, rules_texts};

use crate::printer::Printer;
use crate::words::HeaderKind;
use policy_tree::{Event, Policy};
use std::alloc::{AllocError, Global};

/// The header: structs and ranges, the filter, orders, and what events do, each as a small function of C99. It says
/// that the policy was accepted. Whether it was is for the caller to see.
pub fn c_text(alloc: Global, policy: &Policy) -> Result<Vec<u8>, AllocError>
    ensures { IfOk result (λ text. text.items ≡ c_text (meaning_of policy.now)) }
{
    let mut printer = Printer {
        bytes: Vec::new(alloc),
    };
    printer.header(policy)?;
    let Printer { bytes } = printer;
    Ok(bytes)
}

/// The same without the comment at its head, of that kind. In both kinds it is the same but for the macro that tells
/// them apart.
pub fn c_body(alloc: Global, policy: &Policy, kind: HeaderKind) -> Result<Vec<u8>, AllocError>
    ensures { IfOk result (λ text. text.items ≡ c_body kind (meaning_of policy.now)) }
{
    let mut printer = Printer {
        bytes: Vec::new(alloc),
    };
    printer.body(policy, kind)?;
    let Printer { bytes } = printer;
    Ok(bytes)
}

impl Printer {
    fn header(&mut self, policy: &Policy) -> Result<(), AllocError>
        ensures { OnOk result (Prints (header_texts (meaning_of policy.now)) self.old self.new) }
    {
        self.comment(policy)?;
        self.body(policy, HeaderKind::Accepted)
    }

    /// All but the comment at the head.
    fn body(&mut self, policy: &Policy, kind: HeaderKind) -> Result<(), AllocError>
        ensures { OnOk result (Prints (body_texts kind (meaning_of policy.now)) self.old self.new) }
    {
        self.head(policy)?;
        self.accepted(policy, kind)?;
        self.structs(policy)?;
        self.rules(policy)?;
        self.events(policy)?;
        self.foot()
    }

    /// What says which of two comes first, and who may take from whom.
    fn rules(&mut self, policy: &Policy) -> Result<(), AllocError>
        ensures { OnOk result (Prints (rules_texts (meaning_of policy.now)) self.old self.new) }
    {
        self.filter(policy)?;
        self.choose(policy)?;
        self.steal(policy)?;
        self.batch(policy)?;
        self.place(policy)?;
        self.elect(policy)
    }

    /// What events do.
    fn events(&mut self, policy: &Policy) -> Result<(), AllocError>
        ensures { OnOk result (Prints (events_texts (meaning_of policy.now)) self.old self.new) }
    {
        self.handler(policy, Event::Enqueue)?;
        self.handler(policy, Event::Tick)?;
        self.handler(policy, Event::Yield)?;
        self.handler(policy, Event::Block)
    }
}
