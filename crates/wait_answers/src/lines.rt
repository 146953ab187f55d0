//! What is written of waiting.

ghost use Rattle.std.specs.Prelude.{◌≡◌, ◌++◌, IfOk, OnOk};
ghost use Rattle.policy_tree.specs.Meaning.{meaning_of};
ghost use Rattle.policy_answers.specs.Points.{attribute_name};
ghost use Rattle.wait_answers.specs.Waits.{class_word, forever_line, waits_text};

use policy_tree::{Attr, Policy};
use starving_plays::{Starving, WATCHED_FROM, add_numbered};
use std::alloc::{AllocError, Global};
use wait_classes::WaitClass;

/// The text of a class and of what was found where no law applies.
pub(crate) fn text_of(
    alloc: Global,
    policy: &Policy,
    class: WaitClass,
    starving: &Option<Starving>,
) -> Result<Vec<u8>, AllocError>
    ensures { IfOk result (λ text. text.items ≡ waits_text (meaning_of policy.now) class starving.now) }
{
    let mut text = Vec::from_slice(alloc, b"waits ")?;
    match starving {
        None => add_class(&mut text, policy, class)?,
        Some(starving) => {
            add_starving(&mut text, starving)?;
            text.extend_from_slice(starving.trace.as_slice())?;
        }
    }
    Ok(text)
}

/// Adds the words of a class, and the line's end.
fn add_class(text: &mut Vec<u8>, policy: &Policy, class: WaitClass) -> Result<(), AllocError>
    ensures { OnOk result (text.new.items ≡ text.old.items ++ class_word (meaning_of policy.now) class) }
{
    match class {
        WaitClass::Queue => text.extend_from_slice(b"queue\n"),
        WaitClass::Slices { keeps, .. } => {
            add_numbered(text, b"slices ", keeps)?;
            text.extend_from_slice(b"\n")
        }
        WaitClass::Least { attribute } => {
            text.extend_from_slice(b"least ")?;
            add_name(text, policy.thread_attrs.as_slice(), attribute)?;
            text.extend_from_slice(b"\n")
        }
        WaitClass::Unknown => text.extend_from_slice(b"unknown\n"),
    }
}

/// Adds the name of an attribute, and nothing for one that isn't there.
fn add_name(text: &mut Vec<u8>, attrs: &[Attr], at: u32) -> Result<(), AllocError>
    ensures { OnOk result (text.new.items ≡ text.old.items ++ attribute_name attrs.now at) }
{
    match attrs.get(at as usize) {
        Some(attr) => text.extend_from_slice(attr.name.as_slice()),
        None => Ok(()),
    }
}

/// Adds the thread that waits for ever, and two rounds that begin alike.
fn add_starving(text: &mut Vec<u8>, starving: &Starving) -> Result<(), AllocError>
    ensures { OnOk result (text.new.items ≡ text.old.items ++ forever_line starving.now) }
{
    add_numbered(text, b"forever thread ", starving.thread)?;
    add_numbered(text, b" rounds ", WATCHED_FROM)?;
    add_numbered(text, b" ", starving.round)?;
    text.extend_from_slice(b"\n")?;
    Ok(())
}
