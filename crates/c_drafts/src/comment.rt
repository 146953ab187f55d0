//! The comment at the head of a draft. A call that finds no memory leaves a part of what it adds.

ghost use Rattle.std.specs.Prelude.{[], ◌∷◌, OnOk, codes};
ghost use Rattle.std.specs.List.{flat_map};
ghost use Rattle.policy_tree.specs.Meaning.{meaning_of};
ghost use Rattle.obligations.specs.Names.{ob_text};
ghost use Rattle.c_printer.specs.Adds.{Adds};
ghost use Rattle.c_drafts.specs.Drafts.{about_texts, comment_texts, flaw_texts, told_texts};

use obligations::ObName;
use policy_checker::{Answered, Outcome};
use policy_tree::Policy;
use std::alloc::AllocError;

/// Adds the whole comment: why the policy isn't accepted, and what a draft is.
pub(crate) fn add_comment(
    text: &mut Vec<u8>,
    answers: &[Answered],
    policy: &Policy,
) -> Result<(), AllocError>
    ensures { OnOk result
        (Adds (comment_texts answers.now (meaning_of policy.now)) text.old.items text.new.items) }
{
    add_word(text, "/* ")?;
    add_name(text, policy.name.as_slice())?;
    add_word(text, " isn't accepted.")?;
    add_flaws(text, answers)?;
    add_about(text)
}

/// Adds what is told of these answers.
fn add_flaws(text: &mut Vec<u8>, answers: &[Answered]) -> Result<(), AllocError>
    ensures { OnOk result (Adds (flat_map flaw_texts answers.now) text.old.items text.new.items) }
{
    for answered in answers {
        add_flaw(text, answered)?;
    }
    Ok(())
}

/// Adds what is told of one answer.
fn add_flaw(text: &mut Vec<u8>, answered: &Answered) -> Result<(), AllocError>
    ensures { OnOk result (Adds (flaw_texts answered.now) text.old.items text.new.items) }
{
    add_outcome(text, answered.name, answered.answer.outcome())
}

/// Adds that the obligation fails or is undecided, and nothing where it holds.
fn add_outcome(text: &mut Vec<u8>, name: ObName, outcome: Outcome) -> Result<(), AllocError>
    ensures { OnOk result (Adds (told_texts name outcome) text.old.items text.new.items) }
{
    match outcome {
        Outcome::Holds => Ok(()),
        Outcome::Fails => add_told(text, name, " fails."),
        Outcome::Undecided => add_told(text, name, " is undecided."),
    }
}

fn add_told(text: &mut Vec<u8>, name: ObName, word: &str) -> Result<(), AllocError>
    ensures { OnOk result
        (Adds (codes " " ∷ ob_text name ∷ word.now ∷ []) text.old.items text.new.items) }
{
    add_word(text, " ")?;
    add_word(text, name.text())?;
    add_word(text, word)
}

/// Adds what a draft is.
fn add_about(text: &mut Vec<u8>) -> Result<(), AllocError>
    ensures { OnOk result (Adds about_texts text.old.items text.new.items) }
{
    add_word(text, "\n *\n")?;
    add_word(
        text,
        " * This is a draft for lectures and tries: the rules of that policy as C99,\n",
    )?;
    add_word(
        text,
        " * printed from its text. Change the text, and print it again. The laws of\n",
    )?;
    add_word(
        text,
        " * accepted policies aren't proved of it. A balancer by it may leave a core\n",
    )?;
    add_word(
        text,
        " * idle beside waiting threads. No proof of this project speaks of C.\n */\n",
    )
}

/// Adds words as they are.
fn add_word(text: &mut Vec<u8>, word: &str) -> Result<(), AllocError>
    ensures { OnOk result (Adds (word.now ∷ []) text.old.items text.new.items) }
{
    add_name(text, word.as_bytes())
}

/// Adds bytes as they are.
fn add_name(text: &mut Vec<u8>, name: &[u8]) -> Result<(), AllocError>
    ensures { OnOk result (Adds (name.now ∷ []) text.old.items text.new.items) }
{
    text.extend_from_slice(name)?;
    Ok(())
}
