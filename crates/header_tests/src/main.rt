//! Prints the draft of a policy of which no obligation is decided that needs a budget. Then come the C headers of
//! three policies that `emit` refuses, since they aren't accepted. What it prints stands in `stdout`. From there
//! `tools/try_c` takes the three, to ask each filter where `explain` says that the policy is wrong.
#![tactic(auto)]

ghost use Rattle.std.specs.Prelude.{IfSome};
ghost use Rattle.policy_tree.specs.Meaning.{meaning_of};
ghost use Rattle.policy_eval.specs.Resolved.{IsResolved};

use c_drafts::draft_text;
use c_printer::c_text;
use policy_checker::check_policy;
use policy_reader::read_policy;
use policy_tree::Policy;
use sched_base::MAX_POLICY_BYTES;
use std::alloc::{AllocError, Global};
use std::{fs, io};

/// The files of `data/` whose headers are printed.
const POLICIES: [&str; 3] = ["timid.policy", "eager.policy", "batch-wrong.policy"];

fn main(rt: HostRuntime) -> io::Result<()> {
    let alloc = rt.alloc();
    let text = fs::read_to_string(&rt, "ratio.policy")?;
    println!(&rt; "{}", draft(alloc, text.as_bytes())?)?;
    for file in POLICIES {
        let text = fs::read_to_string(&rt, file)?;
        println!(&rt; "{}", header(alloc, text.as_bytes())?)?;
    }
    Ok(())
}

/// The draft of the policy that the text spells, by a verdict without a budget.
fn draft(alloc: Global, text: &[u8]) -> Result<String, AllocError> {
    let Some(policy) = policy_in(alloc, text) else {
        return String::from_str(alloc, "no policy");
    };
    let Ok(verdict) = check_policy(alloc, policy, 0) else {
        return String::from_str(alloc, "no verdict");
    };
    String::from_utf8(draft_text(alloc, verdict)?).map_err(|_error| AllocError)
}

/// The header of the policy that the text spells. Its bytes are ASCII.
fn header(alloc: Global, text: &[u8]) -> Result<String, AllocError> {
    let Some(policy) = policy_in(alloc, text) else {
        return String::from_str(alloc, "no policy");
    };
    String::from_utf8(c_text(alloc, &policy)?).map_err(|_error| AllocError)
}

/// The policy that the text spells.
fn policy_in(alloc: Global, text: &[u8]) -> Option<Policy>
    ensures { IfSome result (λ policy. IsResolved (meaning_of policy)) }
{
    if text.len() as u64 > MAX_POLICY_BYTES {
        return None;
    }
    match read_policy(alloc, text) {
        Ok(policy) => Some(policy),
        Err(_fault) => None,
    }
}
