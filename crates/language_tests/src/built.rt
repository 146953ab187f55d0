//! The policy `fair`, which is built without a text, beside the policy that its text is.

use crate::resolving::{policy_of, shown};
use fair_policy::fair_policy;
use policy_tree::{AttrList, Policy};
use std::alloc::{AllocError, Global};

/// The text of the policy.
const FAIR: &str =
    "policy fair\nload weight 1..8\nthread used in 0..1000 start 0\nplace min core.load\n\
    elect min t.used\non tick {\n  when always : t.used = t.used + 1, queue\n}\n\
    filter self.nr == 0 and victim.nr >= 2 or victim.load - self.load > 8\n\
    choose max victim.load\nsteal max t.weight\n";

/// Whether the policy that is built is the one of the text.
pub(crate) fn fair_is_as_spelled(alloc: Global) -> Result<bool, AllocError> {
    let built = built(alloc)?;
    let spelled = spelled(alloc)?;
    Ok(built == spelled)
}

/// The policy that is built, in the short spelling of `shown` and with its names.
fn built(alloc: Global) -> Result<String, AllocError> {
    match fair_policy(alloc) {
        Ok(policy) => named(alloc, &policy),
        Err(_memory) => Err(AllocError),
    }
}

/// The policy that the text is, in that spelling.
fn spelled(alloc: Global) -> Result<String, AllocError> {
    match policy_of(alloc, FAIR.as_bytes()) {
        Ok(policy) => named(alloc, &policy),
        Err(_fault) => String::from_str(alloc, "no policy"),
    }
}

/// The policy, and behind it its name and those of its attributes.
fn named(alloc: Global, policy: &Policy) -> Result<String, AllocError> {
    let mut text = shown(alloc, policy)?;
    add_name(&mut text, policy.name.as_slice())?;
    add_names(&mut text, &policy.core_attrs)?;
    add_names(&mut text, &policy.thread_attrs)?;
    Ok(text)
}

/// Adds the names of attributes.
fn add_names(text: &mut String, attrs: &AttrList) -> Result<(), AllocError> {
    for attr in attrs.as_slice() {
        add_name(text, attr.name.as_slice())?;
    }
    Ok(())
}

/// Adds a name, and a space in front of it.
fn add_name(text: &mut String, name: &[u8]) -> Result<(), AllocError> {
    text.push_str(" ")?;
    text.push_str(str::from_utf8(name).unwrap_or("?"))
}
