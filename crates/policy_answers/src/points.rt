//! Writes the point at which an obligation fails.

ghost use Rattle.std.specs.Prelude.{◌≡◌, ◌≤◌, ◌++◌, IfOk, OnOk, codes, length};
ghost use Rattle.policy_tree.specs.Meaning.{meaning_of};
ghost use Rattle.policy_tree.specs.declared.variables.TheConstants.{SELF_ATTRIBUTES};
ghost use Rattle.policy_answers.specs.Points.{attribute_name, attribute_text, value_text, values_text, variable_text};

use itoa::Buffer;
use policy_tree::variables::{
    FRESH, OTHER_ATTRIBUTES, OTHER_LOAD, OTHER_NR, SELF_ATTRIBUTES, SELF_LOAD, SELF_NR,
    THREAD_ATTRIBUTES, WEIGHT,
};
use policy_tree::{Attr, Policy};
use std::alloc::{AllocError, Global};

/// The line of a statement of that name, which fails at the point at which these variables have these values.
pub(crate) fn failing_line(
    alloc: Global,
    policy: &Policy,
    name: &str,
    vars: &[u32],
    vals: &[i64],
) -> Result<Vec<u8>, AllocError>
    requires { length vals.now ≡ length vars.now }
    ensures { IfOk result (λ line. line.items ≡ name.now ++
        (codes " fails" ++ (values_text (meaning_of policy.now) vars.now vals.now ++ codes "\n"))) }
{
    let mut line = Vec::new(alloc);
    line.extend_from_slice(name.as_bytes())?;
    line.extend_from_slice(b" fails")?;
    add_values(&mut line, policy, vars, vals)?;
    line.extend_from_slice(b"\n")?;
    Ok(line)
}

/// Adds the variables with their values.
pub(crate) fn add_values(
    line: &mut Vec<u8>,
    policy: &Policy,
    vars: &[u32],
    vals: &[i64],
) -> Result<(), AllocError>
    requires { length vals.now ≡ length vars.now }
    ensures { OnOk result (line.new.items ≡ line.old.items ++ values_text (meaning_of policy.now) vars.now vals.now) }
{
    for at in 0..vars.len() {
        add_value(line, policy, vars[at], vals[at])?;
    }
    Ok(())
}

/// Adds a variable with its value.
fn add_value(
    line: &mut Vec<u8>,
    policy: &Policy,
    variable: u32,
    value: i64,
) -> Result<(), AllocError>
    ensures { OnOk result (line.new.items ≡ line.old.items ++ value_text (meaning_of policy.now) (variable, value)) }
{
    line.extend_from_slice(b" ")?;
    add_variable(line, policy, variable)?;
    line.extend_from_slice(b"=")?;
    let mut digits = Buffer::new();
    line.extend_from_slice(digits.format(value).as_bytes())?;
    Ok(())
}

/// Adds a variable as the policy's text has it.
fn add_variable(line: &mut Vec<u8>, policy: &Policy, variable: u32) -> Result<(), AllocError>
    ensures { OnOk result (line.new.items ≡ line.old.items ++ variable_text (meaning_of policy.now) variable) }
{
    match variable {
        SELF_NR => line.extend_from_slice(b"self.nr"),
        SELF_LOAD => line.extend_from_slice(b"self.load"),
        OTHER_NR => line.extend_from_slice(b"victim.nr"),
        OTHER_LOAD => line.extend_from_slice(b"victim.load"),
        WEIGHT => line.extend_from_slice(b"t.weight"),
        FRESH => line.extend_from_slice(b"t.fresh"),
        _ => add_attribute(line, policy, variable),
    }
}

/// Adds an attribute as the policy's text has it.
fn add_attribute(line: &mut Vec<u8>, policy: &Policy, variable: u32) -> Result<(), AllocError>
    requires { SELF_ATTRIBUTES ≤ variable }
    ensures { OnOk result (line.new.items ≡ line.old.items ++ attribute_text (meaning_of policy.now) variable) }
{
    if variable < OTHER_ATTRIBUTES {
        line.extend_from_slice(b"self.")?;
        add_name(
            line,
            policy.core_attrs.as_slice(),
            variable - SELF_ATTRIBUTES,
        )
    } else if variable < THREAD_ATTRIBUTES {
        line.extend_from_slice(b"victim.")?;
        add_name(
            line,
            policy.core_attrs.as_slice(),
            variable - OTHER_ATTRIBUTES,
        )
    } else {
        line.extend_from_slice(b"t.")?;
        add_name(
            line,
            policy.thread_attrs.as_slice(),
            variable - THREAD_ATTRIBUTES,
        )
    }
}

/// Adds the name of an attribute, and nothing for one that isn't there.
fn add_name(line: &mut Vec<u8>, attrs: &[Attr], at: u32) -> Result<(), AllocError>
    ensures { OnOk result (line.new.items ≡ line.old.items ++ attribute_name attrs.now at) }
{
    match attrs.get(at as usize) {
        Some(attr) => line.extend_from_slice(attr.name.as_slice()),
        None => Ok(()),
    }
}
